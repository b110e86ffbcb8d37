// What a rowset keeps.
use crate::rowset::Rowset;
use crate::tests::{SUMS, built};
use columnar::Blocks;
use std::test::Fail;

// The blocks. The pattern names every field, so that a row that was kept beside them would be named here.
fn blocks_of(rowset: &Rowset) -> &Blocks {
    let Rowset { blocks } = rowset;
    blocks
}

#[test]
fn a_rowset_keeps_its_rows_by_column_alone(rt: HostRuntime) -> Result<(), Fail> {
    let rowset = built(rt.alloc(), SUMS, &[(2, 1), (1, 5), (2, 7)])?.ok_or("no rowset")?;
    assert_eq!(rt; blocks_of(&rowset).len(), 2);
    Ok(())
}
