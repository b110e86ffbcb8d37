// Rows that are encoded are told as they were.
use dl_values::{Cell, Row, Rows};
use journal_format::EncodedRows;
use std::test::Fail;

#[test]
fn encoded_rows_are_the_rows(rt: HostRuntime) -> Result<(), Fail> {
    let alloc = rt.alloc();
    let mut row = Row::new(alloc);
    row.push(Cell::Int(7))?;
    let mut rows = Rows::new(alloc);
    rows.push(row)?;
    let encoded = EncodedRows::new(rows);
    assert_eq!(rt; encoded.rows().len(), 1);
    Ok(())
}
