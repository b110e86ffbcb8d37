// What rows by column keep: the marks of their shape, and in blocks the cells of their columns and the ends of each.
use crate::block::Block;
use crate::block::tests::parts;
use crate::blocks::Blocks;
use crate::marks::Marks;
use crate::tests::{COUNTED, shape, stored};
use std::test::Fail;

// How many rows are stored, and how many rows each block then has.
const SIZES: &[(u32, &[usize])] = &[
    (0, &[]),
    (1, &[1]),
    (1023, &[1023]),
    (1024, &[1024]),
    (1025, &[1024, 1]),
    (2049, &[1024, 1024, 1]),
];

fn sizes() -> &'static [(u32, &'static [usize])] {
    SIZES
}

// The marks, how many rows there are, and the blocks. The pattern names every field.
fn parts_of(blocks: Blocks) -> (Marks, usize, Vec<Block>) {
    let Blocks {
        marks,
        count,
        blocks,
    } = blocks;
    (marks, count, blocks)
}

#[test]
fn the_last_block_has_the_rest_and_no_other_cell_is_kept(rt: HostRuntime) -> Result<(), Fail> {
    let alloc = rt.alloc();
    let shape = shape(alloc, COUNTED)?.ok_or("no shape")?;
    for (rows, wanted) in sizes() {
        let all = stored(alloc, &shape, *rows)?.ok_or("no rows of the shape")?;
        let (marks, count, blocks) = parts_of(all);
        assert!(rt; marks.is_of(&shape));
        assert_eq!(rt; count, *rows as usize);
        assert_eq!(rt; blocks.len(), wanted.len());
        for (block, size) in blocks.into_iter().zip(*wanted) {
            let (width, count, cells, zones) = parts(block);
            assert_eq!(rt; (width, count, zones), (2, *size, 2));
            assert_eq!(rt; Some(cells), size.checked_mul(2));
        }
    }
    Ok(())
}
