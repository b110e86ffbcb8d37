// What a block keeps.
use crate::block::Block;

// How many cells a row has, how many rows there are, and how many cells and zones are kept. The pattern names every field,
// so that a cell that was kept beside those of the columns and their ends would be named here.
pub fn parts(block: Block) -> (usize, usize, usize, usize) {
    let Block {
        width,
        count,
        cells,
        zones,
    } = block;
    (width, count, cells.len(), zones.len())
}
