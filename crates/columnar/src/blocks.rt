// Rows by column.
ghost use Rattle.std.specs.Prelude.{◌≡◌, ◌<◌, ◌+◌, ◌/◌, [], length, slice_index_or, IfOk};
ghost use Rattle.std.specs.List.{AllByRecursion};
ghost use Rattle.columnar.specs.Blocks.{AreBlocksOf, AreFull, all_rows};
ghost use Rattle.schema_models.specs.RowRules.{IsOfShape};

use crate::Marks;
use crate::block::{BLOCK_ROWS, Block};
use dl_outside::Steps;
use dl_values::{NoMemory, RowView, Rows};
use schema_models::Shape;
use std::alloc::Global;
use std::sync::ledger::Ledger;
use zones::{Test, Zones};

/// Rows of a shape in their order, with the marks of the shape. They stand in blocks of 1,024 rows, the last with the rest,
/// and in each block column after column, with the least and the greatest cell of each column. No other cell is kept.
#[derive(Debug, Drop)]
pub struct Blocks {
    marks: Marks,
    count: usize,
    blocks: Vec<Block>,
}

impl std::marker::Model for Blocks {
    ghost use Rattle.columnar.specs.Blocks.{AreBlocks, BlocksView, all_rows};

    ghost Value = { BlocksView };

    ghost view = { λ b. record { marks = b.marks; rows = all_rows b.blocks.items } };

    ghost invariant = { λ b. AreBlocks b.count b.blocks.items };
}

// The blocks of rows that are all of one width.
fn blocks_of(alloc: Global, rows: &Rows, width: usize) -> Result<Vec<Block>, NoMemory>
    requires wide { AllByRecursion (λ r. width ≡ length r) rows.now }
    ensures full { IfOk result (λ blocks. AreFull blocks.items) }
    ensures rows { IfOk result (λ blocks. all_rows blocks.items ≡ rows.now) }
{
    let mut blocks = Vec::with_capacity(alloc, rows.len().div_ceil(BLOCK_ROWS))?;
    let mut start = 0;
    while start < rows.len() {
        let count = (rows.len() - start).min(BLOCK_ROWS);
        blocks.push(Block::of(alloc, rows, start, count, width)?)?;
        start += count;
    }
    Ok(blocks)
}

impl Blocks {
    ghost use Rattle.std.specs.Prelude.{◌≡◌, ◌↔◌, IfOk, IsTrue};
    ghost use Rattle.columnar.specs.Marks.{marks_of};

    /// The rows of a shape, in their order.
    pub fn from_rows(alloc: Global, shape: &Shape, rows: Rows) -> Result<Blocks, NoMemory>
        requires { AllByRecursion (IsOfShape shape.now) rows }
        ensures { IfOk result (AreBlocksOf shape.now rows) }
    {
        let marks = Marks::of(alloc, shape)?;
        let blocks = blocks_of(alloc, &rows, shape.columns().len())?;
        Ok(Blocks {
            marks,
            count: rows.len(),
            blocks,
        })
    }

    /// How many rows there are.
    pub fn len(&self) -> usize
        ensures { result ≡ length self.now.rows }
    {
        self.count
    }

    /// The row at a place, which counts one step.
    pub fn row<L: Ledger>(&self, place: usize, steps: &mut Steps<L>) -> RowView<'_>
        requires within { place < length self.now.rows }
        ensures row { result ≡ slice_index_or self.now.rows place [] }
        ensures step { steps.new ≡ steps.old + 1 }
    {
        steps.tick();
        let blocks = self.blocks.as_slice();
        let block = &blocks[place / BLOCK_ROWS];
        block.row(place % BLOCK_ROWS)
    }

    /// Whether the shape that they were made for has the marks of this one. Takes no memory, and looks at no row.
    pub fn is_of(&self, shape: &Shape) -> bool
        ensures { IsTrue result ↔ (self.now.marks ≡ marks_of shape.now) }
    {
        self.marks.is_of(shape)
    }
}

impl Zones for Blocks {
    ghost use Rattle.columnar.specs.Finds.{block_finds};
    ghost use Rattle.columnar.specs.Zones.{block_may, block_numbers};

    ghost rows = { λ b. b.rows };

    ghost blocks = { λ b. block_numbers b.rows };

    ghost may = { λ b. block_may b.rows };

    ghost finds = { λ b. block_finds b.rows };

    fn block_of(&self, place: usize) -> usize {
        place / BLOCK_ROWS
    }

    fn block_end(&self, place: usize) -> usize {
        let start = place - place % BLOCK_ROWS;
        start.saturating_add(BLOCK_ROWS).min(self.count)
    }

    fn block_may_match(&self, block: usize, test: &Test) -> bool {
        let blocks = self.blocks.as_slice();
        blocks[block].may_match(test)
    }
}

#[cfg(test)]
mod tests;
