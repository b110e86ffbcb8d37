// One block: the cells of up to 1,024 rows, column after column, and the least and the greatest of each column.
ghost use Rattle.std.specs.Prelude.{◌≡◌, ◌<◌, ◌≤◌, ◌+◌, ◌^◌, ◌++◌, [], ◌∷◌, length, take, drop, slice_index_or, IfOk, OnOk};
ghost use Rattle.std.specs.List.{AllByRecursion};
ghost use Rattle.columnar.specs.Blocks.{column_of};
ghost use Rattle.columnar.specs.Zones.{rows_may};
ghost use Rattle.zones.specs.Ends.{ends_of, may_match};

use dl_values::{Cell, NoMemory, RowView, Rows, copy_cell};
use std::alloc::Global;
use std::marker::Model;
use zones::{Op, Test, Zone};

// How many rows a block has that is not the last.
pub const BLOCK_ROWS: usize = 1024;

// The rows of a block, which contracts see as the list of them.
#[derive(Debug, Drop)]
pub struct Block {
    width: usize,
    count: usize,
    cells: Vec<Cell>,
    zones: Vec<Zone>,
}

impl Model for Block {
    ghost use Rattle.std.specs.Prelude.{List};
    ghost use Rattle.columnar.specs.Blocks.{IsBlock, across};
    ghost use Rattle.dl_values.specs.declared.cell.Cell.{Cell};

    ghost Value = { List (List Cell) };

    ghost view = { λ b. across b.width b.count b.cells.items };

    ghost invariant = { λ b. IsBlock b.width b.count b.cells.items b.zones.items };
}

// Adds a cell equal to this one. What takes no memory is put where it stays, and not made elsewhere first.
fn push_cell(alloc: Global, cells: &mut Vec<Cell>, cell: &Cell) -> Result<(), NoMemory>
    ensures { OnOk result (cells.new.items ≡ cells.old.items ++ cell.now ∷ []) }
{
    match cell {
        Cell::Null => cells.push(Cell::Null)?,
        Cell::Int(number) => cells.push(Cell::Int(*number))?,
        Cell::Day(day) => cells.push(Cell::Day(*day))?,
        Cell::Text(_) => cells.push(copy_cell(alloc, cell)?)?,
    }
    Ok(())
}

// Adds the cells of one column of rows that follow each other.
fn add_column(
    alloc: Global,
    cells: &mut Vec<Cell>,
    rows: &Rows,
    start: usize,
    count: usize,
    column: usize,
) -> Result<(), NoMemory>
    requires within { start + count ≤ length rows.now }
    requires fits { start + count < 2 ^ 64 }
    requires wide { AllByRecursion (λ r. column < length r) rows.now }
    ensures { OnOk result (cells.new.items ≡ cells.old.items ++ column_of column (take count (drop start rows.now))) }
{
    for i in 0..count {
        let row = rows.row(start + i);
        push_cell(alloc, cells, &row[column])?;
    }
    Ok(())
}

// Adds the cells of one column of rows that follow each other, and answers the least and the greatest of them.
fn add_zoned_column(
    alloc: Global,
    cells: &mut Vec<Cell>,
    rows: &Rows,
    start: usize,
    count: usize,
    column: usize,
) -> Result<Zone, NoMemory>
    requires within { start + count ≤ length rows.now }
    requires fits { start + count < 2 ^ 64 }
    requires wide { AllByRecursion (λ r. column < length r) rows.now }
    ensures cells { OnOk result (cells.new.items ≡ cells.old.items ++ column_of column (take count (drop start rows.now))) }
    ensures zone { IfOk result (λ zone. zone ≡ ends_of (column_of column (take count (drop start rows.now)))) }
{
    let before = cells.len();
    add_column(alloc, cells, rows, start, count, column)?;
    let (_before, added) = cells.as_slice().split_at(before);
    let zone = Zone::of(alloc, added)?;
    Ok(zone)
}

// Whether a cell of cells that are all null may pass a test.
fn null_may_match(test: &Test) -> bool
    ensures { result ≡ may_match test.now.op test.now.literal (ends_of []) }
{
    match test.op {
        Op::IsNull => true,
        Op::Eq | Op::Ne | Op::Lt | Op::Le | Op::Gt | Op::Ge | Op::IsNotNull => false,
    }
}

impl Block {
    // The block of rows that follow each other, all of one width.
    pub fn of(
        alloc: Global,
        rows: &Rows,
        start: usize,
        count: usize,
        width: usize,
    ) -> Result<Block, NoMemory>
        requires some { 0 < count }
        requires within { start + count ≤ length rows.now }
        requires fits { start + count < 2 ^ 64 }
        requires wide { AllByRecursion (λ r. width ≡ length r) rows.now }
        ensures { IfOk result (λ b. b ≡ take count (drop start rows.now)) }
    {
        let mut cells = Vec::with_capacity(alloc, count.saturating_mul(width))?;
        let mut zones = Vec::with_capacity(alloc, width)?;
        for column in 0..width {
            let zone = add_zoned_column(alloc, &mut cells, rows, start, count, column)?;
            zones.push(zone)?;
        }
        Ok(Block {
            width,
            count,
            cells,
            zones,
        })
    }

    // The row at a place of the block.
    pub fn row(&self, at: usize) -> RowView<'_>
        requires { at < length self.now }
        ensures { result ≡ slice_index_or self.now at [] }
    {
        RowView::across(self.cells.as_slice(), self.count, at)
    }

    // Whether a row of the block may pass a test. Beyond the width all cells are null.
    pub fn may_match(&self, test: &Test) -> bool
        ensures { result ≡ rows_may test.now self.now }
    {
        match self.zones.as_slice().get(test.column) {
            Some(zone) => zone.may_match(test),
            None => null_may_match(test),
        }
    }
}

#[cfg(test)]
pub mod tests;
