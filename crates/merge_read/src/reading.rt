// All rows of stored lists.
ghost use Rattle.std.specs.Prelude.{◌≡◌, ◌+◌, ◌++◌, ◌∷◌, [], IfOk, OnOk, map};
ghost use Rattle.merge_read.specs.Lists.{AreSortedLists, joined, stored};
ghost use Rattle.merge_read.specs.Merged.{cell_of, row_of};
ghost use Rattle.schema_models.specs.Folds.{fold_of};

use crate::merge::Merge;
use crate::merged_cell::MergedCell;
use dl_outside::Steps;
use dl_values::{Cell, NoMemory, Row, Rows, copy_cell};
use row_fold::SortedRows;
use schema_models::Shape;
use std::alloc::Global;
use std::sync::ledger::Ledger;

// An equal cell of its own.
fn copy_merged(alloc: Global, cell: MergedCell) -> Result<Cell, NoMemory>
    ensures { IfOk result (λ c. c ≡ cell_of cell.entry) }
{
    match cell {
        MergedCell::Kept(cell) => copy_cell(alloc, cell),
        MergedCell::Sum(sum) => Ok(Cell::Int(sum)),
    }
}

// Adds equal cells of their own at the end, as a row.
fn add_row(alloc: Global, all: &mut Rows, cells: &[MergedCell]) -> Result<(), NoMemory>
    ensures { OnOk result (all.new ≡ all.old ++ row_of cells.now ∷ []) }
{
    let mut row = Row::with_room(alloc, cells.len())?;
    for i in 0..cells.len() {
        row.push(copy_merged(alloc, cells[i])?)?;
    }
    all.append(&mut row)
}

/// The fold of the rows of lists, of which the oldest stands first. Each stored row is looked at once.
pub fn read_all<R: SortedRows, L: Ledger>(
    alloc: Global,
    shape: &Shape,
    lists: &[R],
    steps: &mut Steps<L>,
) -> Result<Rows, NoMemory>
    requires { AreSortedLists shape.now (map (λ l. R.rows l) lists.now) }
    ensures read { IfOk result (λ rows. rows ≡ fold_of shape.now (joined (map (λ l. R.rows l) lists.now))) }
    ensures counted { OnOk result (steps.new ≡ steps.old + stored (map (λ l. R.rows l) lists.now)) }
{
    let mut merge = Merge::open(alloc, shape, lists)?;
    let mut all = Rows::new(alloc);
    while merge.next(steps) {
        add_row(alloc, &mut all, merge.present())?;
    }
    Ok(all)
}
