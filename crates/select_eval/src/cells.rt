// Cells of merged rows.
ghost use Rattle.std.specs.Prelude.{◌≡◌, IfOk, MatchOption, false};
ghost use Rattle.dl_values.specs.declared.cell.Cell.TheVariants as cell;
ghost use Rattle.merge_read.specs.Merged.{cell_of, row_of};
ghost use Rattle.select_defs.specs.Filters.{is_null};
ghost use Rattle.select_eval.specs.Places as at;

use crate::asked::is_null;
use dl_values::{Cell, NoMemory, copy_cell};
use merge_read::MergedCell;
use std::alloc::Global;

// The cell of a row at a place; where there is none, it counts as null.
pub fn cell_at<'a>(row: &[MergedCell<'a>], place: Option<usize>) -> Option<MergedCell<'a>>
    ensures { MatchOption result (at.cell_in (row_of row.now) place ≡ cell.Null) (λ c. at.cell_in (row_of row.now) place ≡ cell_of c) }
{
    match place {
        Some(place) if place < row.len() => Some(row[place]),
        _ => None,
    }
}

// Whether the cell of a row at a place is null.
pub fn is_null_at(row: &[MergedCell], place: Option<usize>) -> bool
    ensures { result ≡ is_null (at.cell_in (row_of row.now) place) }
{
    match place {
        Some(place) if place < row.len() => is_null(row[place]),
        _ => true,
    }
}

// The number in the cell of a row at a place, where it is one.
pub fn number_at(row: &[MergedCell], place: Option<usize>) -> Option<i64>
    ensures { MatchOption result (at.is_number (at.cell_in (row_of row.now) place) ≡ false) (λ n. at.cell_in (row_of row.now) place ≡ cell.Int n) }
{
    match cell_at(row, place) {
        None => None,
        Some(MergedCell::Sum(sum)) => Some(sum),
        Some(MergedCell::Kept(cell)) => match cell {
            Cell::Int(number) => Some(*number),
            Cell::Null | Cell::Day(_) | Cell::Text(_) => None,
        },
    }
}

// An equal cell of its own. The most frequent case is made in place.
#[inline(always)]
fn copy_merged(alloc: Global, cell: MergedCell) -> Result<Cell, NoMemory>
    ensures { IfOk result (λ c. c ≡ cell_of cell.entry) }
{
    match cell {
        MergedCell::Kept(Cell::Int(number)) => Ok(Cell::Int(*number)),
        MergedCell::Kept(cell) => copy_cell(alloc, cell),
        MergedCell::Sum(sum) => Ok(Cell::Int(sum)),
    }
}

// An equal cell of its own of the cell of a row at a place.
#[inline(always)]
pub fn copy_at(alloc: Global, row: &[MergedCell], place: Option<usize>) -> Result<Cell, NoMemory>
    ensures { IfOk result (λ c. c ≡ at.cell_in (row_of row.now) place) }
{
    match place {
        Some(place) if place < row.len() => copy_merged(alloc, row[place]),
        _ => Ok(Cell::Null),
    }
}

// An equal cell of its own of the cell of a key at a place.
pub fn copy_of_key(alloc: Global, key: &[Cell], place: Option<usize>) -> Result<Cell, NoMemory>
    ensures { IfOk result (λ c. c ≡ at.cell_in key.now place) }
{
    match place {
        Some(place) if place < key.len() => copy_cell(alloc, &key[place]),
        _ => Ok(Cell::Null),
    }
}
