// The row that is being made of stored rows.
ghost use Rattle.std.specs.Prelude.{◌≡◌, List, length, IfOk};
ghost use Rattle.merge_read.specs.Merged.{row_of};
ghost use Rattle.schema_models.specs.Folds.{merged_row};

use crate::merged_cell::{MergedCell, merge_cell};
use dl_values::{NoMemory, RowView};
use schema_models::ColumnDef;
use std::alloc::Global;

// Room for one row of this many cells.
pub fn room_for<'a>(alloc: Global, width: usize) -> Result<Vec<MergedCell<'a>>, NoMemory>
    ensures { IfOk result (λ cells. length cells.items ≡ width) }
{
    let mut cells = Vec::with_capacity(alloc, width)?;
    for _ in 0..width {
        cells.push(MergedCell::Sum(0))?;
    }
    Ok(cells)
}

// Begins with a row where it stands.
pub fn begin<'a>(cells: &mut [MergedCell<'a>], row: &RowView<'a>)
    requires { length cells.old ≡ length row.now }
    ensures { row_of cells.new ≡ row.now }
{
    for column in 0..cells.len() {
        cells[column] = MergedCell::Kept(row.cell(column));
    }
}

// Merges a newer row of the same key into it: the one rule for whole rows.
pub fn merge<'a>(columns: &[ColumnDef], cells: &mut [MergedCell<'a>], row: &RowView<'a>)
    requires cells { length cells.old ≡ length columns.now }
    requires row { length row.now ≡ length columns.now }
    ensures { row_of cells.new ≡ merged_row columns.now (row_of cells.old) row.now }
{
    for column in 0..cells.len() {
        cells[column] = merge_cell(columns[column].role, cells[column], row.cell(column));
    }
}
