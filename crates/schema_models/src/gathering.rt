// What the rows of one key come to.
ghost use Rattle.std.specs.Prelude.{◌≡◌, IfOk};
ghost use Rattle.std.specs.List.{filter};
ghost use Rattle.dl_values.specs.Order.{row_cmp};
ghost use Rattle.fold_laws.specs.Fold.{has_key, merged};
ghost use Rattle.schema_models.specs.Folds as folds;

use crate::keys::key_of;
use crate::merges::merge_rows;
use crate::{ColumnDef, Model, Shape};
use dl_values::{Cell, NoMemory, Row, Rows, compare_slices};
use std::alloc::Global;
use std::cmp::Ordering;

// The rows that have a key, in their order.
pub fn rows_of_key(
    alloc: Global,
    shape: &Shape,
    rows: &Rows,
    key: &[Cell],
) -> Result<Rows, NoMemory>
    ensures { IfOk result (λ out. out ≡ filter (has_key row_cmp (folds.key_of shape.now) key.now) rows.now) }
{
    let mut out = Rows::new(alloc);
    for place in 0..rows.len() {
        let row = rows.row(place);
        if compare_slices(key, key_of(shape, row)) == Ordering::Equal {
            out.push(Row::from_cells(alloc, row)?)?;
        }
    }
    Ok(out)
}

// The merge of rows, from the first to the last: one row, or none of none.
fn merge_all(alloc: Global, columns: &[ColumnDef], rows: Rows) -> Result<Rows, NoMemory>
    ensures { IfOk result (λ out. out ≡ merged (folds.merged_row columns.now) rows) }
{
    if rows.is_empty() {
        return Ok(rows);
    }
    let mut made = Row::from_cells(alloc, rows.row(0))?;
    for place in 1..rows.len() {
        made = merge_rows(alloc, columns, made.cells(), rows.row(place))?;
    }
    let mut out = Rows::new(alloc);
    out.push(made)?;
    Ok(out)
}

// What rows of one key come to by the model: all of them, or their merge.
pub fn gather(alloc: Global, shape: &Shape, rows: Rows) -> Result<Rows, NoMemory>
    ensures { IfOk result (λ out. out ≡ folds.gathered shape.now rows) }
{
    match shape.model() {
        Model::Duplicate => Ok(rows),
        Model::Unique | Model::Aggregate => merge_all(alloc, shape.columns(), rows),
    }
}
