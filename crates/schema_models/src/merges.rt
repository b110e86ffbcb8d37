// Merging two rows of one key.
ghost use Rattle.std.specs.Prelude.{◌≡◌, IfOk};
ghost use Rattle.schema_models.specs.Folds as folds;

use crate::{ColumnDef, Role};
use agg_functions::merge_cells;
use dl_values::{Cell, NoMemory, Row, copy_cell};
use std::alloc::Global;

/// The cell of an old one and a newer one, by the role of their column.
pub fn merge_by_role(role: Role, old: Cell, new: Cell) -> Cell
    ensures { result ≡ folds.merged_by_role role old new }
{
    match role {
        Role::Key => old,
        Role::Plain => new,
        Role::Agg(kind) => merge_cells(kind, old, new),
    }
}

/// The row of an old one and a newer one, column by column.
pub fn merge_rows(
    alloc: Global,
    columns: &[ColumnDef],
    old: &[Cell],
    new: &[Cell],
) -> Result<Row, NoMemory>
    ensures { IfOk result (λ row. row ≡ folds.merged_row columns.now old.now new.now) }
{
    let mut row = Row::new(alloc);
    for i in 0..columns.len().min(old.len()).min(new.len()) {
        let older = copy_cell(alloc, &old[i])?;
        let newer = copy_cell(alloc, &new[i])?;
        row.push(merge_by_role(columns[i].role, older, newer))?;
    }
    Ok(row)
}
