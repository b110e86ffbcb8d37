// One column.
ghost use Rattle.std.specs.Prelude.{◌≡◌, IfOk};

use crate::Role;
use dl_values::{Cell, ColType, Name, NoMemory, copy_cell};
use std::alloc::Global;

/// A column of a table, with the cell that a later added column gives to the rows before it.
#[derive(Debug, Drop)]
pub struct ColumnDef {
    pub name: Name,
    pub kind: ColType,
    pub nullable: bool,
    pub role: Role,
    pub default: Option<Cell>,
}

fn copy_default(alloc: Global, default: &Option<Cell>) -> Result<Option<Cell>, NoMemory>
    ensures { IfOk result (λ d. d ≡ default.now) }
{
    match default {
        None => Ok(None),
        Some(cell) => Ok(Some(copy_cell(alloc, cell)?)),
    }
}

fn copy_column(alloc: Global, column: &ColumnDef) -> Result<ColumnDef, NoMemory>
    ensures { IfOk result (λ c. c ≡ column.now) }
{
    let name = column.name.copy(alloc)?;
    let default = copy_default(alloc, &column.default)?;
    Ok(ColumnDef {
        name,
        kind: column.kind,
        nullable: column.nullable,
        role: column.role,
        default,
    })
}

// Equal columns of their own.
pub fn copy_columns(alloc: Global, columns: &[ColumnDef]) -> Result<Vec<ColumnDef>, NoMemory>
    ensures { IfOk result (λ v. v.items ≡ columns.now) }
{
    let mut all = Vec::with_capacity(alloc, columns.len())?;
    for column in columns {
        all.push(copy_column(alloc, column)?)?;
    }
    Ok(all)
}
