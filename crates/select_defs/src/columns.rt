// Columns by their names.
ghost use Rattle.std.specs.Prelude.{◌≡◌, IfOk, unwrap_or};
ghost use Rattle.dl_values.specs.declared.cell.Cell.TheVariants as cell;
ghost use Rattle.schema_models.specs.CellsByName as by_name;
ghost use Rattle.select_defs.specs.Columns as columns;

use dl_values::{Cell, ColType, Name, NoMemory, copy_cell};
use schema_models::{ColumnDef, Shape};
use std::alloc::Global;

fn kind_under(defs: &[ColumnDef], name: &Name) -> Option<ColType>
    ensures { result ≡ columns.kind_under defs.now name.now }
{
    match defs {
        [] => None,
        [column, rest @ ..] => {
            if column.name == *name {
                return Some(column.kind);
            }
            kind_under(rest, name)
        }
    }
}

/// The type of the column of a name, where the shape has one.
pub fn kind_named(shape: &Shape, name: &Name) -> Option<ColType>
    ensures { result ≡ columns.kind_named shape.now name.now }
{
    kind_under(shape.columns(), name)
}

fn cell_under(
    alloc: Global,
    defs: &[ColumnDef],
    name: &Name,
    row: &[Cell],
) -> Result<Cell, NoMemory>
    ensures { IfOk result (λ c. c ≡ unwrap_or (by_name.cell_under (by_name.names_of defs.now) name.now row.now) cell.Null) }
{
    let [column, columns @ ..] = defs else {
        return Ok(Cell::Null);
    };
    let [cell, cells @ ..] = row else {
        return Ok(Cell::Null);
    };
    if column.name == *name {
        return copy_cell(alloc, cell);
    }
    cell_under(alloc, columns, name, cells)
}

/// The cell of a row in the column of a name, and null where there is none.
pub fn cell_named(alloc: Global, shape: &Shape, name: &Name, row: &[Cell]) -> Result<Cell, NoMemory>
    ensures { IfOk result (λ c. c ≡ columns.cell_named shape.now name.now row.now) }
{
    cell_under(alloc, shape.columns(), name, row)
}

/// The cell of a key in the place of a name among those that it is of.
pub fn cell_of_key(
    alloc: Global,
    names: &[Name],
    name: &Name,
    key: &[Cell],
) -> Result<Cell, NoMemory>
    ensures { IfOk result (λ c. c ≡ unwrap_or (by_name.cell_under names.now name.now key.now) cell.Null) }
{
    let [first, others @ ..] = names else {
        return Ok(Cell::Null);
    };
    let [cell, cells @ ..] = key else {
        return Ok(Cell::Null);
    };
    if *first == *name {
        return copy_cell(alloc, cell);
    }
    cell_of_key(alloc, others, name, cells)
}
