// What aggregates make of the cells of a group.
ghost use Rattle.std.specs.Prelude.{◌≡◌, IfOk, length, map};
ghost use Rattle.std.specs.List.{filter, fold};
ghost use Rattle.agg_functions.specs.Merge.{merged_cell};
ghost use Rattle.dl_values.specs.declared.cell.Cell.TheVariants as cell;
ghost use Rattle.select_defs.specs.Aggregates as aggregates;
ghost use Rattle.select_defs.specs.Columns.{cell_named};

use crate::columns::cell_named;
use crate::filters::is_null;
use agg_functions::merge_cells;
use dl_values::{AggKind, Cell, Name, NoMemory, Rows, copy_cell};
use schema_models::Shape;
use sql_text::AggFn;
use std::alloc::Global;

/// The cells of rows in one column, in their order.
pub fn cells_of(
    alloc: Global,
    shape: &Shape,
    name: &Name,
    rows: &Rows,
) -> Result<Vec<Cell>, NoMemory>
    ensures { IfOk result (λ v. v.items ≡ map (cell_named shape.now name.now) rows.now) }
{
    let mut cells = Vec::with_capacity(alloc, rows.len())?;
    for place in 0..rows.len() {
        cells.push(cell_named(alloc, shape, name, rows.row(place))?)?;
    }
    Ok(cells)
}

/// A count, as a cell.
pub fn count_cell(count: usize) -> Cell
    ensures { result ≡ aggregates.count_cell count }
{
    Cell::Int((count as u64).cast_signed())
}

fn merged(alloc: Global, kind: AggKind, cells: &[Cell]) -> Result<Cell, NoMemory>
    ensures { IfOk result (λ c. c ≡ fold (merged_cell kind) cell.Null cells.now) }
{
    let mut made = Cell::Null;
    for cell in cells {
        made = merge_cells(kind, made, copy_cell(alloc, cell)?);
    }
    Ok(made)
}

fn count_of(cells: &[Cell]) -> usize
    ensures { result ≡ length (filter aggregates.not_null cells.now) }
{
    cells.iter().filter(|cell| !is_null(cell)).count()
}

/// The cell that an aggregate makes of cells.
pub fn aggregate(alloc: Global, function: AggFn, cells: &[Cell]) -> Result<Cell, NoMemory>
    ensures { IfOk result (λ c. c ≡ aggregates.aggregate function cells.now) }
{
    match function {
        AggFn::Sum => merged(alloc, AggKind::Sum, cells),
        AggFn::Min => merged(alloc, AggKind::Min, cells),
        AggFn::Max => merged(alloc, AggKind::Max, cells),
        AggFn::Count => Ok(count_cell(count_of(cells))),
    }
}
