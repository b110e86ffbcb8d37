// Which rows pass the tests of a query.
ghost use Rattle.std.specs.Prelude.{◌≡◌, IfOk};
ghost use Rattle.std.specs.List.{filter, list_all};
ghost use Rattle.dl_values.specs.Read.{read};
ghost use Rattle.select_defs.specs.Filters as filters;

use crate::columns::{cell_named, kind_named};
use dl_values::{Cell, ColType, NoMemory, ReadError, Row, Rows, Text, compare_cells};
use schema_models::Shape;
use sql_text::{Check, CompareOp, Filter, Literal, Query};
use std::alloc::Global;
use std::cmp::Ordering;

fn read_as(alloc: Global, kind: ColType, text: &Text) -> Result<Option<Cell>, NoMemory>
    ensures { IfOk result (λ c. c ≡ read kind text.now) }
{
    match kind.read(alloc, text.bytes()) {
        Ok(cell) => Ok(Some(cell)),
        Err(ReadError::Unreadable) => Ok(None),
        Err(ReadError::NoMemory) => Err(NoMemory),
    }
}

/// The cell of a literal beside a column of a type, where it fits.
pub fn literal_cell(
    alloc: Global,
    kind: ColType,
    literal: &Literal,
) -> Result<Option<Cell>, NoMemory>
    ensures { IfOk result (λ c. c ≡ filters.literal_cell kind literal.now) }
{
    match (kind, literal) {
        (ColType::Date | ColType::Varchar(_), Literal::Int(_)) => Ok(None),
        (_, Literal::Int(value)) => Ok(Some(Cell::Int(*value))),
        (ColType::Date, Literal::Text(text)) => read_as(alloc, ColType::Date, text),
        (ColType::Varchar(_), Literal::Text(text)) => Ok(Some(Cell::Text(text.copy(alloc)?))),
        (_, Literal::Text(text)) => read_as(alloc, ColType::BigInt, text),
    }
}

fn passes_op(op: CompareOp, order: Ordering) -> bool
    ensures { result ≡ filters.passes_op op order }
{
    match op {
        CompareOp::Eq => order.is_eq(),
        CompareOp::Ne => !order.is_eq(),
        CompareOp::Lt => order.is_lt(),
        CompareOp::Le => order.is_le(),
        CompareOp::Gt => order.is_gt(),
        CompareOp::Ge => order.is_ge(),
    }
}

fn compares(op: CompareOp, cell: &Cell, literal: &Option<Cell>) -> bool
    ensures { result ≡ filters.compares op cell.now literal.now }
{
    match (cell, literal) {
        (Cell::Null, _) | (_, None) => false,
        (cell, Some(literal)) => passes_op(op, compare_cells(cell, literal)),
    }
}

/// Whether a cell is null.
pub fn is_null(cell: &Cell) -> bool
    ensures { result ≡ filters.is_null cell.now }
{
    match cell {
        Cell::Null => true,
        Cell::Int(_) | Cell::Day(_) | Cell::Text(_) => false,
    }
}

fn passes_check(alloc: Global, kind: ColType, check: &Check, cell: &Cell) -> Result<bool, NoMemory>
    ensures { IfOk result (λ b. b ≡ filters.passes_check kind check.now cell.now) }
{
    match check {
        Check::Compare(op, literal) => {
            let literal = literal_cell(alloc, kind, literal)?;
            Ok(compares(*op, cell, &literal))
        }
        Check::IsNull => Ok(is_null(cell)),
        Check::IsNotNull => Ok(!is_null(cell)),
    }
}

fn passes_filter(
    alloc: Global,
    base: &Shape,
    shape: &Shape,
    row: &[Cell],
    filter: &Filter,
) -> Result<bool, NoMemory>
    ensures { IfOk result (λ b. b ≡ filters.passes_filter base.now shape.now row.now filter.now) }
{
    let Some(kind) = kind_named(base, &filter.column) else {
        return Ok(false);
    };
    let cell = cell_named(alloc, shape, &filter.column, row)?;
    passes_check(alloc, kind, &filter.check, &cell)
}

fn passes_all(
    alloc: Global,
    base: &Shape,
    shape: &Shape,
    row: &[Cell],
    list: &[Filter],
) -> Result<bool, NoMemory>
    ensures { IfOk result (λ b. b ≡ list_all (filters.passes_filter base.now shape.now row.now) list.now) }
{
    for filter in list {
        if !passes_filter(alloc, base, shape, row, filter)? {
            return Ok(false);
        }
    }
    Ok(true)
}

/// The rows that pass the tests of a query, in their order.
pub fn selected(
    alloc: Global,
    base: &Shape,
    shape: &Shape,
    query: &Query,
    rows: &Rows,
) -> Result<Rows, NoMemory>
    ensures { IfOk result (λ out. out ≡ filters.selected base.now shape.now query.now rows.now) }
{
    let mut out = Rows::new(alloc);
    for place in 0..rows.len() {
        let row = rows.row(place);
        if passes_all(alloc, base, shape, row, query.filters.as_slice())? {
            out.push(Row::from_cells(alloc, row)?)?;
        }
    }
    Ok(out)
}
