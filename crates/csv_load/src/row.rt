// The row that a record gives.
ghost use Rattle.std.specs.Prelude.{◌≡◌, IfOk, Some, None, option_copied, if◌then◌else◌, []};
ghost use Rattle.csv.specs.Records.{fields_of};
ghost use Rattle.csv_load.specs.Body.{null_if, cell_of, cells_of, is_inside, only_inside, row_of, with_cell};

use crate::Inside;
use csv::ByteRecord;
use dl_values::{Cell, NoMemory, ReadError, Row};
use schema_models::ColumnDef;
use std::alloc::Global;

// Null, where a column may be null.
fn null_where(may: bool) -> Option<Cell>
    ensures { result ≡ null_if may }
{
    if may { Some(Cell::Null) } else { None }
}

// The cell that a column takes from a field, if it takes one.
fn read_cell(
    alloc: Global,
    strict: bool,
    column: &ColumnDef,
    field: &[u8],
) -> Result<Option<Cell>, NoMemory>
    ensures { IfOk result (λ c. c ≡ cell_of strict column.now field.now) }
{
    if field == b"\\N".as_slice() {
        return Ok(null_where(column.nullable));
    }
    match column.kind.read(alloc, field) {
        Ok(cell) => Ok(Some(cell)),
        Err(ReadError::Unreadable) => Ok(null_where(!strict && column.nullable)),
        Err(ReadError::NoMemory) => Err(NoMemory),
    }
}

// Adds the cell that a column takes from a field to a row; false where it takes none.
fn push_cell(
    alloc: Global,
    strict: bool,
    column: &ColumnDef,
    field: &[u8],
    row: &mut Row,
) -> Result<bool, NoMemory>
    ensures { IfOk result (λ takes. with_cell row.old (cell_of strict column.now field.now) ≡ (if takes then Some row.new else None)) }
{
    // Digits alone are read at once: they are no null, and what they stand for is no error to be judged.
    if let Some(value) = column.kind.plain_int(field) {
        row.push(Cell::Int(value))?;
        return Ok(true);
    }
    match read_cell(alloc, strict, column, field)? {
        None => Ok(false),
        Some(cell) => {
            row.push(cell)?;
            Ok(true)
        }
    }
}

// Adds the cells of a record to an empty row; false where the record has not one field for each column, or gives a
// column no cell.
fn read_cells(
    alloc: Global,
    strict: bool,
    columns: &[ColumnDef],
    fields: &ByteRecord,
    row: &mut Row,
) -> Result<bool, NoMemory>
    requires { row.old ≡ [] }
    ensures { IfOk result (λ whole. cells_of strict columns.now (fields_of fields.now) ≡ (if whole then Some row.new else None)) }
{
    if fields.len() != columns.len() {
        return Ok(false);
    }
    for (i, column) in columns.iter().enumerate() {
        match fields.get(i) {
            None => return Ok(false),
            Some(field) => {
                if !push_cell(alloc, strict, column, field, row)? {
                    return Ok(false);
                }
            }
        }
    }
    Ok(true)
}

// Whether a row lies inside, where there is something to lie inside of.
fn lies_inside<I: Inside>(inside: Option<&I>, row: &Row) -> bool
    ensures { result ≡ is_inside I.inside (option_copied inside.entry) row.now }
{
    match inside {
        None => true,
        Some(layout) => layout.holds(row),
    }
}

/// Puts the row that a record gives into an empty row; false where the record gives none.
pub(crate) fn read_row<I: Inside>(
    alloc: Global,
    columns: &[ColumnDef],
    inside: Option<&I>,
    strict: bool,
    fields: &ByteRecord,
    row: &mut Row,
) -> Result<bool, NoMemory>
    requires { row.old ≡ [] }
    ensures { IfOk result (λ gives. row_of (is_inside I.inside (option_copied inside.entry)) strict columns.now (fields_of fields.now) ≡ (if gives then Some row.new else None)) }
{
    if !read_cells(alloc, strict, columns, fields, row)? {
        return Ok(false);
    }
    Ok(lies_inside(inside, row))
}
