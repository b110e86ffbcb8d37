// Whether rows have only days of the calendar and texts of UTF-8, so that they can be read again.
ghost use Rattle.std.specs.Prelude.{◌≡◌};
ghost use Rattle.std.specs.List.{list_all};
ghost use Rattle.journal_records.specs.Fitting.{readable_cell, readable_row, readable_rows};

use crate::read_fields::is_utf8;
use dl_values::{Cell, ColType, Rows};
use schema_models::is_of_type;

fn is_readable_cell(cell: &Cell) -> bool
    ensures { result ≡ readable_cell cell.now }
{
    match cell {
        Cell::Day(_) => is_of_type(ColType::Date, cell),
        Cell::Text(text) => is_utf8(text.bytes()),
        _ => true,
    }
}

fn is_readable_row(cells: &[Cell]) -> bool
    ensures { result ≡ readable_row cells.now }
{
    cells.iter().all(|cell| is_readable_cell(cell))
}

/// Whether each day of the rows is one of the calendar, and each text UTF-8.
pub fn are_readable(rows: &Rows) -> bool
    ensures { result ≡ readable_rows rows.now }
{
    for place in 0..rows.len() {
        if !is_readable_row(rows.row(place)) {
            return false;
        }
    }
    true
}
