// Whether the texts and lists of a record are shorter than 2^32, so that four bytes hold their lengths.
ghost use Rattle.std.specs.Prelude.{◌≡◌};
ghost use Rattle.std.specs.List.{list_all};
ghost use Rattle.journal_records.specs.Fitting as fitting;

use crate::cause::Cause;
use crate::new_part::NewPart;
use crate::piece::Piece;
use crate::record::Record;
use dl_values::{Cell, Rows};

pub const LIMIT: usize = 4_294_967_296;

pub fn is_short_text(text: &[u8]) -> bool
    ensures { result ≡ fitting.short_text text.now }
{
    text.len() < LIMIT
}

pub fn is_short_cell(cell: &Cell) -> bool
    ensures { result ≡ fitting.short_cell cell.now }
{
    match cell {
        Cell::Text(text) => is_short_text(text.bytes()),
        _ => true,
    }
}

fn all_short_cells(cells: &[Cell]) -> bool
    ensures { result ≡ list_all fitting.short_cell cells.now }
{
    cells.iter().all(|cell| is_short_cell(cell))
}

fn is_short_row(cells: &[Cell]) -> bool
    ensures { result ≡ fitting.short_row cells.now }
{
    cells.len() < LIMIT && all_short_cells(cells)
}

fn all_short_rows(rows: &Rows) -> bool
    ensures { result ≡ list_all fitting.short_row rows.now }
{
    for place in 0..rows.len() {
        if !is_short_row(rows.row(place)) {
            return false;
        }
    }
    true
}

pub fn are_short_rows(rows: &Rows) -> bool
    ensures { result ≡ fitting.short_rows rows.now }
{
    rows.len() < LIMIT && all_short_rows(rows)
}

pub fn is_short_bound(end: &Option<Cell>) -> bool
    ensures { result ≡ fitting.short_bound end.now }
{
    match end {
        None => true,
        Some(cell) => is_short_cell(cell),
    }
}

fn is_short_part(part: &NewPart) -> bool
    ensures { result ≡ fitting.short_part part.now }
{
    is_short_text(part.name.bytes()) && is_short_bound(&part.low) && is_short_bound(&part.high)
}

fn is_short_cause(cause: &Cause) -> bool
    ensures { result ≡ fitting.short_cause cause.now }
{
    match cause {
        Cause::Data { column, row } => is_short_text(column.bytes()) && is_short_row(row.cells()),
        _ => true,
    }
}

pub fn is_short(told: &Record) -> bool
    ensures { result ≡ fitting.short told.now }
{
    match told {
        Record::CreateDb(name) => is_short_text(name.bytes()),
        Record::CreateTable(table) => table.is_short(),
        Record::Submit(load) => is_short_text(load.label.bytes()) && load.rows.are_short(),
        Record::AddPartition(part) => is_short_part(part),
        Record::AddJob(job) => job.is_short(),
        Record::JobCancelled { cause, .. } => is_short_cause(cause),
        _ => true,
    }
}
