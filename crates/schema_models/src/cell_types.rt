// Which cells a column may have.
ghost use Rattle.std.specs.Prelude.{◌≡◌};
ghost use Rattle.schema_models.specs.CellTypes as types;
ghost use Rattle.dl_values.specs.Days.{is_day};
ghost use Rattle.dl_values.specs.Read as read;

use crate::ColumnDef;
use dl_values::{Cell, ColType};
use jiff::civil::Date;

// Whether a type may be declared.
pub fn is_type(kind: ColType) -> bool
    ensures { result ≡ types.is_type kind }
{
    match kind {
        ColType::Varchar(limit) => 1 <= limit && limit <= 65533,
        _ => true,
    }
}

// Whether a number is at least -limit and below the limit.
fn is_within(limit: u64, value: i64) -> bool
    ensures { result ≡ read.is_within limit value }
{
    if value >= 0 {
        (value as u64) < limit
    } else {
        ((-1 - value) as u64) < limit
    }
}

// Whether a number stands for a day of the calendar.
fn is_calendar_day(day: u32) -> bool
    ensures { result ≡ types.is_calendar_day day }
{
    let year = day / 10_000;
    year <= 9999 && Date::new(year as i16, (day / 100 % 100) as i8, (day % 100) as i8).is_ok()
}

// Whether bytes are UTF-8, and at most this many.
fn is_text(limit: u32, bytes: &[u8]) -> bool
    ensures { result ≡ types.is_text limit bytes.now }
{
    if bytes.len() > limit as usize {
        return false;
    }
    match str::from_utf8(bytes) {
        Ok(_) => true,
        Err(_) => false,
    }
}

/// Whether a cell is of a type. A null is of none.
pub fn is_of_type(kind: ColType, cell: &Cell) -> bool
    ensures { result ≡ types.is_of_type kind cell.now }
{
    match (kind, cell) {
        (ColType::TinyInt, Cell::Int(value)) => is_within(128, *value),
        (ColType::SmallInt, Cell::Int(value)) => is_within(32_768, *value),
        (ColType::Int, Cell::Int(value)) => is_within(2_147_483_648, *value),
        (ColType::BigInt, Cell::Int(value)) => is_within(9_223_372_036_854_775_808, *value),
        (ColType::Date, Cell::Day(day)) => is_calendar_day(*day),
        (ColType::Varchar(limit), Cell::Text(text)) => is_text(limit, text.bytes()),
        _ => false,
    }
}

// Whether a column may have a cell.
pub fn fits_column(column: &ColumnDef, cell: &Cell) -> bool
    ensures { result ≡ types.fits_column column.now cell.now }
{
    match cell {
        Cell::Null => column.nullable,
        cell => is_of_type(column.kind, cell),
    }
}
