// Reading a cell from its text.
ghost use Rattle.std.specs.Prelude.{◌≡◌, IfOk, IfErr, Err, Some, None};
ghost use Rattle.dl_values.specs.Read.{read, int_below, is_within, text_cell, without_blanks, number_of};

use crate::blanks::stripped;
use crate::day::read_day;
use crate::number::number;
use crate::{Cell, ColType, NoMemory, Text};
use std::alloc::Global;
use thiserror::Error;

/// Why a text gives no cell.
#[derive(Clone, Copy, Debug, PartialEq, Eq, Error)]
pub enum ReadError {
    /// The type has no cell with this text.
    #[error("the type has no cell with this text")]
    Unreadable,
    #[error("there is not enough memory")]
    NoMemory,
}

impl From<NoMemory> for ReadError {
    ghost use Rattle.std.specs.Prelude.{◌≡◌};
    ghost use Rattle.dl_values.specs.declared.read.ReadError.TheVariants.{NoMemory as WantsMemory};

    ghost from_gives = { λ _ e. e ≡ WantsMemory };

    fn from(_: NoMemory) -> ReadError {
        ReadError::NoMemory
    }
}

// Whether a number is at least -limit and below the limit.
fn is_below(limit: u64, value: i64) -> bool
    ensures { result ≡ is_within limit value }
{
    if value >= 0 {
        (value as u64) < limit
    } else {
        ((-1 - value) as u64) < limit
    }
}

// The integer of a text, where it is at least -limit and below the limit.
fn read_int(limit: u64, text: &[u8]) -> Result<Cell, ReadError>
    ensures found { IfOk result (λ c. int_below limit (number_of (without_blanks text.now)) ≡ Some c) }
    ensures unreadable { IfErr result (λ e. (e ≡ ReadError.Unreadable) × (int_below limit (number_of (without_blanks text.now)) ≡ None)) }
{
    match number(stripped(text)) {
        Some(value) if is_below(limit, value) => Ok(Cell::Int(value)),
        _ => Err(ReadError::Unreadable),
    }
}

// A text that is UTF-8 and has at most this many bytes.
fn read_text(alloc: Global, most: u32, text: &[u8]) -> Result<Cell, ReadError>
    ensures found { IfOk result (λ c. text_cell most text.now ≡ Some c) }
    ensures unreadable { result ≡ Err ReadError.Unreadable → text_cell most text.now ≡ None }
{
    if text.len() > most as usize {
        return Err(ReadError::Unreadable);
    }
    match str::from_utf8(text) {
        Ok(_) => Ok(Cell::Text(Text::new(alloc, text)?)),
        Err(_) => Err(ReadError::Unreadable),
    }
}

impl ColType {
    /// The cell that a text stands for in a column of this type. Blanks around a number or a date count for nothing;
    /// a text of a VARCHAR stands for itself, where it is UTF-8 and short enough. Null has no text here.
    pub fn read(&self, alloc: Global, text: &[u8]) -> Result<Cell, ReadError>
        ensures found { IfOk result (λ c. read self.now text.now ≡ Some c) }
        ensures unreadable { result ≡ Err ReadError.Unreadable → read self.now text.now ≡ None }
    {
        match self {
            ColType::TinyInt => read_int(128, text),
            ColType::SmallInt => read_int(32_768, text),
            ColType::Int => read_int(2_147_483_648, text),
            ColType::BigInt => read_int(9_223_372_036_854_775_808, text),
            ColType::Date => match read_day(stripped(text)) {
                Some(day) => Ok(Cell::Day(day)),
                None => Err(ReadError::Unreadable),
            },
            ColType::Varchar(most) => read_text(alloc, *most, text),
        }
    }
}
