// The bytes of rows, which contracts see as the rows.
ghost use Rattle.std.specs.Prelude.{◌≡◌, IfOk};
ghost use Rattle.journal_records.specs.Spelling as bytes_of;
ghost use Rattle.journal_records.specs.Fitting.{FitsList, FitsRow, short_rows};
ghost use Rattle.journal_records.specs.Encoded.{rows_of, AreRows};

use crate::read_rows::rows;
use dl_values::{NoMemory, Rows};
use std::alloc::Global;
use std::marker::Model;

/// Rows as a record spells them. They can be read again: days are of the calendar, texts are UTF-8, and texts and lists have
/// fewer than 2^32 members.
#[derive(Debug, Drop)]
pub struct EncodedRows {
    bytes: Vec<u8>,
}

impl Model for EncodedRows {
    ghost use Rattle.std.specs.Prelude.{List};
    ghost use Rattle.dl_values.specs.declared.cell.Cell.{Cell};

    ghost Value = { List (List Cell) };

    ghost use Rattle.journal_records.specs.Encoded.{rows_of, AreRows};

    ghost view = { λ e. rows_of e.bytes.items };

    ghost invariant = { λ e. AreRows e.bytes.items };
}

impl EncodedRows {
    // The rows that these bytes spell.
    pub(crate) fn from_bytes(bytes: Vec<u8>) -> EncodedRows
        requires { AreRows bytes.items }
        ensures { result ≡ rows_of bytes.items }
    {
        EncodedRows { bytes }
    }

    /// Their one spelling.
    pub fn bytes(&self) -> &[u8]
        ensures spelled { result.now ≡ bytes_of.rows self.now }
        ensures fit { FitsList FitsRow self.now }
    {
        self.bytes.as_slice()
    }

    /// Rows of their own.
    pub fn rows(&self, alloc: Global) -> Result<Rows, NoMemory>
        ensures same { IfOk result (λ r. r ≡ self.now) }
    {
        match rows(alloc, self.bytes.as_slice()) {
            Ok((found, _)) => Ok(found),
            Err(_) => Err(NoMemory),
        }
    }

    // They are, by what they are.
    pub(crate) fn are_short(&self) -> bool
        ensures { result ≡ short_rows self.now }
    {
        let _fit = self.bytes();
        true
    }
}
