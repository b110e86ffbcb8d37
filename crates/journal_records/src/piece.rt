// What lists of a record hold, and what a record is put together of. How it is spelled may depend on the format of the record.
ghost use Rattle.std.specs.Prelude.{◌≡◌, ◌++◌, ℕ, Bool, List, Result, OnOk};
ghost use Rattle.journal_records.specs.Reading.{Gives};

use crate::read_fields::name;
use crate::short::is_short_text;
use crate::stop::Stop;
use crate::write_fields::put_text;
use dl_values::{Name, NoMemory};
use std::alloc::Global;

/// A part of records that is written, and read again.
pub trait Piece: Drop {
    // Its bytes in a format.
    ghost spelled: { ℕ → Self → List ℕ };

    // Whether its texts and lists are shorter than 2^32.
    ghost short: { Self → Bool };

    // What is read from the front of bytes in a format.
    ghost reader: { ℕ → List ℕ → Result (Self × List ℕ) ℕ };

    fn is_short(&self) -> bool
        ensures { result ≡ short self.now };

    /// Writes it at the end, in the format of the record.
    fn put(&self, format: u8, out: &mut Vec<u8>) -> Result<(), NoMemory>
        ensures { OnOk result (out.new.items ≡ out.old.items ++ spelled format self.now) };

    /// The part that the bytes begin with, and the bytes behind it.
    fn read(alloc: Global, format: u8, bytes: &[u8]) -> Result<(Self, &[u8]), Stop>
        ensures { Gives (λ x. (x.0, x.1.now)) result (reader format bytes.now) };
}

impl Piece for Name {
    ghost use Rattle.journal_records.specs.Spelling.{text};
    ghost use Rattle.journal_records.specs.Fitting.{short_text};
    ghost use Rattle.journal_records.specs.Reading.{text_at};

    ghost spelled = { λ _. text };

    ghost short = { short_text };

    ghost reader = { λ _. text_at };

    fn is_short(&self) -> bool {
        is_short_text(self.bytes())
    }

    fn put(&self, _format: u8, out: &mut Vec<u8>) -> Result<(), NoMemory> {
        put_text(out, self.bytes())
    }

    fn read(alloc: Global, _format: u8, bytes: &[u8]) -> Result<(Name, &[u8]), Stop> {
        name(alloc, bytes)
    }
}
