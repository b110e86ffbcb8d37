// The records of a body, read one by one.
// The reader of `csv` is set to read no quotes and records of any length, so that only want of memory stops it.
ghost use Rattle.std.specs.Prelude.{◌≡◌, ◌≢◌, ◌∷◌, [], if◌then◌else◌, IfOk};
ghost use Rattle.csv.specs.Reading.{error_kind};
ghost use Rattle.csv.specs.Records.{fields_of};
ghost use Rattle.csv_load.specs.Reading.{IsOutside};
ghost use Rattle.csv_load.specs.Records.{records};

use csv::{ByteRecord, Error, ErrorKind, Reader, ReaderBuilder};
use dl_values::NoMemory;
use std::alloc::Global;
use std::marker::Model;

/// The records of a body that are not yet read.
#[derive(Drop)]
pub(crate) struct Records<'a> {
    reader: Reader<&'a [u8]>,
}

impl<'a> Model for Records<'a> {
    ghost use Rattle.std.specs.Prelude.{ℕ, List, Some};
    ghost use Rattle.csv_load.specs.Reading.{records_left, ReadsBody};

    ghost Value = { List (List (List ℕ)) };

    ghost view = { λ r. records_left (λ s. Some s.now) r.reader };

    ghost invariant = { λ r. ReadsBody r.reader };
}

impl<'a> Records<'a> {
    /// All records of a body.
    pub(crate) fn of(alloc: Global, separator: u8, bytes: &'a [u8]) -> Records<'a>
        requires feed { separator ≢ 10 }
        requires return_ { separator ≢ 13 }
        ensures { result ≡ records separator bytes.now }
    {
        let reader = ReaderBuilder::new()
            .has_headers(false)
            .flexible(true)
            .quoting(false)
            .delimiter(separator)
            .from_reader(alloc, bytes);
        Records { reader }
    }

    /// Puts the first record that is left into `into`; false where none is.
    /// After an error there are none.
    pub(crate) fn read(&mut self, into: &mut ByteRecord) -> Result<bool, NoMemory>
        ensures { IfOk result (λ found. self.old ≡ (if found then fields_of into.new ∷ self.new else [])) }
    {
        match self.reader.read_byte_record(into) {
            Ok(found) => Ok(found),
            Err(error) => Err(only_memory(error)),
        }
    }
}

// A slice of bytes gives no errors of its own, and a flexible reader refuses no record: what is left is memory.
fn only_memory(error: Error) -> NoMemory
    requires { IsOutside (error_kind error) }
{
    match error.kind() {
        ErrorKind::OutOfMemory | ErrorKind::Io(_) => NoMemory,
        _ => unreachable!(),
    }
}
