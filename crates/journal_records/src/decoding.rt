// Reading a record.
ghost use Rattle.std.specs.Prelude.{◌≡◌, length, IfOk, Ok};
ghost use Rattle.journal_records.specs.declared.record.Record.{Record as AnyRecord};
ghost use Rattle.journal_records.specs.Spelling.{spelling};
ghost use Rattle.journal_records.specs.Fitting.{Fits};
ghost use Rattle.journal_records.specs.Reading.{Decodes, record_of};

use crate::errors::DecodeError;
use crate::read_records::whole_record;
use crate::record::Record;
use crate::stop::Stop;
use std::alloc::Global;

fn placed(alloc: Global, bytes: &[u8]) -> Result<Record, DecodeError>
    ensures { Decodes result (length bytes.now) (record_of bytes.now) }
{
    match whole_record(alloc, bytes) {
        Ok(found) => Ok(found),
        Err(Stop::Memory) => Err(DecodeError::NoMemory),
        Err(Stop::Left(left)) => Err(DecodeError::BadRecord {
            at: bytes.len().saturating_sub(left),
        }),
    }
}

/// The record that the bytes spell, all of the bytes. Any bytes may be given.
pub fn decode(alloc: Global, bytes: &[u8]) -> Result<Record, DecodeError>
    ensures found { IfOk result (λ r. Fits r × (bytes.now ≡ spelling r)) }
    ensures only { (r : AnyRecord) → Fits r → bytes.now ≡ spelling r → Decodes result (length bytes.now) (Ok r) }
    ensures exact { Decodes result (length bytes.now) (record_of bytes.now) }
{
    placed(alloc, bytes)
}
