// Reading one record.
ghost use Rattle.std.specs.Prelude.{◌≤◌, ◌<◌, ◌+◌, ◌^◌, IfOk};
ghost use Rattle.journal_core.specs.Journal.{Reads, IsReadOf};
ghost use Rattle.journal_core.specs.Causes.{ReadHasCause};

use crate::error::JournalError;
use journal_records::{DecodeError, Record, decode};
use record_keeper::Keeper;
use std::alloc::Global;

// The record that the bytes at a place spell.
fn record_at(alloc: Global, bytes: &[u8], place: u64) -> Result<Record, JournalError>
    requires { place < 2 ^ 63 }
    ensures { IsReadOf bytes.now place result }
{
    match decode(alloc, bytes) {
        Ok(told) => Ok(told),
        Err(DecodeError::NoMemory) => Err(JournalError::NoMemory),
        Err(DecodeError::BadRecord { .. }) => Err(JournalError::BadJournal { seq: place + 1 }),
    }
}

/// The record at a place from 0 on, none past the end. What stands there and is no record is a bad journal at the place,
/// counted from 1.
pub fn read_one<K: Keeper>(
    alloc: Global,
    keeper: &mut K,
    place: u64,
) -> Result<Option<Record>, JournalError>
    requires { place < 2 ^ 63 }
    ensures read { Reads (K.records keeper.old) place (K.records keeper.new) result }
    ensures later { K.faults keeper.old ≤ K.faults keeper.new }
    ensures cause { ReadHasCause place (K.faults keeper.old) (K.faults keeper.new) result }
{
    match keeper.read_from(place)? {
        None => Ok(None),
        Some(bytes) => Ok(Some(record_at(alloc, bytes.as_slice(), place)?)),
    }
}
