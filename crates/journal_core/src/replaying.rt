// Reading all records.
ghost use Rattle.std.specs.Prelude.{◌≤◌};
ghost use Rattle.journal_core.specs.Journal.{Replays};
ghost use Rattle.journal_core.specs.Causes.{ReplayHasCause};

use crate::error::JournalError;
use crate::read::read_one;
use journal_records::Record;
use record_keeper::Keeper;
use sqlite_items::Items;
use std::alloc::Global;

// A keeper that tells its records has no more.
const MOST: u64 = (1 << 63) - 1;

/// All records, oldest first. The first that is no record is a bad journal, and so is one behind 2^63 - 1 others.
pub fn replay<K: Keeper>(alloc: Global, keeper: &mut K) -> Result<Items<Record>, JournalError>
    ensures read { Replays (K.records keeper.old) (K.records keeper.new) result }
    ensures later { K.faults keeper.old ≤ K.faults keeper.new }
    ensures cause { ReplayHasCause (K.records keeper.new) (K.faults keeper.old) (K.faults keeper.new) result }
{
    let mut found = Items::new(alloc);
    for place in 0..MOST {
        match read_one(alloc, keeper, place)? {
            None => return Ok(found),
            Some(told) => found.push(told)?,
        }
    }
    match read_one(alloc, keeper, MOST)? {
        None => Ok(found),
        Some(_) => Err(JournalError::BadJournal { seq: MOST + 1 }),
    }
}
