// Keeping a record.
ghost use Rattle.std.specs.Prelude.{◌≤◌};
ghost use Rattle.journal_records.specs.Spelling.{spelling};
ghost use Rattle.journal_core.specs.Journal.{Keeps};
ghost use Rattle.journal_core.specs.Causes.{AppendHasCause};

use crate::error::JournalError;
use journal_records::{Record, encode};
use record_keeper::Keeper;
use std::alloc::Global;

/// Keeps a record behind those that are kept. The room for its bytes is made before the keeper is called.
pub fn append_one<K: Keeper>(
    alloc: Global,
    keeper: &mut K,
    told: &Record,
) -> Result<(), JournalError>
    ensures kept { Keeps (K.records keeper.old) (spelling told.now) (K.records keeper.new) result }
    ensures later { K.faults keeper.old ≤ K.faults keeper.new }
    ensures cause { AppendHasCause told.now (K.faults keeper.old) (K.faults keeper.new) result }
{
    let bytes = encode(alloc, told)?;
    keeper.append(bytes.as_slice())?;
    Ok(())
}
