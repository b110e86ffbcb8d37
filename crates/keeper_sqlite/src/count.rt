// What a keeper answers where the database refused, and its count of faults.
ghost use Rattle.std.specs.Prelude.{◌≡◌, ◌≤◌, ◌↔◌, IfOk, IsErrOf};
ghost use Rattle.dl_outside.specs.Faults.{HasRisen};
ghost use Rattle.record_keeper.specs.Keeping.{CountsFaults};
ghost use Rattle.keeper_sqlite.specs.Counted.{Counts};

use record_keeper::KeeperError;
use sqlite::{Error, ErrorCode};

/// Want of memory alone is free, and every other refusal is a fault.
pub(crate) fn counted<T>(outcome: Result<T, Error>, faults: &mut u64) -> Result<T, KeeperError>
    ensures counts { Counts faults.old faults.new result }
    ensures counted { CountsFaults faults.old faults.new result }
    ensures later { faults.old ≤ faults.new }
    ensures cause { IsErrOf result KeeperError.Failed → HasRisen faults.old faults.new }
    ensures same { IfOk result (λ value. outcome ≡ Ok value) }
    ensures memory { IsErrOf result KeeperError.NoMemory ↔ IsErrOf outcome (Error.SqliteFailure ErrorCode.OutOfMemory) }
{
    match outcome {
        Ok(value) => Ok(value),
        Err(Error::SqliteFailure(ErrorCode::OutOfMemory)) => Err(KeeperError::NoMemory),
        Err(_) => {
            *faults = faults.saturating_add(1);
            Err(KeeperError::Failed)
        }
    }
}
