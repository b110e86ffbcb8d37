// What keeps records.
ghost use Rattle.std.specs.Prelude.{◌≡◌, ◌≤◌, ◌<◌, ◌^◌, ℕ, List, Option, Some, length, IsErrOf};
ghost use Rattle.dl_outside.specs.Faults.{HasRisen};
ghost use Rattle.record_keeper.specs.Keeping.{Appends, CountsFaults, ReadsAt, Replaces};

use crate::KeeperError;
use sqlite_items::Items;

/// Keeps records, each a list of bytes, in order. It counts its faults.
pub trait Keeper {
    // The records, oldest first, where the keeper tells them. It may stop telling at any call.
    ghost records: { Self → Option (List (List ℕ)) };

    // How often the keeper has failed. The count never falls, and stands still at the end of its type.
    ghost faults: { Self → ℕ };

    /// Adds a record at the end. After `Failed` it may have been added; after `NoMemory` it was not.
    fn append(&mut self, bytes: &[u8]) -> Result<(), KeeperError>
        ensures told { Appends (records self.old) bytes.now (records self.new) result }
        ensures later { faults self.old ≤ faults self.new }
        ensures cause { IsErrOf result KeeperError.Failed → HasRisen (faults self.old) (faults self.new) }
        ensures counted { CountsFaults (faults self.old) (faults self.new) result };

    /// The record at a place from 0 on, none past the end.
    fn read_from(&mut self, place: u64) -> Result<Option<Items<u8>>, KeeperError>
        ensures told { ReadsAt (records self.old) place (records self.new) result }
        ensures later { faults self.old ≤ faults self.new }
        ensures cause { IsErrOf result KeeperError.Failed → HasRisen (faults self.old) (faults self.new) }
        ensures counted { CountsFaults (faults self.old) (faults self.new) result };

    /// Makes this the one record. After `Failed` the records are the old ones or this one; after `NoMemory` the old ones.
    fn replace(&mut self, bytes: &[u8]) -> Result<(), KeeperError>
        ensures told { Replaces (records self.old) bytes.now (records self.new) result }
        ensures later { faults self.old ≤ faults self.new }
        ensures cause { IsErrOf result KeeperError.Failed → HasRisen (faults self.old) (faults self.new) }
        ensures counted { CountsFaults (faults self.old) (faults self.new) result };

    // A keeper that tells its records has fewer than 2^63.
    ghost few: { (k : Self) (rs : List (List ℕ)) → records k ≡ Some rs → length rs < 2 ^ 63 };
}

impl<K: Keeper> Keeper for &mut K {
    ghost records = { λ k. K.records k.now };

    ghost faults = { λ k. K.faults k.now };

    fn append(&mut self, bytes: &[u8]) -> Result<(), KeeperError> {
        (**self).append(bytes)
    }

    fn read_from(&mut self, place: u64) -> Result<Option<Items<u8>>, KeeperError> {
        (**self).read_from(place)
    }

    fn replace(&mut self, bytes: &[u8]) -> Result<(), KeeperError> {
        (**self).replace(bytes)
    }

    ghost few = { λ k rs told. K.few k.now rs told };
}
