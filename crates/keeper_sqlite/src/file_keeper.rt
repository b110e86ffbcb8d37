// A keeper over a file.
ghost use Rattle.std.specs.Prelude.{◌≡◌, ◌≤◌, None, IsErrOf};
ghost use Rattle.dl_outside.specs.Faults.{HasRisen};
ghost use Rattle.record_keeper.specs.Keeping.{Appends, CountsFaults, ReadsAt, Replaces};
ghost use Rattle.keeper_sqlite.specs.Counted.{Counts, none_are_few};

use crate::count::counted;
use crate::file_journal::FileJournal;
use record_keeper::{Keeper, KeeperError};
use sqlite_items::Items;
use std::marker::Model;

/// Keeps records in a file of SQLite's, which it holds open and locked. It tells none of them.
/// Where the file cannot be opened the keeper is closed, and each call opens first; so too after a call that failed.
pub struct FileKeeper {
    file: FileJournal,
    failures: u64,
}

impl Model for FileKeeper {
    ghost use Rattle.keeper_sqlite.specs.Counted.{KeeperView};

    ghost Value = { KeeperView };

    ghost view = { λ k. record { faults = k.failures } };
}

impl Drop for FileKeeper {
    fn drop(self) {
        let FileKeeper {
            file: _,
            failures: _,
        } = self;
    }
}

impl FileKeeper {
    /// The keeper of the records of the file at this path, which is made where there is none.
    pub fn open(rt: HostRuntime, path: String) -> FileKeeper
        ensures { result ≡ record { faults = 0 } }
    {
        FileKeeper {
            file: FileJournal::open(rt, path),
            failures: 0,
        }
    }

    /// How often it has failed.
    pub fn faults(&self) -> u64
        ensures { result ≡ self.now.faults }
    {
        self.failures
    }
}

impl Keeper for FileKeeper {
    ghost records = { λ k. None };

    ghost faults = { λ k. k.faults };

    fn append(&mut self, bytes: &[u8]) -> Result<(), KeeperError>
        ensures told { Appends None bytes.now None result }
        ensures later { self.old.faults ≤ self.new.faults }
        ensures cause { IsErrOf result KeeperError.Failed → HasRisen self.old.faults self.new.faults }
        ensures counted { CountsFaults self.old.faults self.new.faults result }
        ensures counts { Counts self.old.faults self.new.faults result }
    {
        counted(self.file.append(bytes), &mut self.failures)
    }

    fn read_from(&mut self, place: u64) -> Result<Option<Items<u8>>, KeeperError>
        ensures told { ReadsAt None place None result }
        ensures later { self.old.faults ≤ self.new.faults }
        ensures cause { IsErrOf result KeeperError.Failed → HasRisen self.old.faults self.new.faults }
        ensures counted { CountsFaults self.old.faults self.new.faults result }
        ensures counts { Counts self.old.faults self.new.faults result }
    {
        counted(self.file.read(place), &mut self.failures)
    }

    fn replace(&mut self, bytes: &[u8]) -> Result<(), KeeperError>
        ensures told { Replaces None bytes.now None result }
        ensures later { self.old.faults ≤ self.new.faults }
        ensures cause { IsErrOf result KeeperError.Failed → HasRisen self.old.faults self.new.faults }
        ensures counted { CountsFaults self.old.faults self.new.faults result }
        ensures counts { Counts self.old.faults self.new.faults result }
    {
        counted(self.file.replace(bytes), &mut self.failures)
    }

    ghost few = { λ k rs told. none_are_few rs told };
}
