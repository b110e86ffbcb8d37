// A keeper over a connection.
ghost use Rattle.std.specs.Prelude.{◌≡◌, ◌≤◌, None, IsErrOf};
ghost use Rattle.dl_outside.specs.Faults.{HasRisen};
ghost use Rattle.record_keeper.specs.Keeping.{Appends, CountsFaults, ReadsAt, Replaces};
ghost use Rattle.keeper_sqlite.specs.Counted.{Counts, none_are_few};

use crate::count::counted;
use crate::journal::Journal;
use record_keeper::{Keeper, KeeperError};
use sqlite::{Alter, Connection};
use sqlite_items::Items;
use std::marker::Model;

/// Keeps records in a database, in the column `rec` of its table `journal`, by ascending `seq`. It tells none of them.
pub struct SqliteKeeper<S: Alter> {
    journal: Journal<S>,
    failures: u64,
}

impl<S: Alter> Model for SqliteKeeper<S> {
    ghost use Rattle.keeper_sqlite.specs.Counted.{KeeperView};

    ghost Value = { KeeperView };

    ghost view = { λ k. record { faults = k.failures } };
}

impl<S: Alter + Drop> Drop for SqliteKeeper<S> {
    fn drop(self) {
        let SqliteKeeper {
            journal: _,
            failures: _,
        } = self;
    }
}

impl<S: Alter> SqliteKeeper<S> {
    /// The keeper of the records that the database has. Where it has none, the first call makes the table.
    /// While a transaction is open on the connection, each call is a fault.
    pub fn adopt(connection: Connection<S>) -> SqliteKeeper<S>
        ensures { result ≡ record { faults = 0 } }
    {
        SqliteKeeper {
            journal: Journal::over(connection),
            failures: 0,
        }
    }

    /// How often it has failed.
    pub fn faults(&self) -> u64
        ensures { result ≡ self.now.faults }
    {
        self.failures
    }
}

impl<S: Alter> Keeper for SqliteKeeper<S> {
    ghost records = { λ k. None };

    ghost faults = { λ k. k.faults };

    fn append(&mut self, bytes: &[u8]) -> Result<(), KeeperError>
        ensures told { Appends None bytes.now None result }
        ensures later { self.old.faults ≤ self.new.faults }
        ensures cause { IsErrOf result KeeperError.Failed → HasRisen self.old.faults self.new.faults }
        ensures counted { CountsFaults self.old.faults self.new.faults result }
        ensures counts { Counts self.old.faults self.new.faults result }
    {
        counted(self.journal.append(bytes), &mut self.failures)
    }

    fn read_from(&mut self, place: u64) -> Result<Option<Items<u8>>, KeeperError>
        ensures told { ReadsAt None place None result }
        ensures later { self.old.faults ≤ self.new.faults }
        ensures cause { IsErrOf result KeeperError.Failed → HasRisen self.old.faults self.new.faults }
        ensures counted { CountsFaults self.old.faults self.new.faults result }
        ensures counts { Counts self.old.faults self.new.faults result }
    {
        counted(self.journal.read(place), &mut self.failures)
    }

    fn replace(&mut self, bytes: &[u8]) -> Result<(), KeeperError>
        ensures told { Replaces None bytes.now None result }
        ensures later { self.old.faults ≤ self.new.faults }
        ensures cause { IsErrOf result KeeperError.Failed → HasRisen self.old.faults self.new.faults }
        ensures counted { CountsFaults self.old.faults self.new.faults result }
        ensures counts { Counts self.old.faults self.new.faults result }
    {
        counted(self.journal.replace(bytes), &mut self.failures)
    }

    ghost few = { λ k rs told. none_are_few rs told };
}
