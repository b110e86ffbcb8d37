// The front: what stands in the service, and how it answers commands.
ghost use Rattle.std.specs.Prelude.{◌≡◌, ℕ, [], ◌∷◌, List, Some, false, true};
ghost use Rattle.front_defs.specs.Answer.{Aborts, Begins, CreatesDb, CreatesTable, Publishes, Submits};
ghost use Rattle.front_defs.specs.History.{outcome, Well, Refused, Faulted};
ghost use Rattle.front_defs.specs.Catalogue.{table_named};
ghost use Rattle.front_defs.specs.Transactions.{txn_at, txn_by};
ghost use Rattle.front_core.specs.Parts.{BeginsLoad, EndsLoad, IsCalm, IsFront, IsPublished, TakesRows, Shares, Commits, CommitsLoad, Drops, DropsTable, Sweeps, with_sweep, front_view, is_for_base, sets_by, with_db, with_table};
ghost use Rattle.front_defs.specs.Gives.{Gives};
ghost use Rattle.front_defs.specs.declared.history.Entry.{Entry};
ghost use Rattle.front_defs.specs.declared.history.Entry.TheVariants.{Made};
ghost use Rattle.front_defs.specs.Legal.{Legal};
ghost use Rattle.front_defs.specs.May.{May};
ghost use Rattle.front_defs.specs.Stands.{Stands};
ghost use Rattle.front_core.specs.Made.{made};
ghost use Rattle.txn_core.specs.Seen.{sets_in};
ghost use Rattle.labels.specs.declared.txn_state.TxnState.TheVariants as state;

use crate::begins::{label_refusal, plan, start};
use crate::defined::defined;
use crate::fitting::held_of;
use crate::refusal::refusal;
use crate::stored::{snapshot_of, store_held};
use dl_outside::Steps;
use dl_values::{Name, NoMemory};
use front_defs::{Command, Reply, TxnKey};
use front_laws::laws;
use front_state::{Catalogue, Transactions};
use schema_models::is_name;
use shadow_writes::Built;
use sql_text::TableDef;
use std::alloc::Global;
use std::marker::Model;
use std::sync::ledger::Ledger;
use txn_core::Held;

// At most so many databases, and so many tables in all.
const MOST: usize = 1000;

/// What stands in the service: its catalogue, its transactions and what is stored. It answers one command at a time.
#[derive(Drop)]
pub struct Front {
    alloc: Global,
    catalogue: Catalogue,
    transactions: Transactions,
}

impl Model for Front {
    ghost use Rattle.front_defs.specs.Stands.{View};
    ghost use Rattle.front_core.specs.Parts.{front_view};

    ghost Value = { View };

    ghost view = { λ f. front_view f.catalogue f.transactions };
}

impl Front {
    /// A front without databases.
    pub fn new(alloc: Global) -> Front
        ensures { result ≡ front_view (record { databases = []; tables = []; last_table = 0; tablets = [] }) (record { txns = []; waiting = []; range = 0; next = 1; places = 0 }) }
    {
        Front {
            alloc,
            catalogue: Catalogue::new(alloc),
            transactions: Transactions::new(alloc),
        }
    }

    // Does nothing: what stands is of known tables, and what waits is of the transactions, as a proof learns by this call.
    fn vouch(&self)
        ensures { IsFront self.now }
    {
        self.catalogue.vouch();
        self.transactions.vouch();
    }

    fn create_db(&mut self, name: Name, if_not_exists: bool) -> Reply
        ensures answer { CreatesDb name if_not_exists self.old.databases result }
        ensures well { outcome result ≡ Well → self.new ≡ with_db name self.old }
        ensures kept { outcome result ≡ Refused → self.new ≡ self.old }
        ensures works { outcome result ≡ Faulted → ⊥ }
        ensures gives { Gives result }
        ensures calm { IsCalm self.old self.new }
    {
        if !is_name(name.bytes()) {
            return Reply::BadName;
        }
        if self.catalogue.has_db(&name) {
            return if if_not_exists {
                Reply::Done
            } else {
                Reply::DbExists
            };
        }
        if self.catalogue.databases() >= MOST {
            return Reply::TooManyDbs;
        }
        match self.catalogue.add_db(name) {
            Ok(()) => Reply::Done,
            Err(NoMemory) => Reply::NoMemory,
        }
    }

    fn create_table(&mut self, db: Name, table: Name, def: TableDef, if_not_exists: bool) -> Reply
        ensures answer { CreatesTable db table def if_not_exists self.old.databases self.old.tables result }
        ensures well { outcome result ≡ Well → self.new ≡ with_table db table def self.old }
        ensures kept { outcome result ≡ Refused → self.new ≡ self.old }
        ensures works { outcome result ≡ Faulted → ⊥ }
        ensures gives { Gives result }
        ensures calm { IsCalm self.old self.new }
    {
        if !self.catalogue.has_db(&db) {
            return Reply::UnknownDb;
        }
        if self.catalogue.table(&db, &table).is_some() {
            return if if_not_exists {
                Reply::Done
            } else {
                Reply::TableExists
            };
        }
        if !is_name(table.bytes()) {
            return Reply::BadName;
        }
        if self.catalogue.tables() >= MOST {
            return Reply::TooManyTables;
        }
        let (shape, layout) = match defined(self.alloc, &table, &def) {
            Ok(made) => made,
            Err(refusal) => return refusal,
        };
        match self
            .catalogue
            .add_table(self.alloc, db, table, shape, layout)
        {
            Ok(()) => Reply::Done,
            Err(NoMemory) => Reply::NoMemory,
        }
    }

    fn begin(
        &mut self,
        db: Name,
        table: Name,
        label: Option<Name>,
        two_phase: bool,
        at: u64,
    ) -> Reply
        ensures answer { Begins db table label self.old.databases self.old.tables self.old.txns self.old.jobs self.old.next result }
        ensures well { outcome result ≡ Well → BeginsLoad (table_named db table self.old.tables) label two_phase at self.old self.new }
        ensures kept { outcome result ≡ Refused → self.new ≡ self.old }
        ensures works { outcome result ≡ Faulted → ⊥ }
        ensures gives { Gives result }
        ensures calm { IsCalm self.old self.new }
    {
        if !self.catalogue.has_db(&db) {
            return Reply::UnknownDb;
        }
        let table = match self.catalogue.table(&db, &table) {
            None => return Reply::UnknownTable,
            Some(table) => table,
        };
        match label_refusal(&label) {
            None => {}
            Some(refusal) => return refusal,
        }
        let plan = match plan(self.alloc, self.transactions.next(), table) {
            Ok(plan) => plan,
            Err(NoMemory) => return Reply::NoMemory,
        };
        let start = match start(self.alloc, table, label, two_phase, at) {
            Ok(start) => start,
            Err(NoMemory) => return Reply::NoMemory,
        };
        match self.transactions.begin(start) {
            Ok(txn) => Reply::Begun { txn, plan },
            Err(error) => refusal(error),
        }
    }

    fn submit(&mut self, txn: u64, built: Built, at: u64) -> Reply
        ensures answer { Submits txn at self.old.txns self.old.places result }
        ensures base { outcome result ≡ Well → is_for_base built.targets ≡ true }
        ensures well { outcome result ≡ Well → TakesRows (txn_at txn self.old.txns) txn built.rows (sets_by built.targets) at self.old self.new }
        ensures kept { outcome result ≡ Refused → self.new ≡ self.old }
        ensures works { outcome result ≡ Faulted → ⊥ }
        ensures gives { Gives result }
        ensures calm { IsCalm self.old self.new }
    {
        match held_of(built) {
            None => Reply::NoMemory,
            Some(held) => self.take(txn, held, at),
        }
    }

    // Takes the rows of a load.
    fn take(&mut self, txn: u64, held: Held, at: u64) -> Reply
        ensures answer { Submits txn at self.old.txns self.old.places result }
        ensures well { outcome result ≡ Well → TakesRows (txn_at txn self.old.txns) txn held.rows (sets_in (Some held)) at self.old self.new }
        ensures kept { outcome result ≡ Refused → self.new ≡ self.old }
        ensures works { outcome result ≡ Faulted → ⊥ }
        ensures gives { Gives result }
        ensures calm { IsCalm self.old self.new }
    {
        let placed = match self.transactions.submit(txn, Some(held), at) {
            Ok(placed) => placed,
            Err(error) => return refusal(error),
        };
        Reply::Submitted { placed }
    }

    fn publish(&mut self, at: u64) -> Reply
        ensures answer { Publishes self.old.txns result }
        ensures well { outcome result ≡ Well → IsPublished at self.old self.new }
        ensures kept { outcome result ≡ Refused → self.new ≡ self.old }
        ensures works { outcome result ≡ Faulted → ⊥ }
        ensures gives { Gives result }
        ensures calm { IsCalm self.old self.new }
    {
        let load = match self.transactions.due() {
            None => return Reply::NothingToPublish,
            Some(load) => load,
        };
        let txn = load.id;
        let place = load.place.unwrap_or(0);
        match store_held(self.alloc, &mut self.catalogue, load) {
            Ok(()) => {
                self.transactions.publish(at);
                Reply::Published { txn, place }
            }
            Err(NoMemory) => Reply::NoMemory,
        }
    }

    fn abort(&mut self, db: Name, key: TxnKey, at: u64) -> Reply
        ensures answer { Aborts db key self.old.databases self.old.txns result }
        ensures well { outcome result ≡ Well → EndsLoad (txn_by db key self.old.txns) state.Aborted at self.old self.new }
        ensures kept { outcome result ≡ Refused → self.new ≡ self.old }
        ensures works { outcome result ≡ Faulted → ⊥ }
        ensures gives { Gives result }
        ensures calm { IsCalm self.old self.new }
    {
        if !self.catalogue.has_db(&db) {
            return Reply::UnknownDb;
        }
        let txn = match self.transactions.txn_by(&db, &key) {
            None => return Reply::NoSuchTxn,
            Some(load) => load.id,
        };
        match self.transactions.abort(txn, at) {
            Ok(()) => Reply::Aborted { txn },
            Err(error) => refusal(error),
        }
    }

    fn commit(&mut self, db: Name, key: TxnKey, at: u64) -> Reply
        ensures answer { Commits db key at self.old.databases self.old.txns self.old.places result }
        ensures well { outcome result ≡ Well → CommitsLoad (txn_by db key self.old.txns) at self.old self.new }
        ensures kept { outcome result ≡ Refused → self.new ≡ self.old }
        ensures works { outcome result ≡ Faulted → ⊥ }
        ensures gives { Gives result }
        ensures calm { IsCalm self.old self.new }
    {
        if !self.catalogue.has_db(&db) {
            return Reply::UnknownDb;
        }
        let txn = match self.transactions.txn_by(&db, &key) {
            None => return Reply::NoSuchTxn,
            Some(load) => load.id,
        };
        match self.transactions.commit(txn, at) {
            Ok(placed) => Reply::Committed {
                txn,
                place: placed.place,
                ahead: placed.ahead,
            },
            Err(error) => refusal(error),
        }
    }

    fn sweep(&mut self, at: u64) -> Reply
        ensures answer { Sweeps at self.old.txns self.old.jobs result }
        ensures well { outcome result ≡ Well → self.new ≡ with_sweep at self.old }
        ensures kept { outcome result ≡ Refused → self.new ≡ self.old }
        ensures works { outcome result ≡ Faulted → ⊥ }
        ensures gives { Gives result }
        ensures calm { IsCalm self.old self.new }
    {
        let (aborted, cleaned) = match self.transactions.sweep(at) {
            Ok(counts) => counts,
            Err(error) => return refusal(error),
        };
        Reply::Swept { aborted, cleaned }
    }

    fn drop_table(&mut self, db: Name, table: Name, if_exists: bool, at: u64) -> Reply
        ensures answer { Drops db table if_exists self.old.databases self.old.tables result }
        ensures well { outcome result ≡ Well → DropsTable (table_named db table self.old.tables) at self.old self.new }
        ensures kept { outcome result ≡ Refused → self.new ≡ self.old }
        ensures works { outcome result ≡ Faulted → ⊥ }
        ensures gives { Gives result }
        ensures calm { IsCalm self.old self.new }
    {
        if !self.catalogue.has_db(&db) {
            return Reply::UnknownDb;
        }
        let number = match self.catalogue.table(&db, &table) {
            None => {
                return if if_exists {
                    Reply::Done
                } else {
                    Reply::UnknownTable
                };
            }
            Some(table) => table.number,
        };
        self.catalogue.drop_table(number);
        self.transactions.drop_table(number, at);
        Reply::Done
    }

    fn snapshot(&self, db: Name, table: Name) -> Reply
        ensures answer { Shares db table self.now.databases self.now.tables self.now.tablets result }
        ensures works { outcome result ≡ Faulted → ⊥ }
        ensures gives { Gives result }
        ensures calm { IsCalm self.now self.now }
    {
        if !self.catalogue.has_db(&db) {
            return Reply::UnknownDb;
        }
        match self.catalogue.table(&db, &table) {
            None => Reply::UnknownTable,
            Some(table) => match snapshot_of(self.alloc, &self.catalogue, table) {
                Ok(snapshot) => Reply::Snap { snapshot },
                Err(NoMemory) => Reply::NoMemory,
            },
        }
    }

    /// Answers a command. A command that is refused changes nothing.
    pub fn step<L: Ledger>(&mut self, command: Command, steps: &mut Steps<L>) -> Reply
        ensures stands { (H : List Entry) (seat : List ℕ) → Stands self.old H → Legal H → May H command → Stands self.new (Made (made seat command result) ∷ H) }
        ensures legal { (H : List Entry) (seat : List ℕ) → Stands self.old H → Legal H → May H command → Legal (Made (made seat command result) ∷ H) }
        ensures kept { outcome result ≡ Refused → self.new ≡ self.old }
        ensures works { outcome result ≡ Faulted → ⊥ }
        ensures gives { Gives result }
        ensures quiet { steps.new ≡ steps.old }
    {
        self.vouch();
        laws::transactions_have_numbers_of_their_own();
        laws::transactions_are_of_live_tables();
        laws::a_submitted_load_is_of_its_table();
        laws::stored_lists_fold_to_the_index();
        let _steps = steps;
        match command {
            Command::CreateDb {
                name,
                if_not_exists,
            } => self.create_db(name, if_not_exists),
            Command::CreateTable {
                db,
                table,
                def,
                if_not_exists,
            } => self.create_table(db, table, def, if_not_exists),
            Command::Begin {
                db,
                table,
                label,
                two_phase,
                at,
            } => self.begin(db, table, label, two_phase, at),
            Command::Submit { txn, built, at } => self.submit(txn, built, at),
            Command::Publish { at } => self.publish(at),
            Command::Abort { db, txn, at } => self.abort(db, txn, at),
            Command::Commit { db, txn, at } => self.commit(db, txn, at),
            Command::Snapshot {
                db,
                table,
                query: _,
            } => self.snapshot(db, table),
            Command::Sweep { at } => self.sweep(at),
            Command::DropTable {
                db,
                table,
                if_exists,
                at,
            } => self.drop_table(db, table, if_exists, at),
            // Not built yet.
            Command::AddPartition { .. }
            | Command::AddAlter { .. }
            | Command::CancelAlter { .. }
            | Command::Advance { .. }
            | Command::Take
            | Command::Give { .. }
            | Command::Show { .. }
            | Command::Restart => Reply::NoMemory,
        }
    }
}
