// The transactions that are kept, and the numbers and places that come next.
ghost use Rattle.std.specs.Prelude.{◌≡◌, ◌+◌, ◌∷◌, ◌⊎◌, [], cond, count_by, false, map, true, OnOk, OnErr, IfSome, IfOk, IfErr, Some, None};
ghost use Rattle.std.specs.List.{list_any};
ghost use Rattle.std.specs.Option.{option_copied, option_map};
ghost use Rattle.labels.specs.declared.txn_state.TxnState.TheVariants as state;
ghost use Rattle.front_defs.specs.Answer.{label_for, placed_for};
ghost use Rattle.front_defs.specs.Names.{same};
ghost use Rattle.front_defs.specs.Stands.{waiting_for};
ghost use Rattle.front_defs.specs.Transactions.{ahead_of, begun_txn, due, is_expired, is_over, label_of, sweeps, txn_at, txn_by};
ghost use Rattle.front_defs.specs.declared.command.TxnKey.TheVariants as key;
ghost use Rattle.front_state.specs.Parts.{begun, committed, ended, placed_at, published, range_for, started, submitted, swept, without_table};
ghost use Rattle.txn_core.specs.Refusals.{RefusesBegin, abort_fault, commit_fault, submit_fault, used_by};
ghost use Rattle.txn_core.specs.Seen.{rows_in, seen, sets_in};
ghost use Rattle.txn_core.specs.declared.error.TxnError.TheVariants as error;

use dl_values::Name;
use front_defs::{Placed, TxnKey};
use std::alloc::Global;
use std::marker::Model;
use txn_core::{Held, TxnBook, TxnError, TxnInfo, TxnStart};

/// The kept transactions, and the end of the range that the next number lies in.
#[derive(Drop)]
pub struct Transactions {
    book: TxnBook,
    range: u64,
}

impl Model for Transactions {
    ghost use Rattle.front_state.specs.Parts.{TransactionsView, transactions_seen};

    ghost Value = { TransactionsView };

    ghost view = { λ t. transactions_seen t.book t.range };
}

// The end of the range of the next number, a new one where the last is used up.
fn next_range(range: u64, next: u64) -> Option<u64>
    ensures { IfSome result (λ r. r ≡ range_for range next) }
{
    if range < next {
        return range.checked_add(1000);
    }
    Some(range)
}

// The transaction, where it is of the database.
fn of_db<'a>(txn: &'a TxnInfo, db: &Name) -> Option<&'a TxnInfo>
    ensures { option_copied result ≡ cond (same txn.now.db db.now) (Some txn.now) None }
{
    if txn.db == *db { Some(txn) } else { None }
}

// A place, with how many committed loads wait before it.
fn placed(place: Option<u64>, ahead: u64) -> Option<Placed>
    ensures { result ≡ placed_at place ahead }
{
    match place {
        None => None,
        Some(place) => Some(Placed { place, ahead }),
    }
}

impl Transactions {
    /// None yet: the first has the number 1.
    pub fn new(alloc: Global) -> Transactions
        ensures { result ≡ record { txns = []; waiting = []; range = 0; next = 1; places = 0 } }
    {
        Transactions {
            book: TxnBook::new(alloc),
            range: 0,
        }
    }

    /// Does nothing: what waits is of the transactions, one by one.
    pub fn vouch(&self)
        ensures { map (λ w. w.txn) self.now.waiting ≡ map (λ t. t.id) self.now.txns }
    {
        let _ = &self.book;
    }

    /// The number of the next load.
    pub fn next(&self) -> u64
        ensures { result ≡ self.now.next }
    {
        self.book.next_id()
    }

    /// Begins a load with the next number, and makes the room for all that can become of it.
    pub fn begin(&mut self, start: TxnStart) -> Result<u64, TxnError>
        ensures number { IfOk result (λ id. id ≡ self.old.next) }
        ensures ok { OnOk result (self.new ≡ begun (begun_txn (started start self.old.next)) (record { txn = self.old.next; sets = [] ∷ [] }) self.old) }
        ensures free { OnOk result (used_by (label_of start.db (label_for start.label self.old.next) self.old.txns) ≡ None) }
        ensures refused { IfErr result (RefusesBegin (label_of start.db (label_for start.label self.old.next) self.old.txns)) }
        ensures err { OnErr result (self.new ≡ self.old) }
    {
        let range = match next_range(self.range, self.book.next_id()) {
            None => return Err(TxnError::NoMemory),
            Some(range) => range,
        };
        let id = self.book.begin(start)?;
        self.range = range;
        Ok(id)
    }

    /// The committed load of the lowest place.
    pub fn due(&self) -> Option<&TxnInfo>
        ensures value { option_map seen (option_copied result) ≡ due self.now.txns }
        ensures waits { IfSome result (λ k. waiting_for k.now.id 0 self.now.waiting ≡ sets_in k.now.held) }
    {
        self.book.vouch();
        self.book.due()
    }

    // The transaction of a number, where it is of the database.
    fn numbered(&self, db: &Name, id: u64) -> Option<&TxnInfo>
        ensures value { option_map seen (option_copied result) ≡ txn_by db.now (key.Id id) self.now.txns }
        ensures number { IfSome result (λ k. txn_at k.now.id self.now.txns ≡ Some (seen k.now)) }
    {
        self.book.vouch();
        match self.book.info(id) {
            None => None,
            Some(txn) => of_db(txn, db),
        }
    }

    /// A transaction of a database, by its number or as the last one of a label.
    pub fn txn_by(&self, db: &Name, key: &TxnKey) -> Option<&TxnInfo>
        ensures value { option_map seen (option_copied result) ≡ txn_by db.now key.now self.now.txns }
        ensures number { IfSome result (λ k. txn_at k.now.id self.now.txns ≡ Some (seen k.now)) }
    {
        match key {
            TxnKey::Id(id) => self.numbered(db, *id),
            TxnKey::Label(label) => self.book.find(db, label),
        }
    }

    /// Takes the rows of a begun load that has not expired. A one-phase load has the next place.
    pub fn submit(
        &mut self,
        id: u64,
        held: Option<Held>,
        at: u64,
    ) -> Result<Option<Placed>, TxnError>
        ensures fits { OnOk result (submit_fault at (txn_at id self.old.txns) ≡ None) }
        ensures placed { IfOk result (λ p. p ≡ placed_for (txn_at id self.old.txns) self.old.txns self.old.places) }
        ensures ok { IfOk result (λ p. self.new ≡ submitted id p (rows_in held) (sets_in held) at self.old) }
        ensures refused { IfErr result (λ e. (e ≡ error.NoMemory) ⊎ (submit_fault at (txn_at id self.old.txns) ≡ Some e)) }
        ensures err { OnErr result (self.new ≡ self.old) }
    {
        // No load has the last number there is as its place.
        if self.book.last_place() == u64::MAX {
            return Err(TxnError::NoMemory);
        }
        let ahead = self.book.waiting();
        let place = match self.book.submit(id, held, at) {
            Err(error) => return Err(error),
            Ok(place) => place,
        };
        Ok(placed(place, ahead))
    }

    /// Gives the next place to a submitted two-phase load that has not expired.
    pub fn commit(&mut self, id: u64, at: u64) -> Result<Placed, TxnError>
        ensures fits { OnOk result (commit_fault at (txn_at id self.old.txns) ≡ None) }
        ensures placed { IfOk result (λ p. p ≡ record { place = self.old.places + 1; ahead = ahead_of (self.old.places + 1) self.old.txns }) }
        ensures ok { OnOk result (self.new ≡ committed id at self.old) }
        ensures refused { IfErr result (λ e. (e ≡ error.NoMemory) ⊎ (commit_fault at (txn_at id self.old.txns) ≡ Some e)) }
        ensures err { OnErr result (self.new ≡ self.old) }
    {
        if self.book.last_place() == u64::MAX {
            return Err(TxnError::NoMemory);
        }
        let ahead = self.book.waiting();
        let place = match self.book.commit(id, at) {
            Err(error) => return Err(error),
            Ok(place) => place,
        };
        Ok(Placed { place, ahead })
    }

    /// Aborts a transaction that is not committed. It keeps no rows.
    pub fn abort(&mut self, id: u64, at: u64) -> Result<(), TxnError>
        ensures fits { OnOk result (abort_fault (txn_at id self.old.txns) ≡ None) }
        ensures ok { OnOk result (self.new ≡ ended id state.Aborted at self.old) }
        ensures refused { IfErr result (λ e. abort_fault (txn_at id self.old.txns) ≡ Some e) }
        ensures err { OnErr result (self.new ≡ self.old) }
    {
        self.book.abort(id, at)
    }

    /// Ends the load that is due, as a visible one. It keeps no rows.
    pub fn publish(&mut self, at: u64)
        ensures { self.new ≡ published at self.old }
    {
        let _ended = self.book.publish(at);
    }
    /// Aborts what has expired, forgets what ended long ago, and answers how many of each. Takes no memory.
    pub fn sweep(&mut self, at: u64) -> Result<(u64, u64), TxnError>
        ensures fits { OnOk result (list_any (sweeps at) self.old.txns ≡ true) }
        ensures aborted { IfOk result (λ n. n.0 ≡ count_by (is_expired at) self.old.txns) }
        ensures forgotten { IfOk result (λ n. n.1 ≡ count_by (is_over at) self.old.txns) }
        ensures ok { OnOk result (self.new ≡ swept at self.old) }
        ensures refused { IfErr result (λ e. e ≡ error.NothingToSweep) }
        ensures none { OnErr result (list_any (sweeps at) self.old.txns ≡ false) }
        ensures err { OnErr result (self.new ≡ self.old) }
    {
        self.book.sweep(at)
    }

    /// Aborts the transactions of a table that are not committed, and gives up the rows of all of them. Takes no memory.
    pub fn drop_table(&mut self, table: u64, at: u64)
        ensures { self.new ≡ without_table table at self.old }
    {
        self.book.drop_table(table, at);
    }
}
