// A book that is filled from a journal.
ghost use Rattle.std.specs.Prelude.{◌≡◌, ◌<◌, ◌≤◌, None, OnErr, OnOk, false, nat_lt, true, ℕ};
ghost use Rattle.front_defs.specs.Moves.{has_open_below};
ghost use Rattle.front_defs.specs.Transactions.{is_prepare, label_of, txn_at};
ghost use Rattle.txn_core.specs.Book.{lowest_open as lowest_open_of, restored, txns_in};
ghost use Rattle.txn_core.specs.Refusals.{HasOwnPlace, used_by};

use super::TxnBook;
use crate::finds::first_open;
use crate::info::TxnInfo;
use crate::inserts::{put_by_number, put_waiter, slot_of};
use dl_values::NoMemory;

impl TxnBook {
    /// The lowest number of a transaction that has not ended, and the next number where all have.
    pub fn lowest_open(&self) -> u64
        ensures first { result ≡ lowest_open_of self.now.next (txns_in self.now) }
        ensures below { (n : ℕ) → n ≤ self.now.next → has_open_below n (txns_in self.now) ≡ nat_lt result n }
    {
        match first_open(&self.kept) {
            None => self.next,
            Some(info) => info.id,
        }
    }

    /// Takes a transaction that a journal tells of, and makes the room for all that can become of it. Conditions: it is
    /// submitted at least; its number is not kept, and below the next one; its label is free; and it has a place exactly
    /// where it was committed, which was drawn and which no other one has.
    pub fn restore(&mut self, told: TxnInfo) -> Result<(), NoMemory>
        requires submitted { is_prepare told.state ≡ false }
        requires told { told.told ≡ true }
        requires fresh { txn_at told.id (txns_in self.old) ≡ None }
        requires below { told.id < self.old.next }
        requires free { used_by (label_of told.db told.label (txns_in self.old)) ≡ None }
        requires place { HasOwnPlace told self.old }
        ensures ok { OnOk result (self.new ≡ restored told self.old) }
        ensures err { OnErr result (self.new ≡ self.old) }
    {
        self.kept.reserve(1)?;
        self.queue.reserve(self.kept.len() + 1)?;
        match self.labels.bind(&told.db, &told.label, told.id) {
            Ok(()) => {}
            Err(_) => return Err(NoMemory),
        }
        self.labels.finish(told.id, told.state);
        put_waiter(&mut self.queue, slot_of(&told), told.id);
        put_by_number(&mut self.kept, told);
        Ok(())
    }

    /// Sets the next number and the last place. Conditions: neither is lowered.
    pub fn raise(&mut self, next: u64, place: u64)
        requires next { self.old.next ≤ next }
        requires place { self.old.places ≤ place }
        ensures { self.new ≡ record self.old { next = next; places = place } }
    {
        self.next = next;
        self.places = place;
    }
}
