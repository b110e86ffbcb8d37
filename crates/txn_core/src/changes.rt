// Changing one of the kept transactions, found by its number.
ghost use Rattle.std.specs.Prelude.{◌≡◌, ◌+◌, ◌++◌, ◌∷◌, ℕ, List, IfSome, None, Some, [], false, length, map};
ghost use Rattle.label_book.specs.Labels.{finished};
ghost use Rattle.labels.specs.declared.txn_state.TxnState.TheVariants as states;
ghost use Rattle.front_defs.specs.Transactions.{is_committed};
ghost use Rattle.txn_core.specs.declared.waiter.Waiter.{Waiter};
ghost use Rattle.txn_core.specs.Book as book;
ghost use Rattle.txn_core.specs.Book.{at_id, commit_as, end_as, submit_as};
ghost use Rattle.txn_core.specs.Queue.{IsQueue, IsOpen, binding, slot_at, waiters_by};
ghost use Rattle.txn_core.specs.Seen.{Ascending, Below};

use crate::finds::place_of;
use crate::info::{Held, TxnInfo};
use labels::TxnState;

impl TxnInfo {
    // Ends it. It keeps no rows.
    pub fn end(&mut self, state: TxnState, at: u64)
        ensures { self.new ≡ end_as state at self.old }
    {
        self.state = state;
        self.since = at;
        self.held = None;
    }

    // Takes its rows and its place, if it has one already.
    fn submit(&mut self, place: Option<u64>, held: Option<Held>, at: u64)
        ensures { self.new ≡ submit_as place held at self.old }
    {
        self.state = state_by(place);
        self.since = at;
        self.place = place;
        self.told = true;
        self.held = held;
    }

    // Takes its place.
    fn commit(&mut self, place: u64, at: u64)
        ensures { self.new ≡ commit_as place at self.old }
    {
        self.state = TxnState::Committed;
        self.since = at;
        self.place = Some(place);
    }
}

// The state of a load whose rows are there.
pub fn state_by(place: Option<u64>) -> TxnState
    ensures { result ≡ book.state_by place }
{
    match place {
        None => TxnState::Precommitted,
        Some(_) => TxnState::Committed,
    }
}

// Ends the transaction of a number.
pub fn end(kept: &mut Vec<TxnInfo>, id: u64, state: TxnState, at: u64)
    requires { Ascending kept.old.items }
    ensures is { kept.new.items ≡ map (at_id id (end_as state at)) kept.old.items }
    ensures labels { map binding kept.new.items ≡ map (finished id state) (map binding kept.old.items) }
    ensures queue { (q : List Waiter) (last : ℕ) → is_committed state ≡ false → slot_at id kept.old.items ≡ None → IsQueue kept.old.items q last → IsQueue kept.new.items q last }
    ensures first { (w : Waiter) (q : List Waiter) (last : ℕ) → is_committed state ≡ false → w.txn ≡ id → IsQueue kept.old.items (w ∷ q) last → IsQueue kept.new.items q last }
    ensures ascends { Ascending kept.new.items }
    ensures below { (n : ℕ) → Below n kept.old.items → Below n kept.new.items }
    ensures length { length kept.new.items ≡ length kept.old.items }
{
    match place_of(kept, id) {
        None => {}
        Some(i) => kept[i].end(state, at),
    }
}

// Takes the rows of the transaction of a number, and its place.
pub fn submit(kept: &mut Vec<TxnInfo>, id: u64, place: Option<u64>, held: Option<Held>, at: u64)
    requires { Ascending kept.old.items }
    ensures is { kept.new.items ≡ map (at_id id (submit_as place held at)) kept.old.items }
    ensures labels { map binding kept.new.items ≡ map (finished id (book.state_by place)) (map binding kept.old.items) }
    ensures queue { (q : List Waiter) (last : ℕ) → IfSome place (λ p. p ≡ last + 1) → IsOpen id kept.old.items → IsQueue kept.old.items q last → IsQueue kept.new.items (q ++ waiters_by place id) (book.places_by place last) }
    ensures ascends { Ascending kept.new.items }
    ensures below { (n : ℕ) → Below n kept.old.items → Below n kept.new.items }
    ensures length { length kept.new.items ≡ length kept.old.items }
{
    match place_of(kept, id) {
        None => {}
        Some(i) => kept[i].submit(place, held, at),
    }
}

// Gives the transaction of a number its place.
pub fn commit(kept: &mut Vec<TxnInfo>, id: u64, place: u64, at: u64)
    requires { Ascending kept.old.items }
    ensures is { kept.new.items ≡ map (at_id id (commit_as place at)) kept.old.items }
    ensures labels { map binding kept.new.items ≡ map (finished id states.Committed) (map binding kept.old.items) }
    ensures queue { (q : List Waiter) (last : ℕ) → place ≡ last + 1 → IsOpen id kept.old.items → IsQueue kept.old.items q last → IsQueue kept.new.items (q ++ waiters_by (Some place) id) place }
    ensures ascends { Ascending kept.new.items }
    ensures below { (n : ℕ) → Below n kept.old.items → Below n kept.new.items }
    ensures length { length kept.new.items ≡ length kept.old.items }
{
    match place_of(kept, id) {
        None => {}
        Some(i) => kept[i].commit(place, at),
    }
}
