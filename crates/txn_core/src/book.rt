// The transactions that are kept, and the numbers and places that come next.
ghost use Rattle.std.specs.Prelude.{◌≡◌, ◌+◌, ◌++◌, ◌∷◌, ◌<◌, ◌^◌, [], false, find, length, map, nat_eq, OnOk, OnErr, IfOk, IfErr, IfSome, Some, None};
ghost use Rattle.std.specs.Option.{option_copied, option_map};
ghost use Rattle.std.specs.VecDeque.{deque_capacity};
ghost use Rattle.front_defs.specs.Answer.{label_for};
ghost use Rattle.front_defs.specs.Transactions.{ahead_of, due, is_committed, label_of, txn_at};
ghost use Rattle.labels.specs.declared.txn_state.TxnState.TheVariants as states;
ghost use Rattle.txn_core.specs.declared.error.TxnError.TheVariants as error;
ghost use Rattle.txn_core.specs.Book as books;
ghost use Rattle.txn_core.specs.Book.{begun, committed, ended, place_for, published, submitted, txns_in};
ghost use Rattle.txn_core.specs.Queue.{waiters_by};
ghost use Rattle.txn_core.specs.Refusals.{RefusesBegin, abort_fault, commit_fault, submit_fault, used_by};
ghost use Rattle.txn_core.specs.Seen.{Ascending, Below, seen};

mod dropping;
mod opening;
mod sweeping;
mod undoing;

use crate::error::TxnError;
use crate::info::{Held, TxnInfo};
use crate::labels_of::label_or_auto;
use crate::start::TxnStart;
use crate::waiter::Waiter;
use crate::{changes, finds};
use dl_values::{Name, NoMemory};
use label_book::{BindError, LabelBook};
use labels::TxnState;
use std::alloc::Global;
use std::collections::VecDeque;
use std::marker::Model;

/// The transactions that are kept, which contracts see by ascending number, with the next number and the last place that
/// was drawn. The numbers are halved, the labels are in a book, and the committed loads in a queue by ascending place.
#[derive(Drop)]
pub struct TxnBook {
    alloc: Global,
    kept: Vec<TxnInfo>,
    labels: LabelBook,
    queue: VecDeque<Waiter>,
    next: u64,
    places: u64,
}

impl Model for TxnBook {
    ghost use Rattle.std.specs.VecDeque.{deque_capacity};
    ghost use Rattle.txn_core.specs.Book.{BookView};
    ghost use Rattle.txn_core.specs.Queue.{IsIndexed};

    ghost Value = { BookView };

    ghost view = { λ b. record { kept = b.kept.items; next = b.next; places = b.places } };

    ghost invariant = { λ b. IsIndexed b.kept.items b.labels b.queue.items (deque_capacity b.queue) b.next b.places };
}

fn bind_refusal(error: BindError) -> TxnError
    ensures { result ≡ books.bind_fault error }
{
    match error {
        BindError::Used { txn, state } => TxnError::Used { txn, state },
        BindError::NoMemory => TxnError::NoMemory,
    }
}

// The place of a load that is submitted: a one-phase load has the next one.
fn place_of(two_phase: bool, last: u64) -> Option<u64>
    requires { last + 1 < 2 ^ 64 }
    ensures { result ≡ place_for two_phase last }
{
    if two_phase { None } else { Some(last + 1) }
}

// Puts a load that has its place last in the queue. Condition: there is room.
fn put_last(queue: &mut VecDeque<Waiter>, place: Option<u64>, id: u64)
    requires { length queue.old.items < deque_capacity queue.old }
    ensures items { queue.new.items ≡ queue.old.items ++ waiters_by place id }
    ensures capacity { deque_capacity queue.new ≡ deque_capacity queue.old }
{
    // A proof learns by this call how long the queue is.
    let _waiting = queue.len();
    match place {
        None => {}
        Some(place) => queue.push_back_reserved(Waiter { place, txn: id }),
    }
}

fn last_place(place: Option<u64>, last: u64) -> u64
    ensures { result ≡ books.places_by place last }
{
    match place {
        None => last,
        Some(place) => place,
    }
}

impl TxnBook {
    /// A book without transactions, whose first number is 1.
    pub fn new(alloc: Global) -> TxnBook
        ensures { result ≡ record { kept = []; next = 1; places = 0 } }
    {
        TxnBook {
            alloc,
            kept: Vec::new(alloc),
            labels: LabelBook::new(alloc),
            queue: VecDeque::new(alloc),
            next: 1,
            places: 0,
        }
    }

    /// Does nothing: the numbers ascend below the next one, as a proof learns by this call.
    pub fn vouch(&self)
        ensures ascends { Ascending self.now.kept }
        ensures below { Below self.now.next self.now.kept }
    {
        let _kept = &self.kept;
    }

    /// The number of the next transaction.
    pub fn next_id(&self) -> u64
        ensures { result ≡ self.now.next }
    {
        self.next
    }

    /// The last place that was drawn, 0 where none was.
    pub fn last_place(&self) -> u64
        ensures { result ≡ self.now.places }
    {
        self.places
    }

    /// How many committed loads wait for their publish.
    pub fn waiting(&self) -> u64
        ensures { result ≡ ahead_of (self.now.places + 1) (txns_in self.now) }
    {
        self.queue.len() as u64
    }

    /// The transaction of a number.
    pub fn info(&self, txn: u64) -> Option<&TxnInfo>
        ensures { option_copied result ≡ find (λ k. nat_eq k.id txn) self.now.kept }
    {
        finds::kept_at(&self.kept, txn)
    }

    /// The last transaction of a label in a database.
    pub fn find(&self, db: &Name, label: &Name) -> Option<&TxnInfo>
        ensures label { option_map seen (option_copied result) ≡ label_of db.now label.now (txns_in self.now) }
        ensures kept { IfSome result (λ k. find (λ x. nat_eq x.id k.now.id) self.now.kept ≡ Some k.now) }
    {
        match self.labels.state(db, label) {
            None => None,
            Some((id, _)) => finds::kept_at(&self.kept, id),
        }
    }

    /// The committed load of the lowest place.
    pub fn due(&self) -> Option<&TxnInfo>
        ensures load { option_map seen (option_copied result) ≡ due (txns_in self.now) }
        ensures kept { IfSome result (λ k. find (λ x. nat_eq x.id k.now.id) self.now.kept ≡ Some k.now) }
    {
        match self.queue.front() {
            None => None,
            Some(waiter) => finds::kept_at(&self.kept, waiter.txn),
        }
    }

    // Adds one with the next number. Room is made first, since want of memory has to change nothing.
    fn add(&mut self, info: TxnInfo, next: u64) -> Result<(), TxnError>
        requires number { info.id ≡ self.old.next }
        requires begins { info.state ≡ states.Prepare }
        requires next { next ≡ self.old.next + 1 }
        ensures ok { OnOk result (self.new ≡ record self.old { kept = self.old.kept ++ info ∷ []; next = next }) }
        ensures free { OnOk result (used_by (label_of info.db info.label (txns_in self.old)) ≡ None) }
        ensures refused { IfErr result (RefusesBegin (label_of info.db info.label (txns_in self.old))) }
        ensures err { OnErr result (self.new ≡ self.old) }
    {
        match self.kept.reserve(1) {
            Ok(()) => {}
            Err(_) => return Err(TxnError::NoMemory),
        }
        match self.queue.reserve(self.kept.len() + 1) {
            Ok(()) => {}
            Err(_) => return Err(TxnError::NoMemory),
        }
        match self.labels.bind(&info.db, &info.label, info.id) {
            Ok(()) => {}
            Err(error) => return Err(bind_refusal(error)),
        }
        self.kept.push_reserved(info);
        self.next = next;
        Ok(())
    }

    /// Begins a transaction with the next number, and makes the room for all that can become of it.
    pub fn begin(&mut self, start: TxnStart) -> Result<u64, TxnError>
        ensures number { IfOk result (λ id. id ≡ self.old.next) }
        ensures ok { OnOk result (self.new ≡ begun start self.old) }
        ensures free { OnOk result (used_by (label_of start.db (label_for start.label self.old.next) (txns_in self.old)) ≡ None) }
        ensures refused { IfErr result (RefusesBegin (label_of start.db (label_for start.label self.old.next) (txns_in self.old))) }
        ensures err { OnErr result (self.new ≡ self.old) }
    {
        let id = self.next;
        let next = match id.checked_add(1) {
            None => return Err(TxnError::NoMemory),
            Some(next) => next,
        };
        let TxnStart {
            db,
            table,
            label,
            two_phase,
            schema,
            at,
        } = start;
        let label = match label_or_auto(self.alloc, label, id) {
            Err(NoMemory) => return Err(TxnError::NoMemory),
            Ok(label) => label,
        };
        let info = TxnInfo {
            id,
            db,
            table,
            label,
            state: TxnState::Prepare,
            since: at,
            two_phase,
            schema,
            place: None,
            told: false,
            held: None,
        };
        self.add(info, next)?;
        Ok(id)
    }

    // Takes the rows of a load that is kept and open, with its place. Takes no memory.
    fn take(&mut self, id: u64, place: Option<u64>, held: Option<Held>, at: u64)
        requires open { option_map (λ t. is_committed t.state) (txn_at id (txns_in self.old)) ≡ Some false }
        requires place { IfSome place (λ p. p ≡ self.old.places + 1) }
        ensures { self.new ≡ submitted id place held at self.old }
    {
        put_last(&mut self.queue, place, id);
        changes::submit(&mut self.kept, id, place, held, at);
        self.labels.finish(id, changes::state_by(place));
        self.places = last_place(place, self.places);
    }

    /// Takes the rows of a begun load that has not expired. A one-phase load gets the next place, which is answered; a
    /// two-phase load waits for its commit. Condition: there is a next place.
    pub fn submit(&mut self, txn: u64, held: Option<Held>, at: u64) -> Result<Option<u64>, TxnError>
        requires { self.old.places + 1 < 2 ^ 64 }
        ensures fits { OnOk result (submit_fault at (txn_at txn (txns_in self.old)) ≡ None) }
        ensures place { IfOk result (λ p. Some p ≡ option_map (λ t. place_for t.two_phase self.old.places) (txn_at txn (txns_in self.old))) }
        ensures ok { IfOk result (λ p. self.new ≡ submitted txn p held at self.old) }
        ensures refused { IfErr result (λ e. submit_fault at (txn_at txn (txns_in self.old)) ≡ Some e) }
        ensures err { OnErr result (self.new ≡ self.old) }
    {
        let two_phase = match finds::kept_at(&self.kept, txn) {
            None => return Err(TxnError::NoSuchTxn),
            Some(load) => match load.submit_refusal(at) {
                Some(refusal) => return Err(refusal),
                None => load.two_phase,
            },
        };
        let place = place_of(two_phase, self.places);
        self.take(txn, place, held, at);
        Ok(place)
    }

    // Gives the next place to a load that is kept and open. Takes no memory.
    fn give_place(&mut self, id: u64, place: u64, at: u64)
        requires open { option_map (λ t. is_committed t.state) (txn_at id (txns_in self.old)) ≡ Some false }
        requires place { place ≡ self.old.places + 1 }
        ensures { self.new ≡ committed id at self.old }
    {
        put_last(&mut self.queue, Some(place), id);
        changes::commit(&mut self.kept, id, place, at);
        self.labels.finish(id, TxnState::Committed);
        self.places = place;
    }

    /// Commits a submitted two-phase load that has not expired, and answers its place. Condition: there is a next place.
    pub fn commit(&mut self, txn: u64, at: u64) -> Result<u64, TxnError>
        requires { self.old.places + 1 < 2 ^ 64 }
        ensures fits { OnOk result (commit_fault at (txn_at txn (txns_in self.old)) ≡ None) }
        ensures place { IfOk result (λ p. p ≡ self.old.places + 1) }
        ensures ok { OnOk result (self.new ≡ committed txn at self.old) }
        ensures refused { IfErr result (λ e. commit_fault at (txn_at txn (txns_in self.old)) ≡ Some e) }
        ensures err { OnErr result (self.new ≡ self.old) }
    {
        match finds::kept_at(&self.kept, txn) {
            None => return Err(TxnError::NoSuchTxn),
            Some(load) => match load.commit_refusal(at) {
                Some(refusal) => return Err(refusal),
                None => {}
            },
        }
        let place = self.places + 1;
        self.give_place(txn, place, at);
        Ok(place)
    }

    // Ends a load that is kept and open.
    fn end(&mut self, id: u64, at: u64)
        requires { option_map (λ t. is_committed t.state) (txn_at id (txns_in self.old)) ≡ Some false }
        ensures { self.new ≡ ended id states.Aborted at self.old }
    {
        changes::end(&mut self.kept, id, TxnState::Aborted, at);
        self.labels.finish(id, TxnState::Aborted);
    }

    /// Aborts a transaction that is not committed. It keeps no rows, and its label is free.
    pub fn abort(&mut self, txn: u64, at: u64) -> Result<(), TxnError>
        ensures fits { OnOk result (abort_fault (txn_at txn (txns_in self.old)) ≡ None) }
        ensures ok { OnOk result (self.new ≡ ended txn states.Aborted at self.old) }
        ensures refused { IfErr result (λ e. abort_fault (txn_at txn (txns_in self.old)) ≡ Some e) }
        ensures err { OnErr result (self.new ≡ self.old) }
    {
        match finds::kept_at(&self.kept, txn) {
            None => return Err(TxnError::NoSuchTxn),
            Some(load) => match load.abort_refusal() {
                Some(refusal) => return Err(refusal),
                None => {}
            },
        }
        self.end(txn, at);
        Ok(())
    }

    /// Makes the committed load of the lowest place visible, and answers its number. It keeps no rows.
    pub fn publish(&mut self, at: u64) -> Result<u64, TxnError>
        ensures number { IfOk result (λ id. option_map (λ t. t.id) (due (txns_in self.old)) ≡ Some id) }
        ensures ok { OnOk result (self.new ≡ published at self.old) }
        ensures refused { IfErr result (λ e. e ≡ error.NothingToPublish) }
        ensures none { OnErr result (due (txns_in self.old) ≡ None) }
        ensures err { OnErr result (self.new ≡ self.old) }
    {
        match self.queue.pop_front() {
            None => Err(TxnError::NothingToPublish),
            Some(waiter) => {
                changes::end(&mut self.kept, waiter.txn, TxnState::Visible, at);
                self.labels.finish(waiter.txn, TxnState::Visible);
                Ok(waiter.txn)
            }
        }
    }
}
