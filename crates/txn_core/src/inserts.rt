// Putting a transaction that is restored where its number and its place put it.
ghost use Rattle.std.specs.Prelude.{◌≡◌, ◌<◌, ◌≤◌, None, drop, filter, find, length, nat_eq, nat_lt, not, take, vec_capacity, vec_len};
ghost use Rattle.std.specs.VecDeque.{deque_capacity};
ghost use Rattle.front_laws.specs.Tidy.{Pairs};
ghost use Rattle.txn_core.specs.Book.{put_info};
ghost use Rattle.txn_core.specs.Queue.{put_slot, slot};
ghost use Rattle.txn_core.specs.Seen.{Ascending};

use crate::info::TxnInfo;
use crate::waiter::Waiter;
use labels::TxnState;
use std::collections::VecDeque;

// How many have a lower number.
fn lower_numbers(kept: &[TxnInfo], id: u64) -> usize
    requires { Ascending kept.now }
    ensures within { result ≤ length kept.now }
    ensures lower { take result kept.now ≡ filter (λ k. nat_lt k.id id) kept.now }
    ensures others { drop result kept.now ≡ filter (λ k. not (nat_lt k.id id)) kept.now }
{
    kept.partition_point(|info| info.id < id)
}

// Puts it between those of lower and those of higher numbers. Condition: there is room.
pub fn put_by_number(kept: &mut Vec<TxnInfo>, told: TxnInfo)
    requires ascends { Ascending kept.old.items }
    requires fresh { find (λ k. nat_eq k.id told.id) kept.old.items ≡ None }
    requires room { vec_len kept.old < vec_capacity kept.old }
    ensures { kept.new.items ≡ put_info told kept.old.items }
{
    let at = lower_numbers(kept, told.id);
    let _put = kept.insert(at, told);
}

// How many have a lower place.
fn lower_places(queue: &VecDeque<Waiter>, place: u64) -> usize
    requires { Pairs (λ v w. v.place < w.place) queue.now.items }
    ensures within { result ≤ length queue.now.items }
    ensures lower { take result queue.now.items ≡ filter (λ w. nat_lt w.place place) queue.now.items }
    ensures others { drop result queue.now.items ≡ filter (λ w. not (nat_lt w.place place)) queue.now.items }
{
    queue.partition_point(|waiter| waiter.place < place)
}

// The place at which it waits.
pub fn slot_of(told: &TxnInfo) -> Option<u64>
    ensures { result ≡ slot told.now }
{
    match told.state {
        TxnState::Committed => Some(told.place.unwrap_or(0)),
        TxnState::Prepare | TxnState::Precommitted | TxnState::Visible | TxnState::Aborted => None,
    }
}

// Puts a load that waits between those of lower and those of higher places. Condition: there is room.
pub fn put_waiter(queue: &mut VecDeque<Waiter>, place: Option<u64>, id: u64)
    requires rises { Pairs (λ v w. v.place < w.place) queue.old.items }
    requires room { length queue.old.items < deque_capacity queue.old }
    ensures items { queue.new.items ≡ put_slot place id queue.old.items }
    ensures capacity { deque_capacity queue.old ≤ deque_capacity queue.new }
{
    match place {
        None => {}
        Some(place) => {
            let at = lower_places(queue, place);
            let _put = queue.insert(at, Waiter { place, txn: id });
        }
    }
}
