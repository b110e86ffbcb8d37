// Any engine that may cross threads: its desk may be shared between them, and its seats may cross.
use desk::{Desk, Engine, Seat};

fn is_shared<T: Sync>(_value: &T) {}

fn crosses<T: Send + Drop>(_value: T) {}

/// Proved once for every engine: that the bounds hold is what this function owes at its calls.
pub fn may_be_shared<E: Engine + Send>(desk: &Desk<E>, seat: Seat<E>) {
    is_shared(desk);
    crosses(seat);
}
