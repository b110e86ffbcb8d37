// A committed load that waits for its publish.

// The place of a committed load, and its number.
#[derive(Clone, Copy, Drop)]
pub struct Waiter {
    pub place: u64,
    pub txn: u64,
}
