// What seats know.
use std::collections::LinkedList;

/// What is known of a seat that was joined into another: its name, how many seats were split off from it, what it had
/// seen and its own entries.
pub struct Known<N> {
    pub name: LinkedList<u64>,
    pub splits: u64,
    pub seen: LinkedList<N>,
    pub own: LinkedList<N>,
}

/// What a seat knows. `start` is the engine as the desk was opened, and none in the view that a join leaves behind;
/// `seen` are the entries since then that the seat has seen, `own` those that are its own, and `held` all entries since
/// then, while it holds the engine. Lists have the newest entry first.
pub struct View<E, N> {
    pub start: Option<E>,
    pub name: LinkedList<u64>,
    pub splits: u64,
    pub joined: LinkedList<Known<N>>,
    pub seen: LinkedList<N>,
    pub own: LinkedList<N>,
    pub held: Option<LinkedList<N>>,
}
