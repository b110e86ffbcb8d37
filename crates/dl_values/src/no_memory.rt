// Want of memory, the one error that any call which allocates may answer.
use std::alloc::{AllocError, AllocFailed};
use thiserror::Error;

/// There was not enough memory. What the call was given stands as before, where its entry says no other.
#[derive(Clone, Copy, Debug, PartialEq, Eq, Error)]
#[error("there is not enough memory")]
pub struct NoMemory;

impl From<AllocError> for NoMemory {
    ghost use Rattle.std.specs.Prelude.{◌≡◌};

    ghost from_gives = { λ _ _. Unit {0} };

    fn from(_: AllocError) -> NoMemory {
        NoMemory
    }
}

impl<T: Drop> From<AllocFailed<T>> for NoMemory {
    ghost from_gives = { λ _ _. Unit {0} };

    fn from(_: AllocFailed<T>) -> NoMemory {
        NoMemory
    }
}
