// Why reading stopped.
ghost use Rattle.std.specs.Prelude.{◌≡◌};
ghost use Rattle.load_requests.specs.declared.stop.Stop.TheVariants.{Memory};

use dl_values::NoMemory;
use std::alloc::{AllocError, AllocFailed};

/// Why reading stopped.
#[derive(Clone, Copy, Debug, PartialEq, Eq)]
pub enum Stop {
    /// There was not enough memory.
    Memory,
    /// What was looked for does not stand there.
    Absent,
}

impl From<NoMemory> for Stop {
    ghost from_gives = { λ _ stop. stop ≡ Memory };

    fn from(_: NoMemory) -> Stop {
        Stop::Memory
    }
}

impl From<AllocError> for Stop {
    ghost from_gives = { λ _ stop. stop ≡ Memory };

    fn from(_: AllocError) -> Stop {
        Stop::Memory
    }
}

impl<T: Drop> From<AllocFailed<T>> for Stop {
    ghost from_gives = { λ _ stop. stop ≡ Memory };

    fn from(_: AllocFailed<T>) -> Stop {
        Stop::Memory
    }
}
