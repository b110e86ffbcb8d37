// Why reading stops.
ghost use Rattle.std.specs.Prelude.{◌≡◌};
ghost use Rattle.journal_records.specs.declared.stop.Stop.TheVariants.{Memory};

use dl_values::NoMemory;
use std::alloc::{AllocError, AllocFailed};

/// Why nothing was read.
#[derive(Clone, Copy, Debug, PartialEq, Eq)]
pub enum Stop {
    Memory,
    /// So many bytes are left from the faulty field on.
    Left(usize),
}

impl From<NoMemory> for Stop {
    ghost from_gives = { λ _ e. e ≡ Memory };

    fn from(_: NoMemory) -> Stop {
        Stop::Memory
    }
}

impl From<AllocError> for Stop {
    ghost from_gives = { λ _ e. e ≡ Memory };

    fn from(_: AllocError) -> Stop {
        Stop::Memory
    }
}

impl<T: Drop> From<AllocFailed<T>> for Stop {
    ghost from_gives = { λ _ e. e ≡ Memory };

    fn from(_: AllocFailed<T>) -> Stop {
        Stop::Memory
    }
}
