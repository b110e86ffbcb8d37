// Why a body has no rows.
use dl_values::NoMemory;
use thiserror::Error;

/// Why a body was not read.
#[derive(Clone, Copy, Debug, PartialEq, Eq, Error)]
pub enum BodyFault {
    /// It has more records than this.
    #[error("there are more than {limit} records")]
    TooManyRows { limit: u64 },
    #[error("there is not enough memory")]
    NoMemory,
}

impl From<NoMemory> for BodyFault {
    ghost use Rattle.std.specs.Prelude.{◌≡◌};
    ghost use Rattle.csv_load.specs.declared.fault.BodyFault.TheVariants as fault;

    ghost from_gives = { λ _ e. e ≡ fault.NoMemory };

    fn from(_: NoMemory) -> BodyFault {
        BodyFault::NoMemory
    }
}
