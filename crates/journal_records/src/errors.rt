// Why a record is not written or read.
ghost use Rattle.std.specs.Prelude.{◌≡◌};
ghost use Rattle.journal_records.specs.declared.errors.EncodeError.TheVariants.{NoMemory as WantsMemory};

use dl_values::NoMemory;
use thiserror::Error;

/// Why a record was not written.
#[derive(Clone, Copy, Debug, PartialEq, Eq, Error)]
pub enum EncodeError {
    #[error("there is not enough memory")]
    NoMemory,
    /// A text or a list has 2^32 members or more.
    #[error("a text or a list is too long for a record")]
    TooLong,
}

impl From<NoMemory> for EncodeError {
    ghost from_gives = { λ _ e. e ≡ WantsMemory };

    fn from(_: NoMemory) -> EncodeError {
        EncodeError::NoMemory
    }
}

/// Why bytes were not read.
#[derive(Clone, Copy, Debug, PartialEq, Eq, Error)]
pub enum DecodeError {
    #[error("there is not enough memory")]
    NoMemory,
    /// The bytes are no record. The place is that of the first field that cannot be read whole and in range, or that of
    /// the first byte after the record.
    #[error("the bytes are no record from {at} on")]
    BadRecord { at: usize },
}
