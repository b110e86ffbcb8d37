// Why a journal is not written or read.
ghost use Rattle.std.specs.Prelude.{◌≡◌};
ghost use Rattle.journal_core.specs.Causes.{of_encode, of_keeper};
ghost use Rattle.journal_core.specs.declared.error.JournalError.TheVariants.{NoMemory as WantsMemory};

use journal_records::EncodeError;
use record_keeper::KeeperError;
use std::alloc::AllocError;
use thiserror::Error;

/// Why a record was not kept, or the records were not read.
#[derive(Clone, Copy, Debug, PartialEq, Eq, Error)]
pub enum JournalError {
    /// The keeper failed, and its count of faults rose. What was to be kept may have been kept.
    #[error("the keeper failed")]
    KeeperFault,
    /// What stands at this place, counted from 1, is no record, or one too many.
    #[error("record {seq} of the journal is bad")]
    BadJournal { seq: u64 },
    /// A text or a list has 2^32 members or more. Nothing was kept.
    #[error("a text or a list is too long for a record")]
    TooLong,
    /// There is not enough memory. Nothing was kept.
    #[error("there is not enough memory")]
    NoMemory,
}

impl From<EncodeError> for JournalError {
    ghost from_gives = { λ from to. to ≡ of_encode from };

    fn from(error: EncodeError) -> JournalError {
        match error {
            EncodeError::NoMemory => JournalError::NoMemory,
            EncodeError::TooLong => JournalError::TooLong,
        }
    }
}

impl From<KeeperError> for JournalError {
    ghost from_gives = { λ from to. to ≡ of_keeper from };

    fn from(error: KeeperError) -> JournalError {
        match error {
            KeeperError::Failed => JournalError::KeeperFault,
            KeeperError::NoMemory => JournalError::NoMemory,
        }
    }
}

impl From<AllocError> for JournalError {
    ghost from_gives = { λ _ to. to ≡ WantsMemory };

    fn from(_: AllocError) -> JournalError {
        JournalError::NoMemory
    }
}
