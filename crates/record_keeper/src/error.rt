// Why a keeper did not do what it was asked.
use thiserror::Error;

/// Why a keeper refused.
#[derive(Clone, Copy, Debug, PartialEq, Eq, Error)]
pub enum KeeperError {
    /// The keeper failed, and its count of faults rose. What was to be kept may have been kept.
    #[error("the keeper failed")]
    Failed,
    /// There is not enough memory. Nothing has changed.
    #[error("there is not enough memory")]
    NoMemory,
}
