// Why a body gives no statement.
use thiserror::Error;

/// Why a body gives no statement.
#[derive(Clone, Copy, Debug, PartialEq, Eq, Error)]
pub enum BodyError {
    /// It is no JSON object with a string member `stmt`.
    #[error("the body is no JSON object with a string member `stmt`")]
    BadJson,
    #[error("there is not enough memory")]
    NoMemory,
}
