// Why a request could not be read.
use thiserror::Error;

/// Why a request could not be read. `at` is the offset of the request's first byte in the input.
///
/// The reader is not used again afterwards.
#[derive(Clone, Copy, Debug, PartialEq, Eq, Error)]
pub enum WireError {
    /// No request head stands there.
    #[error("no request head stands at byte {at}")]
    BadHead { at: u64 },
    /// The fields of the head give the body no length (RFC 9112, section 6.3).
    #[error("the head at byte {at} gives its body no length")]
    BadLength { at: u64 },
    /// The body is longer than [`MAX_BODY`](crate::MAX_BODY).
    #[error("the body of the request at byte {at} is too long")]
    BodyTooLong { at: u64 },
    /// The input ended after `got` of the body's `wanted` bytes.
    #[error("the request at byte {at} ends after {got} of {wanted} bytes of its body")]
    CutBody { at: u64, got: u64, wanted: u64 },
    /// The body is no chunked body.
    #[error("the body of the request at byte {at} is no chunked body")]
    BadChunk { at: u64 },
    /// A read of the source failed.
    #[error("a read of the source failed")]
    ReadFault,
    /// There is no memory for the head or the body.
    #[error("there is not enough memory")]
    NoMemory,
}
