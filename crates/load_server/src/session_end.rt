// How a session ends.

/// How a session ends.
#[derive(Clone, Copy, Debug, PartialEq, Eq)]
pub enum SessionEnd {
    /// The input ended, or a request closed the connection.
    Done,
    /// A read of the source failed.
    ReadFault,
    /// A write to the sink failed.
    WriteFault,
    /// The request whose first byte has this offset cannot be read. Its response 400 was written.
    Refused { at: u64 },
    /// So many requests were answered that the session takes no more.
    Enough,
    /// There was no memory for a head or a body.
    NoMemory,
}
