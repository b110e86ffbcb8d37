// Why a text is no statement.
use thiserror::Error;

/// What reading a statement may end with. Its text is the one that a refused statement is answered with.
#[derive(Clone, Copy, Debug, PartialEq, Eq, Error)]
pub enum SqlError {
    /// The first fault of the text. It stands at the offset in bytes of the first token that no statement has after the
    /// tokens before it, or at the length of the text where the tokens run out.
    #[error("SqlFault at={at} kind={kind:?}")]
    SqlFault { at: u64, kind: SqlKind },
    #[error("NoMemory")]
    NoMemory,
}

/// What is wrong with the token at a fault.
#[derive(Clone, Copy, Debug, PartialEq, Eq)]
pub enum SqlKind {
    /// No token begins there.
    Lex,
    /// An integer beyond 64 signed bits, or a negative one where only one from 0 on may stand.
    Range,
    /// Any other, and the end of the tokens.
    Syntax,
}
