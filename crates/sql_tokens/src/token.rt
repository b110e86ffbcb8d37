// One token of a statement.
use dl_values::{Name, Text};

/// A token, and the offset in bytes at which it begins.
#[derive(Debug, Drop)]
pub struct Token {
    pub at: u64,
    pub kind: TokenKind,
}

/// What a token is.
#[derive(Debug, Drop)]
pub enum TokenKind {
    /// A word, in the case in which it is written.
    Word(Name),
    /// A name in backquotes, without them.
    Quoted(Name),
    /// An integer that 64 signed bits hold.
    Int(i64),
    /// An integer that they do not hold.
    Beyond,
    /// A string, with its doubled quotes and its escapes resolved.
    Text(Text),
    Sign(Sign),
    /// No token begins here. It stands last, and nothing is read behind it.
    Stray,
}

/// The signs of the grammar.
#[derive(Clone, Copy, Debug, PartialEq, Eq)]
pub enum Sign {
    /// `(`
    Open,
    /// `)`
    Close,
    /// `[`
    OpenRange,
    /// `,`
    Comma,
    /// `;`
    End,
    /// `=`
    Equal,
    /// `<`
    Less,
    /// `>`
    Greater,
    /// `<=`
    AtMost,
    /// `>=`
    AtLeast,
    /// `<>` or `!=`
    Unequal,
    /// `*`
    Star,
}
