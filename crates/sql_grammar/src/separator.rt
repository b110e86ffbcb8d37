// What stands between the pieces of a list.
ghost use Rattle.std.specs.Prelude.{◌≡◌, ◌<◌, true, false, length, Ok, MatchOption};
ghost use Rattle.sql_grammar.specs.Reading.{heads, one, mark_of, separator_at};

use crate::one_token::{after_sign, after_word};
use sql_tokens::{Sign, Token};

/// A separator of lists.
#[derive(Clone, Copy, Debug, PartialEq, Eq)]
pub enum Separator {
    /// `,`
    Comma,
    And,
}

/// What stands behind the separator, where it comes next.
pub fn after_separator(tokens: &[Token], separator: Separator) -> Option<&[Token]>
    ensures { MatchOption result (heads (one (mark_of separator)) tokens.now ≡ false) (λ rest. (heads (one (mark_of separator)) tokens.now ≡ true) × (separator_at separator tokens.now ≡ Ok (tt, rest.now)) × (length rest.now < length tokens.now)) }
{
    match separator {
        Separator::Comma => after_sign(tokens, Sign::Comma),
        Separator::And => after_word(tokens, b"AND"),
    }
}
