// The tokens of a statement.
ghost use Rattle.std.specs.Prelude.{◌≡◌, ◌∷◌, [], ◌<◌, ◌+◌, MatchOption, length, take, drop, option_map};
ghost use Rattle.load_requests.specs.Tokens.{front, tokens_of};

use crate::bytes::{Class, begins_word, is_digit, run_length};

/// What a token is.
#[derive(Clone, Copy, Debug, PartialEq, Eq)]
pub enum Kind {
    /// A word or a sign, or a byte that no statement has.
    Plain,
    /// A name in backquotes.
    Quoted,
    /// Digits.
    Number,
}

// A token of one byte and so many behind it, and what stands behind the token.
fn run(kind: Kind, text: &[u8], more: usize) -> (Kind, &[u8], &[u8])
    requires { more < length text.now }
    ensures kind { result.0 ≡ kind }
    ensures bytes { result.1.now ≡ take (more + 1) text.now }
    ensures rest { result.2.now ≡ drop (more + 1) text.now }
{
    let (bytes, rest) = text.split_at(more + 1);
    (kind, bytes, rest)
}

// The token that a text begins with where its first byte is no blank, and what stands behind it.
#[tactic(auto, unfolding(crate::specs::Tokens::lexeme))]
fn lexeme(text: &[u8]) -> Option<(Kind, &[u8], &[u8])>
    ensures { option_map (λ x. (x.0, x.1.now, x.2.now)) result ≡ front text.now }
{
    let [first, rest @ ..] = text else {
        return None;
    };
    if begins_word(*first) {
        return Some(run(Kind::Plain, text, run_length(Class::Word, rest)));
    }
    if is_digit(*first) {
        return Some(run(Kind::Number, text, run_length(Class::Digit, rest)));
    }
    if *first == b'`' {
        let length = run_length(Class::Quoted, rest);
        if 0 < length && length < rest.len() {
            return Some((Kind::Quoted, &rest[..length], &rest[length + 1..]));
        }
    }
    Some(run(Kind::Plain, text, 0))
}

/// The first token of a text and what stands behind it.
pub fn first_token(text: &[u8]) -> Option<(Kind, &[u8], &[u8])>
    ensures { MatchOption result (tokens_of text.now ≡ []) (λ x. tokens_of text.now ≡ (x.0, x.1.now) ∷ tokens_of x.2.now) }
{
    let (_, rest) = text.split_at(run_length(Class::Blank, text));
    lexeme(rest)
}
