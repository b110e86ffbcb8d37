// Reading one token.
ghost use Rattle.std.specs.Prelude.{◌≡◌, ◌<◌, true, false, length, Ok, MatchOption};
ghost use Rattle.sql_grammar.specs.Marks.{marked_word, marked_sign, marked_name, mark_is, sign_code};
ghost use Rattle.sql_grammar.specs.Reading.{Gives, heads, one, word_at, sign_at, name_at, integer_at, count_at, text_at};

use crate::stop::Stop;
use crate::words::{is_reserved, same_word};
use dl_values::{Name, Text};
use sql_tokens::{Sign, Token, TokenKind};
use std::alloc::Global;

fn code(sign: Sign) -> u8
    ensures { result ≡ sign_code sign }
{
    match sign {
        Sign::Open => 0,
        Sign::Close => 1,
        Sign::OpenRange => 2,
        Sign::Comma => 3,
        Sign::End => 4,
        Sign::Equal => 5,
        Sign::Less => 6,
        Sign::Greater => 7,
        Sign::AtMost => 8,
        Sign::AtLeast => 9,
        Sign::Unequal => 10,
        Sign::Star => 11,
    }
}

fn is_word(token: &Token, word: &[u8]) -> bool
    ensures { result ≡ mark_is (marked_word word.now) token.now }
{
    match &token.kind {
        TokenKind::Word(found) => same_word(found.bytes(), word),
        _ => false,
    }
}

fn is_sign(token: &Token, sign: Sign) -> bool
    ensures { result ≡ mark_is (marked_sign sign) token.now }
{
    match &token.kind {
        TokenKind::Sign(found) => code(*found) == code(sign),
        _ => false,
    }
}

fn is_name(token: &Token) -> bool
    ensures { result ≡ mark_is marked_name token.now }
{
    match &token.kind {
        TokenKind::Word(found) => !is_reserved(found.bytes()),
        TokenKind::Quoted(_) => true,
        _ => false,
    }
}

/// Whether a name comes next.
pub fn heads_name(tokens: &[Token]) -> bool
    ensures { result ≡ heads (one marked_name) tokens.now }
{
    match tokens {
        [token, ..] => is_name(token),
        [] => false,
    }
}

/// What stands behind the word, where it comes next.
#[tactic(auto, unfolding(crate::specs::Reading::word_at))]
pub fn after_word<'a>(tokens: &'a [Token], word: &[u8]) -> Option<&'a [Token]>
    ensures { MatchOption result (heads (one (marked_word word.now)) tokens.now ≡ false) (λ rest. (heads (one (marked_word word.now)) tokens.now ≡ true) × (word_at word.now tokens.now ≡ Ok (tt, rest.now)) × (length rest.now < length tokens.now)) }
{
    match tokens {
        [token, rest @ ..] if is_word(token, word) => Some(rest),
        _ => None,
    }
}

/// What stands behind the sign, where it comes next.
#[tactic(auto, unfolding(crate::specs::Reading::sign_at))]
pub fn after_sign(tokens: &[Token], sign: Sign) -> Option<&[Token]>
    ensures { MatchOption result (heads (one (marked_sign sign)) tokens.now ≡ false) (λ rest. (heads (one (marked_sign sign)) tokens.now ≡ true) × (sign_at sign tokens.now ≡ Ok (tt, rest.now)) × (length rest.now < length tokens.now)) }
{
    match tokens {
        [token, rest @ ..] if is_sign(token, sign) => Some(rest),
        _ => None,
    }
}

/// What stands behind the word.
#[tactic(auto, unfolding(crate::specs::Reading::word_at))]
pub fn word<'a>(tokens: &'a [Token], word: &[u8]) -> Result<&'a [Token], Stop>
    ensures { Gives (λ rest. (tt, rest.now)) result (word_at word.now tokens.now) }
{
    match tokens {
        [token, rest @ ..] if is_word(token, word) => Ok(rest),
        _ => Err(Stop::Left(tokens.len())),
    }
}

/// What stands behind the sign.
#[tactic(auto, unfolding(crate::specs::Reading::sign_at))]
pub fn sign(tokens: &[Token], sign: Sign) -> Result<&[Token], Stop>
    ensures { Gives (λ rest. (tt, rest.now)) result (sign_at sign tokens.now) }
{
    match tokens {
        [token, rest @ ..] if is_sign(token, sign) => Ok(rest),
        _ => Err(Stop::Left(tokens.len())),
    }
}

/// A name of its own: a word that is not reserved, or any name in backquotes.
#[tactic(auto, unfolding(crate::specs::Reading::name_at))]
pub fn name(alloc: Global, tokens: &[Token]) -> Result<(Name, &[Token]), Stop>
    ensures { Gives (λ x. (x.0, x.1.now)) result (name_at tokens.now) }
{
    match tokens {
        [token, rest @ ..] => match &token.kind {
            TokenKind::Word(found) => {
                if is_reserved(found.bytes()) {
                    Err(Stop::Left(tokens.len()))
                } else {
                    Ok((found.copy(alloc)?, rest))
                }
            }
            TokenKind::Quoted(found) => Ok((found.copy(alloc)?, rest)),
            _ => Err(Stop::Left(tokens.len())),
        },
        [] => Err(Stop::Left(0)),
    }
}

/// An integer.
#[tactic(auto, unfolding(crate::specs::Reading::integer_at))]
pub fn integer(tokens: &[Token]) -> Result<(i64, &[Token]), Stop>
    ensures { Gives (λ x. (x.0, x.1.now)) result (integer_at tokens.now) }
{
    match tokens {
        [token, rest @ ..] => match &token.kind {
            TokenKind::Int(value) => Ok((*value, rest)),
            _ => Err(Stop::Left(tokens.len())),
        },
        [] => Err(Stop::Left(0)),
    }
}

/// An integer from 0 on.
#[tactic(auto, unfolding(crate::specs::Reading::count_at))]
pub fn count(tokens: &[Token]) -> Result<(u64, &[Token]), Stop>
    ensures { Gives (λ x. (x.0, x.1.now)) result (count_at tokens.now) }
{
    match tokens {
        [token, rest @ ..] => match &token.kind {
            TokenKind::Int(value) if 0 <= *value => Ok((*value as u64, rest)),
            _ => Err(Stop::Left(tokens.len())),
        },
        [] => Err(Stop::Left(0)),
    }
}

/// A string, as a text of its own.
#[tactic(auto, unfolding(crate::specs::Reading::text_at))]
pub fn text(alloc: Global, tokens: &[Token]) -> Result<(Text, &[Token]), Stop>
    ensures { Gives (λ x. (x.0, x.1.now)) result (text_at tokens.now) }
{
    match tokens {
        [token, rest @ ..] => match &token.kind {
            TokenKind::Text(found) => Ok((found.copy(alloc)?, rest)),
            _ => Err(Stop::Left(tokens.len())),
        },
        [] => Err(Stop::Left(0)),
    }
}
