// The longest token at the beginning of a text.
ghost use Rattle.std.specs.Prelude.{◌≡◌, ◌<◌, ◌+◌, ◌∷◌, IfOk, length, take, drop, option_map};
ghost use Rattle.std.specs.List.{prefix_len};
ghost use Rattle.sql_tokens.specs.Bytes.{in_quotes};
ghost use Rattle.sql_tokens.specs.Steps.{integer_of};
ghost use Rattle.sql_tokens.specs.Tokens.{front, quoted};
ghost use Rattle.sql_tokens.specs.declared.token.TokenKind.TheVariants as kind;

use crate::TokenKind;
use crate::bytes::{Class, begins_word, is_digit, run_length};
use crate::integer::integer;
use crate::signs::sign;
use crate::strings::string;
use dl_values::{Name, NoMemory};
use std::alloc::Global;

// A word of one byte and so many more, and what stands behind it.
fn word(alloc: Global, text: &[u8], more: usize) -> Result<(TokenKind, &[u8]), NoMemory>
    requires { more < length text.now }
    ensures token { IfOk result (λ x. x.0 ≡ kind.Word (take (more + 1) text.now)) }
    ensures rest { IfOk result (λ x. x.1.now ≡ drop (more + 1) text.now) }
{
    let (bytes, rest) = text.split_at(more + 1);
    Ok((TokenKind::Word(Name::new(alloc, bytes)?), rest))
}

// A number of one byte and so many more, and what stands behind it.
fn number(alloc: Global, text: &[u8], more: usize) -> Result<(TokenKind, &[u8]), NoMemory>
    requires { more < length text.now }
    ensures token { IfOk result (λ x. x.0 ≡ integer_of (take (more + 1) text.now)) }
    ensures rest { IfOk result (λ x. x.1.now ≡ drop (more + 1) text.now) }
{
    let (bytes, rest) = text.split_at(more + 1);
    Ok((integer(alloc, bytes)?, rest))
}

// The name behind a backquote, and what stands behind the one that closes it.
fn quoted(alloc: Global, text: &[u8]) -> Result<(TokenKind, &[u8]), NoMemory>
    ensures { IfOk result (λ x. (x.0, x.1.now) ≡ quoted (prefix_len in_quotes text.now) text.now) }
{
    let length = run_length(Class::Quoted, text);
    if 0 < length && length < text.len() {
        return Ok((
            TokenKind::Quoted(Name::new(alloc, &text[..length])?),
            &text[length + 1..],
        ));
    }
    Ok((TokenKind::Stray, &[]))
}

/// The longest token that a text begins with where its first byte is no blank, and what stands behind it.
#[tactic(auto, unfolding(crate::specs::Tokens::lexeme))]
pub fn front(alloc: Global, text: &[u8]) -> Result<Option<(TokenKind, &[u8])>, NoMemory>
    ensures { IfOk result (λ found. option_map (λ x. (x.0, x.1.now)) found ≡ front text.now) }
{
    let [first, rest @ ..] = text else {
        return Ok(None);
    };
    if begins_word(*first) {
        return Ok(Some(word(alloc, text, run_length(Class::Word, rest))?));
    }
    if is_digit(*first) {
        return Ok(Some(number(alloc, text, run_length(Class::Digit, rest))?));
    }
    if *first == b'-' {
        let length = run_length(Class::Digit, rest);
        if length == 0 {
            return Ok(Some((TokenKind::Stray, &[])));
        }
        return Ok(Some(number(alloc, text, length)?));
    }
    if *first == b'`' {
        return Ok(Some(quoted(alloc, rest)?));
    }
    if *first == b'\'' || *first == b'"' {
        return match string(alloc, *first, rest)? {
            Some((text, behind)) => Ok(Some((TokenKind::Text(text), behind))),
            None => Ok(Some((TokenKind::Stray, &[]))),
        };
    }
    match sign(*first, rest) {
        Some((sign, behind)) => Ok(Some((TokenKind::Sign(sign), behind))),
        None => Ok(Some((TokenKind::Stray, &[]))),
    }
}
