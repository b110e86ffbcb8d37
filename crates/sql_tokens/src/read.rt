// Reading the tokens of a text.
ghost use Rattle.std.specs.Prelude.{◌≡◌, [], ◌∷◌, ◌<◌, ◌≤◌, ◌-◌, length, IfOk, MatchOption};
ghost use Rattle.sql_tokens.specs.Tokens.{tokens_behind, tokens_of};

use crate::bytes::{Class, run_length};
use crate::lexeme::front;
use crate::{Token, Tokens};
use dl_values::NoMemory;
use std::alloc::Global;

// The offset at which what is left of a text of so many bytes begins.
fn place(all: usize, left: &[u8]) -> u64
    requires { length left.now ≤ all }
    ensures { result ≡ all - length left.now }
{
    (all - left.len()) as u64
}

// The first token of what is left of a text of so many bytes, and what stands behind it.
fn first_token(alloc: Global, all: usize, left: &[u8]) -> Result<Option<(Token, &[u8])>, NoMemory>
    requires { length left.now ≤ all }
    ensures token { IfOk result (λ found. MatchOption found (tokens_behind all 0 left.now ≡ []) (λ x. tokens_behind all 0 left.now ≡ x.0 ∷ tokens_behind all 0 x.1.now)) }
    ensures shorter { IfOk result (λ found. MatchOption found (Unit {0}) (λ x. length x.1.now < length left.now)) }
{
    let (_, text) = left.split_at(run_length(Class::Blank, left));
    match front(alloc, text)? {
        None => Ok(None),
        Some((kind, behind)) => {
            let at = place(all, text);
            Ok(Some((Token { at, kind }, behind)))
        }
    }
}

/// The tokens of a text. Where none begins, a `Stray` stands last.
pub fn tokens(alloc: Global, text: &str) -> Result<Tokens, NoMemory>
    ensures { IfOk result (λ found. found ≡ tokens_of text.now) }
{
    let all = text.len();
    let mut tokens = Vec::new(alloc);
    let mut left = text.as_bytes();
    'more: loop {
        match first_token(alloc, all, left)? {
            None => return Ok(Tokens::from_vec(tokens)),
            Some((token, behind)) => {
                tokens.push(token)?;
                left = behind;
            }
        }
    }
}
