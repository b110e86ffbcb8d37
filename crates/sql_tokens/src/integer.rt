// The integer that digits spell.
ghost use Rattle.std.specs.Prelude.{◌≡◌, IfOk};
ghost use Rattle.sql_tokens.specs.Steps.{integer_of};

use crate::TokenKind;
use dl_values::{Cell, ColType, NoMemory, ReadError};
use std::alloc::Global;

/// The integer of a text, a BIGINT, or else one beyond.
pub fn integer(alloc: Global, text: &[u8]) -> Result<TokenKind, NoMemory>
    ensures { IfOk result (λ kind. kind ≡ integer_of text.now) }
{
    match ColType::BigInt.read(alloc, text) {
        Ok(Cell::Int(value)) => Ok(TokenKind::Int(value)),
        Ok(_) => Ok(TokenKind::Beyond),
        Err(ReadError::Unreadable) => Ok(TokenKind::Beyond),
        Err(ReadError::NoMemory) => Err(NoMemory),
    }
}
