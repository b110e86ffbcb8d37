// Lists with separators.
ghost use Rattle.sql_grammar.specs.Reading.{Gives, list_from, list_of, mark_of, separator_at};

use crate::piece::Piece;
use crate::separator::{Separator, after_separator};
use crate::stop::Stop;
use sql_tokens::Token;
use sqlite_items::Items;
use std::alloc::Global;

/// The list whose first piece was read, and the tokens behind it.
pub fn list_from<T: Piece>(
    alloc: Global,
    first: T,
    tokens: &[Token],
    separator: Separator,
) -> Result<(Items<T>, &[Token]), Stop>
    ensures { Gives (λ x. (x.0, x.1.now)) result (list_from (mark_of separator) (separator_at separator) T.reader first tokens.now) }
{
    let mut found = Vec::new(alloc);
    found.push(first)?;
    let mut rest = tokens;
    'more: while let Some(behind) = after_separator(rest, separator) {
        let (piece, after) = T::read(alloc, behind)?;
        found.push(piece)?;
        rest = after;
    }
    Ok((Items::from_vec(found), rest))
}

/// A piece, and more of them after separators.
pub fn list<T: Piece>(
    alloc: Global,
    tokens: &[Token],
    separator: Separator,
) -> Result<(Items<T>, &[Token]), Stop>
    ensures { Gives (λ x. (x.0, x.1.now)) result (list_of (mark_of separator) (separator_at separator) T.reader tokens.now) }
{
    let (first, rest) = T::read(alloc, tokens)?;
    list_from(alloc, first, rest, separator)
}
