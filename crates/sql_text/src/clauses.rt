// Reading the clauses of ALTER TABLE.
ghost use Rattle.std.specs.Prelude.{◌≡◌, Ok};
ghost use Rattle.sql_grammar.specs.Reading.{Gives};
ghost use Rattle.sql_text.specs.ReadAlter.{is_key_at, altered_at, maybe_place_at, added_column_at, dropped_column_at, modified_column_at, order_columns_at, other_clause_at, clause_at};

use crate::clause::{AlteredColumn, Clause, ColumnPlace};
use crate::names::{column_type, comment, default, maybe_agg, names, nullable};
use sql_grammar::{Piece, Stop, after_word, name, word};
use sql_tokens::Token;
use std::alloc::Global;

#[tactic(auto, unfolding(crate::specs::ReadAlter::is_key_at))]
fn is_key(tokens: &[Token]) -> (bool, &[Token])
    ensures { is_key_at tokens.now ≡ Ok (result.0, result.1.now) }
{
    match after_word(tokens, b"KEY") {
        Some(rest) => (true, rest),
        None => (false, tokens),
    }
}

#[tactic(auto, unfolding(crate::specs::ReadAlter::altered_at))]
fn altered(alloc: Global, tokens: &[Token]) -> Result<(AlteredColumn, &[Token]), Stop>
    ensures { Gives (λ x. (x.0, x.1.now)) result (altered_at tokens.now) }
{
    let (name, rest) = name(alloc, tokens)?;
    let (kind, rest) = column_type(rest)?;
    let (key, rest) = is_key(rest);
    let (agg, rest) = maybe_agg(rest);
    let (nullable, rest) = nullable(rest)?;
    let (default, rest) = default(alloc, rest)?;
    let rest = comment(rest)?;
    let column = AlteredColumn {
        name,
        kind,
        key,
        agg,
        nullable,
        default,
    };
    Ok((column, rest))
}

#[tactic(auto, unfolding(crate::specs::ReadAlter::maybe_place_at, crate::specs::ReadAlter::place_at))]
fn maybe_place(alloc: Global, tokens: &[Token]) -> Result<(Option<ColumnPlace>, &[Token]), Stop>
    ensures { Gives (λ x. (x.0, x.1.now)) result (maybe_place_at tokens.now) }
{
    if let Some(rest) = after_word(tokens, b"FIRST") {
        return Ok((Some(ColumnPlace::First), rest));
    }
    if let Some(rest) = after_word(tokens, b"AFTER") {
        let (name, rest) = name(alloc, rest)?;
        return Ok((Some(ColumnPlace::After(name)), rest));
    }
    Ok((None, tokens))
}

/// What stands behind the ADD of a column.
#[tactic(auto, unfolding(crate::specs::ReadAlter::added_column_at))]
pub fn added_column(alloc: Global, tokens: &[Token]) -> Result<(Clause, &[Token]), Stop>
    ensures { Gives (λ x. (x.0, x.1.now)) result (added_column_at tokens.now) }
{
    let rest = word(tokens, b"COLUMN")?;
    let (column, rest) = altered(alloc, rest)?;
    let (place, rest) = maybe_place(alloc, rest)?;
    Ok((Clause::Add(column, place), rest))
}

#[tactic(auto, unfolding(crate::specs::ReadAlter::dropped_column_at))]
fn dropped_column(alloc: Global, tokens: &[Token]) -> Result<(Clause, &[Token]), Stop>
    ensures { Gives (λ x. (x.0, x.1.now)) result (dropped_column_at tokens.now) }
{
    let rest = word(tokens, b"COLUMN")?;
    let (name, rest) = name(alloc, rest)?;
    Ok((Clause::Drop(name), rest))
}

#[tactic(auto, unfolding(crate::specs::ReadAlter::modified_column_at))]
fn modified_column(alloc: Global, tokens: &[Token]) -> Result<(Clause, &[Token]), Stop>
    ensures { Gives (λ x. (x.0, x.1.now)) result (modified_column_at tokens.now) }
{
    let rest = word(tokens, b"COLUMN")?;
    let (column, rest) = altered(alloc, rest)?;
    Ok((Clause::Modify(column), rest))
}

#[tactic(auto, unfolding(crate::specs::ReadAlter::order_columns_at))]
fn order_columns(alloc: Global, tokens: &[Token]) -> Result<(Clause, &[Token]), Stop>
    ensures { Gives (λ x. (x.0, x.1.now)) result (order_columns_at tokens.now) }
{
    let rest = word(tokens, b"ORDER")?;
    let rest = word(rest, b"BY")?;
    let (names, rest) = names(alloc, rest)?;
    Ok((Clause::Order(names), rest))
}

/// A clause that is no ADD.
#[tactic(auto, unfolding(crate::specs::ReadAlter::other_clause_at, crate::specs::ReadAlter::drop_column_at, crate::specs::ReadAlter::modify_column_at))]
pub fn other_clause(alloc: Global, tokens: &[Token]) -> Result<(Clause, &[Token]), Stop>
    ensures { Gives (λ x. (x.0, x.1.now)) result (other_clause_at tokens.now) }
{
    if let Some(rest) = after_word(tokens, b"DROP") {
        return dropped_column(alloc, rest);
    }
    if let Some(rest) = after_word(tokens, b"MODIFY") {
        return modified_column(alloc, rest);
    }
    order_columns(alloc, tokens)
}

#[tactic(auto, unfolding(crate::specs::ReadAlter::clause_at))]
fn clause(alloc: Global, tokens: &[Token]) -> Result<(Clause, &[Token]), Stop>
    ensures { Gives (λ x. (x.0, x.1.now)) result (clause_at tokens.now) }
{
    if let Some(rest) = after_word(tokens, b"ADD") {
        return added_column(alloc, rest);
    }
    other_clause(alloc, tokens)
}

impl Piece for Clause {
    ghost use Rattle.sql_text.specs.ReadAlter.{clause_at};

    ghost reader = { clause_at };

    #[tactic(auto, using(crate::proofs::AlterReads::clause_leaves_less))]
    fn read(alloc: Global, tokens: &[Token]) -> Result<(Clause, &[Token]), Stop> {
        clause(alloc, tokens)
    }
}
