// Reading ALTER TABLE.
ghost use Rattle.sql_grammar.specs.Reading.{Gives};
ghost use Rattle.sql_text.specs.ReadAlter.{clauses_from_at, added_rollup_at, add_part_at, add_column_at, addition_at, alteration_at, alter_table_at, kind_at, cancelled_at};

use crate::clause::Clause;
use crate::clauses::{added_column, other_clause};
use crate::names::names;
use crate::parts::part;
use crate::stmt::{AlterKind, Stmt};
use dl_values::Name;
use sql_grammar::{Separator, Stop, after_word, list_from, name, word};
use sql_tokens::Token;
use std::alloc::Global;

#[tactic(auto, unfolding(crate::specs::ReadAlter::clauses_from_at))]
fn clauses_from(
    alloc: Global,
    table: Name,
    first: Clause,
    tokens: &[Token],
) -> Result<(Stmt, &[Token]), Stop>
    ensures { Gives (λ x. (x.0, x.1.now)) result (clauses_from_at table first tokens.now) }
{
    let (clauses, rest) = list_from(alloc, first, tokens, Separator::Comma)?;
    Ok((Stmt::Alter { table, clauses }, rest))
}

#[tactic(auto, unfolding(crate::specs::ReadAlter::add_part_at))]
fn add_part(alloc: Global, table: Name, tokens: &[Token]) -> Result<(Stmt, &[Token]), Stop>
    ensures { Gives (λ x. (x.0, x.1.now)) result (add_part_at table tokens.now) }
{
    let (part, rest) = part(alloc, tokens)?;
    Ok((Stmt::AddPartition { table, part }, rest))
}

// What stands behind ADD ROLLUP.
#[tactic(auto, unfolding(crate::specs::ReadAlter::added_rollup_at))]
fn added_rollup(alloc: Global, table: Name, tokens: &[Token]) -> Result<(Stmt, &[Token]), Stop>
    ensures { Gives (λ x. (x.0, x.1.now)) result (added_rollup_at table tokens.now) }
{
    let (name, rest) = name(alloc, tokens)?;
    let (columns, rest) = names(alloc, rest)?;
    let stmt = Stmt::AddRollup {
        table,
        name,
        columns,
    };
    Ok((stmt, rest))
}

#[tactic(auto, unfolding(crate::specs::ReadAlter::add_column_at))]
fn add_column(alloc: Global, table: Name, tokens: &[Token]) -> Result<(Stmt, &[Token]), Stop>
    ensures { Gives (λ x. (x.0, x.1.now)) result (add_column_at table tokens.now) }
{
    let (first, rest) = added_column(alloc, tokens)?;
    clauses_from(alloc, table, first, rest)
}

// What stands behind the first ADD: a partition, a rollup, or a column and further clauses.
#[tactic(auto, unfolding(crate::specs::ReadAlter::addition_at, crate::specs::ReadAlter::rollup_at))]
fn addition(alloc: Global, table: Name, tokens: &[Token]) -> Result<(Stmt, &[Token]), Stop>
    ensures { Gives (λ x. (x.0, x.1.now)) result (addition_at table tokens.now) }
{
    if after_word(tokens, b"PARTITION").is_some() {
        return add_part(alloc, table, tokens);
    }
    if let Some(rest) = after_word(tokens, b"ROLLUP") {
        return added_rollup(alloc, table, rest);
    }
    add_column(alloc, table, tokens)
}

#[tactic(auto, unfolding(crate::specs::ReadAlter::alteration_at))]
fn alteration(alloc: Global, table: Name, tokens: &[Token]) -> Result<(Stmt, &[Token]), Stop>
    ensures { Gives (λ x. (x.0, x.1.now)) result (alteration_at table tokens.now) }
{
    if let Some(rest) = after_word(tokens, b"ADD") {
        return addition(alloc, table, rest);
    }
    let (first, rest) = other_clause(alloc, tokens)?;
    clauses_from(alloc, table, first, rest)
}

/// What stands behind ALTER.
#[tactic(auto, unfolding(crate::specs::ReadAlter::alter_table_at))]
pub fn alter_table(alloc: Global, tokens: &[Token]) -> Result<(Stmt, &[Token]), Stop>
    ensures { Gives (λ x. (x.0, x.1.now)) result (alter_table_at tokens.now) }
{
    let rest = word(tokens, b"TABLE")?;
    let (table, rest) = name(alloc, rest)?;
    alteration(alloc, table, rest)
}

/// The kind of an alter job.
#[tactic(auto, unfolding(crate::specs::ReadAlter::kind_at))]
pub fn alter_kind(tokens: &[Token]) -> Result<(AlterKind, &[Token]), Stop>
    ensures { Gives (λ x. (x.0, x.1.now)) result (kind_at tokens.now) }
{
    if let Some(rest) = after_word(tokens, b"COLUMN") {
        return Ok((AlterKind::Column, rest));
    }
    let rest = word(tokens, b"ROLLUP")?;
    Ok((AlterKind::Rollup, rest))
}

/// What stands behind CANCEL.
#[tactic(auto, unfolding(crate::specs::ReadAlter::cancelled_at))]
pub fn cancelled(alloc: Global, tokens: &[Token]) -> Result<(Stmt, &[Token]), Stop>
    ensures { Gives (λ x. (x.0, x.1.now)) result (cancelled_at tokens.now) }
{
    let rest = word(tokens, b"ALTER")?;
    let rest = word(rest, b"TABLE")?;
    let (kind, rest) = alter_kind(rest)?;
    let rest = word(rest, b"FROM")?;
    let (table, rest) = name(alloc, rest)?;
    Ok((Stmt::CancelAlter { kind, table }, rest))
}
