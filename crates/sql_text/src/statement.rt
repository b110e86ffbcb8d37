// Reading statements.
ghost use Rattle.sql_grammar.specs.Reading.{Gives};
ghost use Rattle.sql_text.specs.ReadStatements.{query_at, body_at, statement_at, whole_at};

use crate::alter::{alter_table, cancelled};
use crate::create::{created, dropped};
use crate::select::select;
use crate::show::{admin, described, shown};
use crate::stmt::Stmt;
use sql_grammar::{Stop, after_sign, after_word};
use sql_tokens::{Sign, Token};
use std::alloc::Global;

#[tactic(auto, unfolding(crate::specs::ReadStatements::query_at))]
fn query(alloc: Global, tokens: &[Token]) -> Result<(Stmt, &[Token]), Stop>
    ensures { Gives (λ x. (x.0, x.1.now)) result (query_at tokens.now) }
{
    let (query, rest) = select(alloc, tokens)?;
    Ok((Stmt::Select(query), rest))
}

#[tactic(auto, unfolding(crate::specs::ReadStatements::body_at, crate::specs::ReadCreate::create_at, crate::specs::ReadCreate::drop_at, crate::specs::ReadAlter::alter_at, crate::specs::ReadAlter::cancel_at, crate::specs::ReadShow::show_at, crate::specs::ReadShow::describe_at))]
fn body(alloc: Global, tokens: &[Token]) -> Result<(Stmt, &[Token]), Stop>
    ensures { Gives (λ x. (x.0, x.1.now)) result (body_at tokens.now) }
{
    if let Some(rest) = after_word(tokens, b"CREATE") {
        return created(alloc, rest);
    }
    if let Some(rest) = after_word(tokens, b"DROP") {
        return dropped(alloc, rest);
    }
    if let Some(rest) = after_word(tokens, b"ALTER") {
        return alter_table(alloc, rest);
    }
    if let Some(rest) = after_word(tokens, b"CANCEL") {
        return cancelled(alloc, rest);
    }
    if let Some(rest) = after_word(tokens, b"SHOW") {
        return shown(alloc, rest);
    }
    if let Some(rest) = after_word(tokens, b"DESC") {
        return described(alloc, rest);
    }
    if after_word(tokens, b"SELECT").is_some() {
        return query(alloc, tokens);
    }
    admin(tokens)
}

// A statement, and what stands behind it and the sign that may end it.
#[tactic(auto, unfolding(crate::specs::ReadStatements::statement_at))]
fn statement(alloc: Global, tokens: &[Token]) -> Result<(Stmt, &[Token]), Stop>
    ensures { Gives (λ x. (x.0, x.1.now)) result (statement_at tokens.now) }
{
    let (stmt, rest) = body(alloc, tokens)?;
    match after_sign(rest, Sign::End) {
        Some(behind) => Ok((stmt, behind)),
        None => Ok((stmt, rest)),
    }
}

/// The statement that the tokens spell, all of them.
#[tactic(auto, unfolding(crate::specs::ReadStatements::whole_at))]
pub fn whole(alloc: Global, tokens: &[Token]) -> Result<Stmt, Stop>
    ensures { Gives (λ s. s) result (whole_at tokens.now) }
{
    let (stmt, rest) = statement(alloc, tokens)?;
    if !rest.is_empty() {
        return Err(Stop::Left(rest.len()));
    }
    Ok(stmt)
}
