// Reading CREATE and DROP.
ghost use Rattle.sql_grammar.specs.Reading.{Gives};
ghost use Rattle.sql_text.specs.ReadCreate.{if_not_exists_at, if_exists_at, database_at, create_table_at, created_at, dropped_at};

use crate::definition::definition;
use crate::stmt::Stmt;
use sql_grammar::{Stop, after_word, name, word};
use sql_tokens::Token;
use std::alloc::Global;

#[tactic(auto, unfolding(crate::specs::ReadCreate::if_not_exists_at))]
fn if_not_exists(tokens: &[Token]) -> Result<(bool, &[Token]), Stop>
    ensures { Gives (λ x. (x.0, x.1.now)) result (if_not_exists_at tokens.now) }
{
    let Some(rest) = after_word(tokens, b"IF") else {
        return Ok((false, tokens));
    };
    let rest = word(rest, b"NOT")?;
    let rest = word(rest, b"EXISTS")?;
    Ok((true, rest))
}

#[tactic(auto, unfolding(crate::specs::ReadCreate::if_exists_at))]
fn if_exists(tokens: &[Token]) -> Result<(bool, &[Token]), Stop>
    ensures { Gives (λ x. (x.0, x.1.now)) result (if_exists_at tokens.now) }
{
    let Some(rest) = after_word(tokens, b"IF") else {
        return Ok((false, tokens));
    };
    let rest = word(rest, b"EXISTS")?;
    Ok((true, rest))
}

// What stands behind CREATE DATABASE.
#[tactic(auto, unfolding(crate::specs::ReadCreate::database_at))]
fn database(alloc: Global, tokens: &[Token]) -> Result<(Stmt, &[Token]), Stop>
    ensures { Gives (λ x. (x.0, x.1.now)) result (database_at tokens.now) }
{
    let (if_not_exists, rest) = if_not_exists(tokens)?;
    let (name, rest) = name(alloc, rest)?;
    let stmt = Stmt::CreateDatabase {
        if_not_exists,
        name,
    };
    Ok((stmt, rest))
}

#[tactic(auto, unfolding(crate::specs::ReadCreate::create_table_at))]
fn create_table(alloc: Global, tokens: &[Token]) -> Result<(Stmt, &[Token]), Stop>
    ensures { Gives (λ x. (x.0, x.1.now)) result (create_table_at tokens.now) }
{
    let rest = word(tokens, b"TABLE")?;
    let (if_not_exists, rest) = if_not_exists(rest)?;
    let (name, rest) = name(alloc, rest)?;
    let (def, rest) = definition(alloc, rest)?;
    let stmt = Stmt::CreateTable {
        if_not_exists,
        name,
        def,
    };
    Ok((stmt, rest))
}

/// What stands behind CREATE.
#[tactic(auto, unfolding(crate::specs::ReadCreate::created_at, crate::specs::ReadCreate::create_database_at))]
pub fn created(alloc: Global, tokens: &[Token]) -> Result<(Stmt, &[Token]), Stop>
    ensures { Gives (λ x. (x.0, x.1.now)) result (created_at tokens.now) }
{
    if let Some(rest) = after_word(tokens, b"DATABASE") {
        return database(alloc, rest);
    }
    create_table(alloc, tokens)
}

/// What stands behind DROP.
#[tactic(auto, unfolding(crate::specs::ReadCreate::dropped_at))]
pub fn dropped(alloc: Global, tokens: &[Token]) -> Result<(Stmt, &[Token]), Stop>
    ensures { Gives (λ x. (x.0, x.1.now)) result (dropped_at tokens.now) }
{
    let rest = word(tokens, b"TABLE")?;
    let (if_exists, rest) = if_exists(rest)?;
    let (name, rest) = name(alloc, rest)?;
    Ok((Stmt::DropTable { if_exists, name }, rest))
}
