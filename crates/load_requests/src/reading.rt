// Reading a statement from left to right.
ghost use Rattle.std.specs.Prelude.{◌≡◌, IfOk};
ghost use Rattle.load_requests.specs.Tokens.{tokens_of};
ghost use Rattle.load_requests.specs.Statements.{Gives, plain_at, name_at, type_at, count_at, comma_at, names_at, columns_at, column_at, is_end, create_db_at, key_clause_at, hash_at, table_def_at, create_table_at, select_at, ended, statement_of};

use crate::names::{count_of, is_name, is_plain};
use crate::statement::Statement;
use crate::stop::Stop;
use crate::token::first_token;
use dl_values::{ColType, Name, NoMemory};
use schema_models::Model;
use sql_text::{KeyClause, PlainColumn, PlainDef};
use sqlite_items::Items;
use std::alloc::Global;

#[tactic(auto, unfolding(crate::specs::Statements::plain_at))]
fn skip<'a>(text: &'a [u8], word: &[u8]) -> Result<&'a [u8], Stop>
    ensures { Gives (λ rest. (tt, tokens_of rest.now)) result (plain_at word.now (tokens_of text.now)) }
{
    match first_token(text) {
        None => Err(Stop::Absent),
        Some((kind, bytes, rest)) => {
            if is_plain(kind, bytes, word) {
                Ok(rest)
            } else {
                Err(Stop::Absent)
            }
        }
    }
}

#[tactic(auto, unfolding(crate::specs::Statements::name_at))]
fn name(alloc: Global, text: &[u8]) -> Result<(Name, &[u8]), Stop>
    ensures { Gives (λ x. (x.0, tokens_of x.1.now)) result (name_at (tokens_of text.now)) }
{
    match first_token(text) {
        None => Err(Stop::Absent),
        Some((kind, bytes, rest)) => {
            if is_name(kind, bytes) {
                Ok((Name::new(alloc, bytes)?, rest))
            } else {
                Err(Stop::Absent)
            }
        }
    }
}

#[tactic(auto, unfolding(crate::specs::Statements::type_at))]
fn column_type(text: &[u8]) -> Result<(ColType, &[u8]), Stop>
    ensures { Gives (λ x. (x.0, tokens_of x.1.now)) result (type_at (tokens_of text.now)) }
{
    match first_token(text) {
        None => Err(Stop::Absent),
        Some((kind, bytes, rest)) => {
            if is_plain(kind, bytes, b"INT") {
                Ok((ColType::Int, rest))
            } else if is_plain(kind, bytes, b"BIGINT") {
                Ok((ColType::BigInt, rest))
            } else {
                Err(Stop::Absent)
            }
        }
    }
}

#[tactic(auto, unfolding(crate::specs::Statements::count_at))]
fn count(text: &[u8]) -> Result<(u64, &[u8]), Stop>
    ensures { Gives (λ x. (x.0, tokens_of x.1.now)) result (count_at (tokens_of text.now)) }
{
    match first_token(text) {
        None => Err(Stop::Absent),
        Some((kind, bytes, rest)) => match count_of(kind, bytes) {
            None => Err(Stop::Absent),
            Some(number) => Ok((number, rest)),
        },
    }
}

// Whether a comma comes, or else the closing parenthesis.
#[tactic(auto, unfolding(crate::specs::Statements::comma_at))]
fn comma(text: &[u8]) -> Result<(bool, &[u8]), Stop>
    ensures { Gives (λ x. (x.0, tokens_of x.1.now)) result (comma_at (tokens_of text.now)) }
{
    match first_token(text) {
        None => Err(Stop::Absent),
        Some((kind, bytes, rest)) => {
            if is_plain(kind, bytes, b",") {
                Ok((true, rest))
            } else if is_plain(kind, bytes, b")") {
                Ok((false, rest))
            } else {
                Err(Stop::Absent)
            }
        }
    }
}

// Names with commas between them, up to the closing parenthesis.
fn names(alloc: Global, text: &[u8]) -> Result<(Items<Name>, &[u8]), Stop>
    ensures { Gives (λ x. (x.0, tokens_of x.1.now)) result (names_at (tokens_of text.now)) }
{
    let mut found = Items::new(alloc);
    let mut left = text;
    'more: loop {
        let (one, behind) = name(alloc, left)?;
        let (goes_on, rest) = comma(behind)?;
        found.push(one)?;
        if !goes_on {
            return Ok((found, rest));
        }
        left = rest;
    }
}

#[tactic(auto, unfolding(crate::specs::Statements::column_at))]
fn column(alloc: Global, text: &[u8]) -> Result<(PlainColumn, &[u8]), Stop>
    ensures { Gives (λ x. (x.0, tokens_of x.1.now)) result (column_at (tokens_of text.now)) }
{
    let (name, rest) = name(alloc, text)?;
    let (kind, rest) = column_type(rest)?;
    let column = PlainColumn {
        name,
        kind,
        nullable: true,
    };
    Ok((column, rest))
}

// Columns with commas between them, up to the closing parenthesis.
fn columns(alloc: Global, text: &[u8]) -> Result<(Items<PlainColumn>, &[u8]), Stop>
    ensures { Gives (λ x. (x.0, tokens_of x.1.now)) result (columns_at (tokens_of text.now)) }
{
    let mut found = Items::new(alloc);
    let mut left = text;
    'more: loop {
        let (one, behind) = column(alloc, left)?;
        let (goes_on, rest) = comma(behind)?;
        found.push(one)?;
        if !goes_on {
            return Ok((found, rest));
        }
        left = rest;
    }
}

#[tactic(auto, unfolding(crate::specs::Statements::key_clause_at))]
fn key_clause(alloc: Global, text: &[u8]) -> Result<(KeyClause, &[u8]), Stop>
    ensures { Gives (λ x. (x.0, tokens_of x.1.now)) result (key_clause_at (tokens_of text.now)) }
{
    let rest = skip(text, b"DUPLICATE")?;
    let rest = skip(rest, b"KEY")?;
    let rest = skip(rest, b"(")?;
    let (names, rest) = names(alloc, rest)?;
    let key = KeyClause {
        model: Model::Duplicate,
        names,
    };
    Ok((key, rest))
}

#[tactic(auto, unfolding(crate::specs::Statements::hash_at))]
fn hash(alloc: Global, text: &[u8]) -> Result<(Items<Name>, &[u8]), Stop>
    ensures { Gives (λ x. (x.0, tokens_of x.1.now)) result (hash_at (tokens_of text.now)) }
{
    let rest = skip(text, b"DISTRIBUTED")?;
    let rest = skip(rest, b"BY")?;
    let rest = skip(rest, b"HASH")?;
    let rest = skip(rest, b"(")?;
    let (names, rest) = names(alloc, rest)?;
    Ok((names, rest))
}

// What stands behind the name of a table.
#[tactic(auto, unfolding(crate::specs::Statements::table_def_at))]
fn table_def(alloc: Global, text: &[u8]) -> Result<(PlainDef, &[u8]), Stop>
    ensures { Gives (λ x. (x.0, tokens_of x.1.now)) result (table_def_at (tokens_of text.now)) }
{
    let rest = skip(text, b"(")?;
    let (columns, rest) = columns(alloc, rest)?;
    let (key, rest) = key_clause(alloc, rest)?;
    let (hash, rest) = hash(alloc, rest)?;
    let rest = skip(rest, b"BUCKETS")?;
    let (buckets, rest) = count(rest)?;
    let def = PlainDef {
        columns,
        key: Some(key),
        hash,
        buckets: Some(buckets),
    };
    Ok((def, rest))
}

// Whether nothing more comes, or a `;` alone.
#[tactic(auto, unfolding(crate::specs::Statements::is_end))]
fn is_end(text: &[u8]) -> bool
    ensures { result ≡ is_end (tokens_of text.now) }
{
    match first_token(text) {
        None => true,
        Some((kind, bytes, rest)) => match first_token(rest) {
            None => is_plain(kind, bytes, b";"),
            Some(_) => false,
        },
    }
}

#[tactic(auto, unfolding(crate::specs::Statements::create_db_at))]
fn create_db(alloc: Global, text: &[u8]) -> Result<(Statement, &[u8]), Stop>
    ensures { Gives (λ x. (x.0, tokens_of x.1.now)) result (create_db_at (tokens_of text.now)) }
{
    let rest = skip(text, b"CREATE")?;
    let rest = skip(rest, b"DATABASE")?;
    let (name, rest) = name(alloc, rest)?;
    Ok((Statement::CreateDb(name), rest))
}

#[tactic(auto, unfolding(crate::specs::Statements::create_table_at))]
fn create_table(alloc: Global, text: &[u8]) -> Result<(Statement, &[u8]), Stop>
    ensures { Gives (λ x. (x.0, tokens_of x.1.now)) result (create_table_at (tokens_of text.now)) }
{
    let rest = skip(text, b"CREATE")?;
    let rest = skip(rest, b"TABLE")?;
    let (name, rest) = name(alloc, rest)?;
    let (def, rest) = table_def(alloc, rest)?;
    Ok((Statement::CreateTable(name, def), rest))
}

#[tactic(auto, unfolding(crate::specs::Statements::select_at))]
fn select(alloc: Global, text: &[u8]) -> Result<(Statement, &[u8]), Stop>
    ensures { Gives (λ x. (x.0, tokens_of x.1.now)) result (select_at (tokens_of text.now)) }
{
    let rest = skip(text, b"SELECT")?;
    let rest = skip(rest, b"*")?;
    let rest = skip(rest, b"FROM")?;
    let (name, rest) = name(alloc, rest)?;
    Ok((Statement::Select(name), rest))
}

fn whole_create_db(alloc: Global, text: &[u8]) -> Result<Option<Statement>, NoMemory>
    ensures { IfOk result (λ s. s ≡ ended (create_db_at (tokens_of text.now))) }
{
    match create_db(alloc, text) {
        Ok((statement, rest)) => Ok(if is_end(rest) { Some(statement) } else { None }),
        Err(Stop::Absent) => Ok(None),
        Err(Stop::Memory) => Err(NoMemory),
    }
}

fn whole_create_table(alloc: Global, text: &[u8]) -> Result<Option<Statement>, NoMemory>
    ensures { IfOk result (λ s. s ≡ ended (create_table_at (tokens_of text.now))) }
{
    match create_table(alloc, text) {
        Ok((statement, rest)) => Ok(if is_end(rest) { Some(statement) } else { None }),
        Err(Stop::Absent) => Ok(None),
        Err(Stop::Memory) => Err(NoMemory),
    }
}

fn whole_select(alloc: Global, text: &[u8]) -> Result<Option<Statement>, NoMemory>
    ensures { IfOk result (λ s. s ≡ ended (select_at (tokens_of text.now))) }
{
    match select(alloc, text) {
        Ok((statement, rest)) => Ok(if is_end(rest) { Some(statement) } else { None }),
        Err(Stop::Absent) => Ok(None),
        Err(Stop::Memory) => Err(NoMemory),
    }
}

/// The statement of a text, if it is one that is served.
#[tactic(auto, unfolding(crate::specs::Statements::statement_at))]
pub fn read_statement(alloc: Global, text: &[u8]) -> Result<Option<Statement>, NoMemory>
    ensures { IfOk result (λ s. s ≡ statement_of text.now) }
{
    match whole_create_db(alloc, text)? {
        Some(statement) => Ok(Some(statement)),
        None => match whole_create_table(alloc, text)? {
            Some(statement) => Ok(Some(statement)),
            None => whole_select(alloc, text),
        },
    }
}
