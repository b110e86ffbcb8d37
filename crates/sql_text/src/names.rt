// Reading names, literals, types and defaults.
ghost use Rattle.std.specs.Prelude.{◌≡◌, Ok};
ghost use Rattle.sql_grammar.specs.Reading.{Gives};
ghost use Rattle.sql_text.specs.ReadNames.{names_at, literal_at, varchar_at, type_at, maybe_agg_at, nullable_at, default_text_at, default_at, comment_at};

use crate::query::Literal;
use crate::table_def::{ColumnType, DefaultText};
use dl_values::{AggKind, Name};
use sql_grammar::{Separator, Stop, after_word, count, list, name, sign, word};
use sql_tokens::{Sign, Token, TokenKind};
use sqlite_items::Items;
use std::alloc::Global;

/// Names in parentheses.
#[tactic(auto, unfolding(crate::specs::ReadNames::names_at))]
pub fn names(alloc: Global, tokens: &[Token]) -> Result<(Items<Name>, &[Token]), Stop>
    ensures { Gives (λ x. (x.0, x.1.now)) result (names_at tokens.now) }
{
    let rest = sign(tokens, Sign::Open)?;
    let (names, rest) = list(alloc, rest, Separator::Comma)?;
    let rest = sign(rest, Sign::Close)?;
    Ok((names, rest))
}

/// An integer or a string.
#[tactic(auto, unfolding(crate::specs::ReadNames::literal_at, sql_grammar::specs::Reading::integer_at, sql_grammar::specs::Reading::text_at))]
pub fn literal(alloc: Global, tokens: &[Token]) -> Result<(Literal, &[Token]), Stop>
    ensures { Gives (λ x. (x.0, x.1.now)) result (literal_at tokens.now) }
{
    match tokens {
        [token, rest @ ..] => match &token.kind {
            TokenKind::Int(value) => Ok((Literal::Int(*value), rest)),
            TokenKind::Text(text) => Ok((Literal::Text(text.copy(alloc)?), rest)),
            _ => Err(Stop::Left(tokens.len())),
        },
        [] => Err(Stop::Left(0)),
    }
}

#[tactic(auto, unfolding(crate::specs::ReadNames::varchar_at))]
fn varchar(tokens: &[Token]) -> Result<(ColumnType, &[Token]), Stop>
    ensures { Gives (λ x. (x.0, x.1.now)) result (varchar_at tokens.now) }
{
    let rest = word(tokens, b"VARCHAR")?;
    let rest = sign(rest, Sign::Open)?;
    let (length, rest) = count(rest)?;
    let rest = sign(rest, Sign::Close)?;
    Ok((ColumnType::Varchar(length), rest))
}

/// The type of a column.
#[tactic(auto, unfolding(crate::specs::ReadNames::type_at))]
pub fn column_type(tokens: &[Token]) -> Result<(ColumnType, &[Token]), Stop>
    ensures { Gives (λ x. (x.0, x.1.now)) result (type_at tokens.now) }
{
    if let Some(rest) = after_word(tokens, b"TINYINT") {
        return Ok((ColumnType::TinyInt, rest));
    }
    if let Some(rest) = after_word(tokens, b"SMALLINT") {
        return Ok((ColumnType::SmallInt, rest));
    }
    if let Some(rest) = after_word(tokens, b"INT") {
        return Ok((ColumnType::Int, rest));
    }
    if let Some(rest) = after_word(tokens, b"BIGINT") {
        return Ok((ColumnType::BigInt, rest));
    }
    if let Some(rest) = after_word(tokens, b"DATE") {
        return Ok((ColumnType::Date, rest));
    }
    varchar(tokens)
}

/// The kind of a value column, where one is written.
#[tactic(auto, unfolding(crate::specs::ReadNames::maybe_agg_at, crate::specs::ReadNames::agg_at))]
pub fn maybe_agg(tokens: &[Token]) -> (Option<AggKind>, &[Token])
    ensures { maybe_agg_at tokens.now ≡ Ok (result.0, result.1.now) }
{
    if let Some(rest) = after_word(tokens, b"SUM") {
        return (Some(AggKind::Sum), rest);
    }
    if let Some(rest) = after_word(tokens, b"MIN") {
        return (Some(AggKind::Min), rest);
    }
    if let Some(rest) = after_word(tokens, b"MAX") {
        return (Some(AggKind::Max), rest);
    }
    if let Some(rest) = after_word(tokens, b"REPLACE") {
        return (Some(AggKind::Replace), rest);
    }
    if let Some(rest) = after_word(tokens, b"REPLACE_IF_NOT_NULL") {
        return (Some(AggKind::ReplaceIfNotNull), rest);
    }
    (None, tokens)
}

/// Whether a column may be null, as it is where nothing is written.
#[tactic(auto, unfolding(crate::specs::ReadNames::nullable_at))]
pub fn nullable(tokens: &[Token]) -> Result<(bool, &[Token]), Stop>
    ensures { Gives (λ x. (x.0, x.1.now)) result (nullable_at tokens.now) }
{
    if let Some(rest) = after_word(tokens, b"NULL") {
        return Ok((true, rest));
    }
    if let Some(rest) = after_word(tokens, b"NOT") {
        let rest = word(rest, b"NULL")?;
        return Ok((false, rest));
    }
    Ok((true, tokens))
}

#[tactic(auto, unfolding(crate::specs::ReadNames::default_text_at))]
fn default_text(alloc: Global, tokens: &[Token]) -> Result<(DefaultText, &[Token]), Stop>
    ensures { Gives (λ x. (x.0, x.1.now)) result (default_text_at tokens.now) }
{
    if let Some(rest) = after_word(tokens, b"NULL") {
        return Ok((DefaultText::Null, rest));
    }
    let (value, rest) = literal(alloc, tokens)?;
    Ok((DefaultText::Value(value), rest))
}

/// The default of a column, where one is written.
#[tactic(auto, unfolding(crate::specs::ReadNames::default_at))]
pub fn default(alloc: Global, tokens: &[Token]) -> Result<(Option<DefaultText>, &[Token]), Stop>
    ensures { Gives (λ x. (x.0, x.1.now)) result (default_at tokens.now) }
{
    let Some(rest) = after_word(tokens, b"DEFAULT") else {
        return Ok((None, tokens));
    };
    let (value, rest) = default_text(alloc, rest)?;
    Ok((Some(value), rest))
}

/// What stands behind a comment, where one is written.
#[tactic(auto, unfolding(crate::specs::ReadNames::comment_at, sql_grammar::specs::Reading::text_at))]
pub fn comment(tokens: &[Token]) -> Result<&[Token], Stop>
    ensures { Gives (λ rest. (tt, rest.now)) result (comment_at tokens.now) }
{
    let Some(rest) = after_word(tokens, b"COMMENT") else {
        return Ok(tokens);
    };
    match rest {
        [
            Token {
                kind: TokenKind::Text(_),
                ..
            },
            behind @ ..,
        ] => Ok(behind),
        _ => Err(Stop::Left(rest.len())),
    }
}
