// Reading what CREATE TABLE says after the table's name.
ghost use Rattle.std.specs.Prelude.{◌≡◌, true, false, Ok, MatchOption};
ghost use Rattle.sql_grammar.specs.Marks.{matches};
ghost use Rattle.sql_grammar.specs.Reading.{Gives, heads};
ghost use Rattle.sql_text.specs.ReadCreate.{column_at, engine_at, key_model_at, key_first, maybe_key_at, range_parts_at, partitioned_at, maybe_ranges_at, distributed_at, buckets_at, property_at, properties_at, options_at, definition_at};

use crate::key_clause::KeyClause;
use crate::names::{column_type, comment, default, maybe_agg, names, nullable};
use crate::table_def::{ColumnText, Property, Ranges, TableDef};
use dl_values::Name;
use schema_models::Model;
use sql_grammar::{Piece, Separator, Stop, after_word, count, list, name, sign, text, word};
use sql_tokens::{Sign, Token};
use sqlite_items::Items;
use std::alloc::Global;

/// A column.
#[tactic(auto, unfolding(crate::specs::ReadCreate::column_at))]
pub fn column(alloc: Global, tokens: &[Token]) -> Result<(ColumnText, &[Token]), Stop>
    ensures { Gives (λ x. (x.0, x.1.now)) result (column_at tokens.now) }
{
    let (name, rest) = name(alloc, tokens)?;
    let (kind, rest) = column_type(rest)?;
    let (agg, rest) = maybe_agg(rest);
    let (nullable, rest) = nullable(rest)?;
    let (default, rest) = default(alloc, rest)?;
    let rest = comment(rest)?;
    let column = ColumnText {
        name,
        kind,
        agg,
        nullable,
        default,
    };
    Ok((column, rest))
}

impl Piece for ColumnText {
    ghost use Rattle.sql_text.specs.ReadCreate.{column_at};

    ghost reader = { column_at };

    #[tactic(auto, using(crate::proofs::CreateReads::column_leaves_less))]
    fn read(alloc: Global, tokens: &[Token]) -> Result<(ColumnText, &[Token]), Stop> {
        column(alloc, tokens)
    }
}

// What stands behind the engine, where one is written.
#[tactic(auto, unfolding(crate::specs::ReadCreate::engine_at))]
fn engine(tokens: &[Token]) -> Result<&[Token], Stop>
    ensures { Gives (λ rest. (tt, rest.now)) result (engine_at tokens.now) }
{
    let Some(rest) = after_word(tokens, b"ENGINE") else {
        return Ok(tokens);
    };
    let rest = sign(rest, Sign::Equal)?;
    let rest = word(rest, b"OLAP")?;
    Ok(rest)
}

// The model of a key clause, where one comes next.
#[tactic(auto, unfolding(crate::specs::ReadCreate::key_model_at))]
fn key_model(tokens: &[Token]) -> Option<(Model, &[Token])>
    ensures { MatchOption result (heads (matches key_first) tokens.now ≡ false) (λ x. (heads (matches key_first) tokens.now ≡ true) × (key_model_at tokens.now ≡ Ok (x.0, x.1.now))) }
{
    if let Some(rest) = after_word(tokens, b"DUPLICATE") {
        return Some((Model::Duplicate, rest));
    }
    if let Some(rest) = after_word(tokens, b"UNIQUE") {
        return Some((Model::Unique, rest));
    }
    if let Some(rest) = after_word(tokens, b"AGGREGATE") {
        return Some((Model::Aggregate, rest));
    }
    None
}

#[tactic(auto, unfolding(crate::specs::ReadCreate::maybe_key_at, crate::specs::ReadCreate::key_part_at))]
fn maybe_key(alloc: Global, tokens: &[Token]) -> Result<(Option<KeyClause>, &[Token]), Stop>
    ensures { Gives (λ x. (x.0, x.1.now)) result (maybe_key_at tokens.now) }
{
    let Some((model, rest)) = key_model(tokens) else {
        return Ok((None, tokens));
    };
    let rest = word(rest, b"KEY")?;
    let (names, rest) = names(alloc, rest)?;
    Ok((Some(KeyClause { model, names }), rest))
}

// What stands behind the column of PARTITION BY RANGE.
#[tactic(auto, unfolding(crate::specs::ReadCreate::range_parts_at))]
fn range_parts(alloc: Global, column: Name, tokens: &[Token]) -> Result<(Ranges, &[Token]), Stop>
    ensures { Gives (λ x. (x.0, x.1.now)) result (range_parts_at column tokens.now) }
{
    let rest = sign(tokens, Sign::Close)?;
    let rest = sign(rest, Sign::Open)?;
    let (parts, rest) = list(alloc, rest, Separator::Comma)?;
    let rest = sign(rest, Sign::Close)?;
    Ok((Ranges { column, parts }, rest))
}

// What stands behind PARTITION.
#[tactic(auto, unfolding(crate::specs::ReadCreate::partitioned_at))]
fn partitioned(alloc: Global, tokens: &[Token]) -> Result<(Ranges, &[Token]), Stop>
    ensures { Gives (λ x. (x.0, x.1.now)) result (partitioned_at tokens.now) }
{
    let rest = word(tokens, b"BY")?;
    let rest = word(rest, b"RANGE")?;
    let rest = sign(rest, Sign::Open)?;
    let (column, rest) = name(alloc, rest)?;
    range_parts(alloc, column, rest)
}

#[tactic(auto, unfolding(crate::specs::ReadCreate::maybe_ranges_at, crate::specs::ReadCreate::ranges_at))]
fn maybe_ranges(alloc: Global, tokens: &[Token]) -> Result<(Option<Ranges>, &[Token]), Stop>
    ensures { Gives (λ x. (x.0, x.1.now)) result (maybe_ranges_at tokens.now) }
{
    let Some(rest) = after_word(tokens, b"PARTITION") else {
        return Ok((None, tokens));
    };
    let (ranges, rest) = partitioned(alloc, rest)?;
    Ok((Some(ranges), rest))
}

#[tactic(auto, unfolding(crate::specs::ReadCreate::distributed_at))]
fn distributed(alloc: Global, tokens: &[Token]) -> Result<(Items<Name>, &[Token]), Stop>
    ensures { Gives (λ x. (x.0, x.1.now)) result (distributed_at tokens.now) }
{
    let rest = word(tokens, b"DISTRIBUTED")?;
    let rest = word(rest, b"BY")?;
    let rest = word(rest, b"HASH")?;
    let (columns, rest) = names(alloc, rest)?;
    Ok((columns, rest))
}

#[tactic(auto, unfolding(crate::specs::ReadCreate::buckets_at))]
fn buckets(tokens: &[Token]) -> Result<(Option<u64>, &[Token]), Stop>
    ensures { Gives (λ x. (x.0, x.1.now)) result (buckets_at tokens.now) }
{
    let Some(rest) = after_word(tokens, b"BUCKETS") else {
        return Ok((None, tokens));
    };
    let (buckets, rest) = count(rest)?;
    Ok((Some(buckets), rest))
}

/// A property and its value.
#[tactic(auto, unfolding(crate::specs::ReadCreate::property_at))]
pub fn property(alloc: Global, tokens: &[Token]) -> Result<(Property, &[Token]), Stop>
    ensures { Gives (λ x. (x.0, x.1.now)) result (property_at tokens.now) }
{
    let (name, rest) = text(alloc, tokens)?;
    let rest = sign(rest, Sign::Equal)?;
    let (value, rest) = text(alloc, rest)?;
    Ok((Property { name, value }, rest))
}

impl Piece for Property {
    ghost use Rattle.sql_text.specs.ReadCreate.{property_at};

    ghost reader = { property_at };

    #[tactic(auto, using(crate::proofs::CreateReads::property_leaves_less))]
    fn read(alloc: Global, tokens: &[Token]) -> Result<(Property, &[Token]), Stop> {
        property(alloc, tokens)
    }
}

#[tactic(auto, unfolding(crate::specs::ReadCreate::properties_at, crate::specs::ReadCreate::property_list_at))]
fn properties(alloc: Global, tokens: &[Token]) -> Result<(Items<Property>, &[Token]), Stop>
    ensures { Gives (λ x. (x.0, x.1.now)) result (properties_at tokens.now) }
{
    let Some(rest) = after_word(tokens, b"PROPERTIES") else {
        return Ok((Items::new(alloc), tokens));
    };
    let rest = sign(rest, Sign::Open)?;
    let (found, rest) = list(alloc, rest, Separator::Comma)?;
    let rest = sign(rest, Sign::Close)?;
    Ok((found, rest))
}

// What stands behind the columns.
#[tactic(auto, unfolding(crate::specs::ReadCreate::options_at))]
fn options(
    alloc: Global,
    columns: Items<ColumnText>,
    tokens: &[Token],
) -> Result<(TableDef, &[Token]), Stop>
    ensures { Gives (λ x. (x.0, x.1.now)) result (options_at columns tokens.now) }
{
    let rest = engine(tokens)?;
    let (key, rest) = maybe_key(alloc, rest)?;
    let rest = comment(rest)?;
    let (ranges, rest) = maybe_ranges(alloc, rest)?;
    let (hash, rest) = distributed(alloc, rest)?;
    let (buckets, rest) = buckets(rest)?;
    let (properties, rest) = properties(alloc, rest)?;
    let def = TableDef {
        columns,
        key,
        ranges,
        hash,
        buckets,
        properties,
    };
    Ok((def, rest))
}

/// The definition of a table.
#[tactic(auto, unfolding(crate::specs::ReadCreate::definition_at))]
pub fn definition(alloc: Global, tokens: &[Token]) -> Result<(TableDef, &[Token]), Stop>
    ensures { Gives (λ x. (x.0, x.1.now)) result (definition_at tokens.now) }
{
    let rest = sign(tokens, Sign::Open)?;
    let (columns, rest) = list(alloc, rest, Separator::Comma)?;
    let rest = sign(rest, Sign::Close)?;
    options(alloc, columns, rest)
}
