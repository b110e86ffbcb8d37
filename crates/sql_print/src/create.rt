// CREATE and DROP.
ghost use Rattle.std.specs.Prelude.{◌≡◌, [], OnOk};
ghost use Rattle.sql_text.specs.declared.part.PartBounds.TheVariants as bounds;
ghost use Rattle.sql_print.specs.Steps.{put};
ghost use Rattle.sql_print.specs.Parts.{maybe, when};
ghost use Rattle.sql_print.specs.ShownCreate.{if_not_exists, if_exists, column_tokens, model_word, key_clause_tokens, end_tokens, bracketed, bounds_tokens, with_values, part_tokens, by_range, ranges_tokens, distributed_tokens, buckets_tokens, property_tokens, properties_tokens, definition_end, definition_tokens, create_database_tokens, create_table_tokens, drop_table_tokens};

use crate::TokenWriter;
use crate::lists::{Separator, ShowTokens, show_list};
use crate::parts::{
    show_literal, show_names, show_nullable, show_some_agg, show_some_default, show_type,
};
use dl_values::{Name, NoMemory};
use schema_models::Model;
use sql_text::{ColumnText, KeyClause, Literal, Part, PartBounds, Property, Ranges, TableDef};
use sql_tokens::Sign;

#[tactic(auto, using(crate::proofs::Puts::put_put, crate::proofs::Puts::put_nil), unfolding(crate::specs::Parts::when, crate::specs::ShownCreate::if_not_exists))]
fn show_if_not_exists(writer: &mut TokenWriter, quiet: bool) -> Result<(), NoMemory>
    ensures { OnOk result (writer.new ≡ put writer.old (when quiet if_not_exists)) }
{
    if quiet {
        writer.word(b"IF")?;
        writer.word(b"NOT")?;
        writer.word(b"EXISTS")?;
    }
    Ok(())
}

#[tactic(auto, using(crate::proofs::Puts::put_put, crate::proofs::Puts::put_nil), unfolding(crate::specs::Parts::when, crate::specs::ShownCreate::if_exists))]
fn show_if_exists(writer: &mut TokenWriter, quiet: bool) -> Result<(), NoMemory>
    ensures { OnOk result (writer.new ≡ put writer.old (when quiet if_exists)) }
{
    if quiet {
        writer.word(b"IF")?;
        writer.word(b"EXISTS")?;
    }
    Ok(())
}

/// Adds CREATE DATABASE.
#[tactic(auto, using(crate::proofs::Puts::put_put, crate::proofs::Puts::put_nil), unfolding(crate::specs::ShownCreate::create_database_tokens))]
pub fn show_create_database(
    writer: &mut TokenWriter,
    quiet: bool,
    name: &Name,
) -> Result<(), NoMemory>
    ensures { OnOk result (writer.new ≡ put writer.old (create_database_tokens quiet name.now)) }
{
    writer.word(b"CREATE")?;
    writer.word(b"DATABASE")?;
    show_if_not_exists(writer, quiet)?;
    writer.name(name)?;
    Ok(())
}

impl ShowTokens for ColumnText {
    ghost shown = { column_tokens };

    #[tactic(auto, using(crate::proofs::Puts::put_put, crate::proofs::Puts::put_nil), unfolding(crate::specs::ShownCreate::column_tokens))]
    fn show(&self, writer: &mut TokenWriter) -> Result<(), NoMemory> {
        writer.name(&self.name)?;
        show_type(writer, self.kind)?;
        show_some_agg(writer, self.agg)?;
        show_nullable(writer, self.nullable)?;
        show_some_default(writer, &self.default)?;
        Ok(())
    }
}

#[tactic(auto, unfolding(crate::specs::ShownCreate::model_word))]
fn model_word(model: Model) -> &'static [u8]
    ensures { result.now ≡ model_word model }
{
    match model {
        Model::Duplicate => b"DUPLICATE",
        Model::Unique => b"UNIQUE",
        Model::Aggregate => b"AGGREGATE",
    }
}

#[tactic(auto, using(crate::proofs::Puts::put_put, crate::proofs::Puts::put_nil), unfolding(crate::specs::ShownCreate::key_clause_tokens))]
fn show_key_clause(writer: &mut TokenWriter, key: &KeyClause) -> Result<(), NoMemory>
    ensures { OnOk result (writer.new ≡ put writer.old (key_clause_tokens key.now)) }
{
    writer.word(model_word(key.model))?;
    writer.word(b"KEY")?;
    show_names(writer, key.names.as_slice())?;
    Ok(())
}

#[tactic(auto, using(crate::proofs::Puts::put_put, crate::proofs::Puts::put_nil), unfolding(crate::specs::Parts::maybe))]
fn show_some_key(writer: &mut TokenWriter, key: &Option<KeyClause>) -> Result<(), NoMemory>
    ensures { OnOk result (writer.new ≡ put writer.old (maybe key_clause_tokens key.now)) }
{
    match key {
        None => Ok(()),
        Some(key) => show_key_clause(writer, key),
    }
}

// Adds a literal in parentheses.
#[tactic(auto, using(crate::proofs::Puts::put_put, crate::proofs::Puts::put_nil), unfolding(crate::specs::ShownCreate::bracketed))]
fn show_bracketed(writer: &mut TokenWriter, literal: &Literal) -> Result<(), NoMemory>
    ensures { OnOk result (writer.new ≡ put writer.old (bracketed literal.now)) }
{
    writer.sign(Sign::Open)?;
    show_literal(writer, literal)?;
    writer.sign(Sign::Close)?;
    Ok(())
}

#[tactic(auto, using(crate::proofs::Puts::put_put, crate::proofs::Puts::put_nil), unfolding(crate::specs::ShownCreate::end_tokens))]
fn show_end(writer: &mut TokenWriter, end: &Option<Literal>) -> Result<(), NoMemory>
    ensures { OnOk result (writer.new ≡ put writer.old (end_tokens end.now)) }
{
    match end {
        None => writer.word(b"MAXVALUE"),
        Some(end) => show_bracketed(writer, end),
    }
}

#[tactic(auto, using(crate::proofs::Puts::put_put, crate::proofs::Puts::put_nil), unfolding(crate::specs::ShownCreate::bounds_tokens))]
fn show_less(writer: &mut TokenWriter, end: &Option<Literal>) -> Result<(), NoMemory>
    ensures { OnOk result (writer.new ≡ put writer.old (bounds_tokens (bounds.Less end.now))) }
{
    writer.word(b"LESS")?;
    writer.word(b"THAN")?;
    show_end(writer, end)?;
    Ok(())
}

#[tactic(auto, using(crate::proofs::Puts::put_put, crate::proofs::Puts::put_nil), unfolding(crate::specs::ShownCreate::bounds_tokens))]
fn show_between(writer: &mut TokenWriter, low: &Literal, high: &Literal) -> Result<(), NoMemory>
    ensures { OnOk result (writer.new ≡ put writer.old (bounds_tokens (bounds.Between low.now high.now))) }
{
    writer.sign(Sign::OpenRange)?;
    show_bracketed(writer, low)?;
    writer.sign(Sign::Comma)?;
    show_bracketed(writer, high)?;
    writer.sign(Sign::Close)?;
    Ok(())
}

#[tactic(auto, using(crate::proofs::Puts::put_put, crate::proofs::Puts::put_nil), unfolding(crate::specs::ShownCreate::bounds_tokens))]
fn show_bounds(writer: &mut TokenWriter, ends: &PartBounds) -> Result<(), NoMemory>
    ensures { OnOk result (writer.new ≡ put writer.old (bounds_tokens ends.now)) }
{
    match ends {
        PartBounds::Less(end) => show_less(writer, end),
        PartBounds::Between(low, high) => show_between(writer, low, high),
    }
}

// Adds PARTITION, its name and VALUES.
#[tactic(auto, using(crate::proofs::Puts::put_put, crate::proofs::Puts::put_nil))]
fn show_values(writer: &mut TokenWriter, name: &Name) -> Result<(), NoMemory>
    ensures { OnOk result (writer.new ≡ put writer.old (with_values name.now [])) }
{
    writer.word(b"PARTITION")?;
    writer.name(name)?;
    writer.word(b"VALUES")?;
    Ok(())
}

/// Adds a partition.
#[tactic(auto, using(crate::proofs::Puts::put_put, crate::proofs::Puts::put_nil), unfolding(crate::specs::ShownCreate::part_tokens))]
pub fn show_part(writer: &mut TokenWriter, part: &Part) -> Result<(), NoMemory>
    ensures { OnOk result (writer.new ≡ put writer.old (part_tokens part.now)) }
{
    show_values(writer, &part.name)?;
    show_bounds(writer, &part.bounds)?;
    Ok(())
}

impl ShowTokens for Part {
    ghost shown = { part_tokens };

    fn show(&self, writer: &mut TokenWriter) -> Result<(), NoMemory> {
        show_part(writer, self)
    }
}

// Adds PARTITION BY RANGE and the column.
#[tactic(auto, using(crate::proofs::Puts::put_put, crate::proofs::Puts::put_nil))]
fn show_by_range(writer: &mut TokenWriter, column: &Name) -> Result<(), NoMemory>
    ensures { OnOk result (writer.new ≡ put writer.old (by_range column.now [])) }
{
    writer.word(b"PARTITION")?;
    writer.word(b"BY")?;
    writer.word(b"RANGE")?;
    writer.sign(Sign::Open)?;
    writer.name(column)?;
    writer.sign(Sign::Close)?;
    Ok(())
}

#[tactic(auto, using(crate::proofs::Puts::put_put, crate::proofs::Puts::put_nil), unfolding(crate::specs::ShownCreate::ranges_tokens))]
fn show_ranges(writer: &mut TokenWriter, ranges: &Ranges) -> Result<(), NoMemory>
    ensures { OnOk result (writer.new ≡ put writer.old (ranges_tokens ranges.now)) }
{
    show_by_range(writer, &ranges.column)?;
    writer.sign(Sign::Open)?;
    show_list(writer, Separator::Comma, ranges.parts.as_slice())?;
    writer.sign(Sign::Close)?;
    Ok(())
}

#[tactic(auto, using(crate::proofs::Puts::put_put, crate::proofs::Puts::put_nil), unfolding(crate::specs::Parts::maybe))]
fn show_some_ranges(writer: &mut TokenWriter, ranges: &Option<Ranges>) -> Result<(), NoMemory>
    ensures { OnOk result (writer.new ≡ put writer.old (maybe ranges_tokens ranges.now)) }
{
    match ranges {
        None => Ok(()),
        Some(ranges) => show_ranges(writer, ranges),
    }
}

#[tactic(auto, using(crate::proofs::Puts::put_put, crate::proofs::Puts::put_nil), unfolding(crate::specs::ShownCreate::distributed_tokens))]
fn show_distributed(writer: &mut TokenWriter, columns: &[Name]) -> Result<(), NoMemory>
    ensures { OnOk result (writer.new ≡ put writer.old (distributed_tokens columns.now)) }
{
    writer.word(b"DISTRIBUTED")?;
    writer.word(b"BY")?;
    writer.word(b"HASH")?;
    show_names(writer, columns)?;
    Ok(())
}

#[tactic(auto, using(crate::proofs::Puts::put_put, crate::proofs::Puts::put_nil), unfolding(crate::specs::Parts::maybe, crate::specs::ShownCreate::buckets_tokens))]
fn show_buckets(writer: &mut TokenWriter, buckets: Option<u64>) -> Result<(), NoMemory>
    ensures { OnOk result (writer.new ≡ put writer.old (maybe buckets_tokens buckets)) }
{
    match buckets {
        None => Ok(()),
        Some(buckets) => {
            writer.word(b"BUCKETS")?;
            writer.count(buckets)?;
            Ok(())
        }
    }
}

impl ShowTokens for Property {
    ghost shown = { property_tokens };

    #[tactic(auto, using(crate::proofs::Puts::put_put, crate::proofs::Puts::put_nil), unfolding(crate::specs::ShownCreate::property_tokens))]
    fn show(&self, writer: &mut TokenWriter) -> Result<(), NoMemory> {
        writer.string(&self.name)?;
        writer.sign(Sign::Equal)?;
        writer.string(&self.value)?;
        Ok(())
    }
}

#[tactic(auto, using(crate::proofs::Puts::put_put, crate::proofs::Puts::put_nil), unfolding(crate::specs::ShownCreate::properties_tokens))]
fn show_properties(writer: &mut TokenWriter, properties: &[Property]) -> Result<(), NoMemory>
    ensures { OnOk result (writer.new ≡ put writer.old (properties_tokens properties.now)) }
{
    if properties.is_empty() {
        return Ok(());
    }
    writer.word(b"PROPERTIES")?;
    writer.sign(Sign::Open)?;
    show_list(writer, Separator::Comma, properties)?;
    writer.sign(Sign::Close)?;
    Ok(())
}

// Adds what stands behind the columns.
#[tactic(auto, using(crate::proofs::Puts::put_put, crate::proofs::Puts::put_nil), unfolding(crate::specs::ShownCreate::definition_end))]
fn show_definition_end(writer: &mut TokenWriter, def: &TableDef) -> Result<(), NoMemory>
    ensures { OnOk result (writer.new ≡ put writer.old (definition_end def.now)) }
{
    show_some_key(writer, &def.key)?;
    show_some_ranges(writer, &def.ranges)?;
    show_distributed(writer, def.hash.as_slice())?;
    show_buckets(writer, def.buckets)?;
    show_properties(writer, def.properties.as_slice())?;
    Ok(())
}

#[tactic(auto, using(crate::proofs::Puts::put_put, crate::proofs::Puts::put_nil), unfolding(crate::specs::ShownCreate::definition_tokens))]
fn show_definition(writer: &mut TokenWriter, def: &TableDef) -> Result<(), NoMemory>
    ensures { OnOk result (writer.new ≡ put writer.old (definition_tokens def.now)) }
{
    writer.sign(Sign::Open)?;
    show_list(writer, Separator::Comma, def.columns.as_slice())?;
    writer.sign(Sign::Close)?;
    show_definition_end(writer, def)?;
    Ok(())
}

/// Adds CREATE TABLE.
#[tactic(auto, using(crate::proofs::Puts::put_put, crate::proofs::Puts::put_nil), unfolding(crate::specs::ShownCreate::create_table_tokens))]
pub fn show_create_table(
    writer: &mut TokenWriter,
    quiet: bool,
    name: &Name,
    def: &TableDef,
) -> Result<(), NoMemory>
    ensures { OnOk result (writer.new ≡ put writer.old (create_table_tokens quiet name.now def.now)) }
{
    writer.word(b"CREATE")?;
    writer.word(b"TABLE")?;
    show_if_not_exists(writer, quiet)?;
    writer.name(name)?;
    show_definition(writer, def)?;
    Ok(())
}

/// Adds DROP TABLE.
#[tactic(auto, using(crate::proofs::Puts::put_put, crate::proofs::Puts::put_nil), unfolding(crate::specs::ShownCreate::drop_table_tokens))]
pub fn show_drop_table(writer: &mut TokenWriter, quiet: bool, name: &Name) -> Result<(), NoMemory>
    ensures { OnOk result (writer.new ≡ put writer.old (drop_table_tokens quiet name.now)) }
{
    writer.word(b"DROP")?;
    writer.word(b"TABLE")?;
    show_if_exists(writer, quiet)?;
    writer.name(name)?;
    Ok(())
}
