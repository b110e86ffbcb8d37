// The names and types of the columns of an answer.
ghost use Rattle.std.specs.Prelude.{◌≡◌, ◌++◌, ◌∷◌, [], IfOk, OnOk, map};
ghost use Rattle.dl_values.specs.declared.col_type.ColType.TheVariants as kind;
ghost use Rattle.select_defs.specs.Columns as columns;
ghost use Rattle.select_defs.specs.Items as items;

use crate::columns::kind_named;
use dl_values::{ColType, Name, NoMemory, Text};
use itoa::Buffer;
use schema_models::Shape;
use sql_text::{AggFn, Item};
use std::alloc::Global;

fn function_word(function: AggFn) -> &'static [u8]
    ensures { result.now ≡ items.function_word function }
{
    match function {
        AggFn::Sum => b"sum",
        AggFn::Min => b"min",
        AggFn::Max => b"max",
        AggFn::Count => b"count",
    }
}

// A word with a text in parentheses.
fn add_called(out: &mut Vec<u8>, word: &[u8], inside: &[u8]) -> Result<(), NoMemory>
    ensures { OnOk result (out.new.items ≡ out.old.items ++ (word.now ++ 40 ∷ [] ++ inside.now ++ 41 ∷ [])) }
{
    out.extend_from_slice(word)?;
    out.push(b'(')?;
    out.extend_from_slice(inside)?;
    out.push(b')')?;
    Ok(())
}

/// The bytes of the name of an item in an answer.
pub fn output_bytes(alloc: Global, item: &Item) -> Result<Vec<u8>, NoMemory>
    ensures { IfOk result (λ v. v.items ≡ items.output_name item.now) }
{
    let mut out = Vec::new(alloc);
    match item {
        Item::Column(name) => out.extend_from_slice(name.bytes())?,
        Item::Agg(function, name) => {
            add_called(&mut out, function_word(*function), name.bytes())?
        }
        Item::CountAll => out.extend_from_slice(b"count(*)")?,
    }
    Ok(out)
}

fn output_name(alloc: Global, item: &Item) -> Result<Text, NoMemory>
    ensures { IfOk result (λ t. t ≡ items.output_name item.now) }
{
    let bytes = output_bytes(alloc, item)?;
    Text::new(alloc, bytes.as_slice())
}

/// The names of the columns of an answer.
pub fn output_names(alloc: Global, list: &[Item]) -> Result<Vec<Text>, NoMemory>
    ensures { IfOk result (λ v. v.items ≡ map items.output_name list.now) }
{
    let mut all = Vec::with_capacity(alloc, list.len())?;
    for item in list {
        all.push(output_name(alloc, item)?)?;
    }
    Ok(all)
}

// The type of texts of at most so many bytes.
fn varchar_text(alloc: Global, most: u32) -> Result<Text, NoMemory>
    ensures { IfOk result (λ t. t ≡ items.type_text (kind.Varchar most)) }
{
    let mut digits = Buffer::new();
    let mut out = Vec::new(alloc);
    add_called(&mut out, b"VARCHAR", digits.format(most).as_bytes())?;
    Text::new(alloc, out.as_slice())
}

/// A type of a column as statements write it (Apache Doris documentation, "Data Types").
pub fn type_text(alloc: Global, kind: ColType) -> Result<Text, NoMemory>
    ensures { IfOk result (λ t. t ≡ items.type_text kind) }
{
    match kind {
        ColType::TinyInt => Text::new(alloc, b"TINYINT"),
        ColType::SmallInt => Text::new(alloc, b"SMALLINT"),
        ColType::Int => Text::new(alloc, b"INT"),
        ColType::BigInt => Text::new(alloc, b"BIGINT"),
        ColType::Date => Text::new(alloc, b"DATE"),
        ColType::Varchar(most) => varchar_text(alloc, most),
    }
}

fn column_type(alloc: Global, base: &Shape, name: &Name) -> Result<Text, NoMemory>
    ensures { IfOk result (λ t. t ≡ items.column_type (columns.kind_named base.now name.now)) }
{
    match kind_named(base, name) {
        Some(kind) => type_text(alloc, kind),
        None => Text::new(alloc, b""),
    }
}

fn output_type(alloc: Global, base: &Shape, item: &Item) -> Result<Text, NoMemory>
    ensures { IfOk result (λ t. t ≡ items.output_type base.now item.now) }
{
    match item {
        Item::Column(name) | Item::Agg(AggFn::Min | AggFn::Max, name) => {
            column_type(alloc, base, name)
        }
        Item::Agg(AggFn::Sum | AggFn::Count, _) | Item::CountAll => Text::new(alloc, b"BIGINT"),
    }
}

/// The types of the columns of an answer.
pub fn output_types(alloc: Global, base: &Shape, list: &[Item]) -> Result<Vec<Text>, NoMemory>
    ensures { IfOk result (λ v. v.items ≡ map (items.output_type base.now) list.now) }
{
    let mut all = Vec::with_capacity(alloc, list.len())?;
    for item in list {
        all.push(output_type(alloc, base, item)?)?;
    }
    Ok(all)
}
