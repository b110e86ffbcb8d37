// Parts that many statements have.
ghost use Rattle.std.specs.Prelude.{◌≡◌, OnOk};
ghost use Rattle.sql_text.specs.declared.table_def.ColumnType.TheVariants as type;
ghost use Rattle.sql_print.specs.Steps.{put};
ghost use Rattle.sql_print.specs.Parts.{maybe, names, literal_tokens, type_tokens, agg_word, agg_tokens, nullable_tokens, default_tokens};

use crate::TokenWriter;
use crate::lists::{Separator, show_list};
use dl_values::{AggKind, Name, NoMemory};
use sql_text::{ColumnType, DefaultText, Literal};
use sql_tokens::Sign;

/// Adds names in parentheses.
#[tactic(auto, using(crate::proofs::Puts::put_put, crate::proofs::Puts::put_nil), unfolding(crate::specs::Parts::names))]
pub fn show_names(writer: &mut TokenWriter, columns: &[Name]) -> Result<(), NoMemory>
    ensures { OnOk result (writer.new ≡ put writer.old (names columns.now)) }
{
    writer.sign(Sign::Open)?;
    show_list(writer, Separator::Comma, columns)?;
    writer.sign(Sign::Close)?;
    Ok(())
}

/// Adds a literal.
#[tactic(auto, using(crate::proofs::Puts::put_put, crate::proofs::Puts::put_nil), unfolding(crate::specs::Parts::literal_tokens))]
pub fn show_literal(writer: &mut TokenWriter, literal: &Literal) -> Result<(), NoMemory>
    ensures { OnOk result (writer.new ≡ put writer.old (literal_tokens literal.now)) }
{
    match literal {
        Literal::Int(value) => writer.integer(*value),
        Literal::Text(text) => writer.string(text),
    }
}

// Adds the type of texts of at most so many bytes.
#[tactic(auto, using(crate::proofs::Puts::put_put, crate::proofs::Puts::put_nil), unfolding(crate::specs::Parts::type_tokens))]
fn show_varchar(writer: &mut TokenWriter, most: u64) -> Result<(), NoMemory>
    ensures { OnOk result (writer.new ≡ put writer.old (type_tokens (type.Varchar most))) }
{
    writer.word(b"VARCHAR")?;
    writer.sign(Sign::Open)?;
    writer.count(most)?;
    writer.sign(Sign::Close)?;
    Ok(())
}

/// Adds the type of a column.
#[tactic(auto, using(crate::proofs::Puts::put_put, crate::proofs::Puts::put_nil), unfolding(crate::specs::Parts::type_tokens))]
pub fn show_type(writer: &mut TokenWriter, column_type: ColumnType) -> Result<(), NoMemory>
    ensures { OnOk result (writer.new ≡ put writer.old (type_tokens column_type)) }
{
    match column_type {
        ColumnType::TinyInt => writer.word(b"TINYINT"),
        ColumnType::SmallInt => writer.word(b"SMALLINT"),
        ColumnType::Int => writer.word(b"INT"),
        ColumnType::BigInt => writer.word(b"BIGINT"),
        ColumnType::Date => writer.word(b"DATE"),
        ColumnType::Varchar(most) => show_varchar(writer, most),
    }
}

#[tactic(auto, unfolding(crate::specs::Parts::agg_word))]
fn agg_word(agg: AggKind) -> &'static [u8]
    ensures { result.now ≡ agg_word agg }
{
    match agg {
        AggKind::Sum => b"SUM",
        AggKind::Min => b"MIN",
        AggKind::Max => b"MAX",
        AggKind::Replace => b"REPLACE",
        AggKind::ReplaceIfNotNull => b"REPLACE_IF_NOT_NULL",
    }
}

/// Adds the aggregate of a column that has one.
#[tactic(auto, using(crate::proofs::Puts::put_put, crate::proofs::Puts::put_nil), unfolding(crate::specs::Parts::maybe, crate::specs::Parts::agg_tokens))]
pub fn show_some_agg(writer: &mut TokenWriter, agg: Option<AggKind>) -> Result<(), NoMemory>
    ensures { OnOk result (writer.new ≡ put writer.old (maybe agg_tokens agg)) }
{
    match agg {
        None => Ok(()),
        Some(agg) => writer.word(agg_word(agg)),
    }
}

/// Adds NOT NULL where a column takes no null.
#[tactic(auto, using(crate::proofs::Puts::put_put, crate::proofs::Puts::put_nil), unfolding(crate::specs::Parts::nullable_tokens))]
pub fn show_nullable(writer: &mut TokenWriter, nullable: bool) -> Result<(), NoMemory>
    ensures { OnOk result (writer.new ≡ put writer.old (nullable_tokens nullable)) }
{
    if !nullable {
        writer.word(b"NOT")?;
        writer.word(b"NULL")?;
    }
    Ok(())
}

#[tactic(auto, using(crate::proofs::Puts::put_put, crate::proofs::Puts::put_nil), unfolding(crate::specs::Parts::default_tokens))]
fn show_default(writer: &mut TokenWriter, default: &DefaultText) -> Result<(), NoMemory>
    ensures { OnOk result (writer.new ≡ put writer.old (default_tokens default.now)) }
{
    writer.word(b"DEFAULT")?;
    match default {
        DefaultText::Null => {
            writer.word(b"NULL")?;
            Ok(())
        }
        DefaultText::Value(literal) => {
            show_literal(writer, literal)?;
            Ok(())
        }
    }
}

/// Adds the default of a column that has one.
#[tactic(auto, using(crate::proofs::Puts::put_put, crate::proofs::Puts::put_nil), unfolding(crate::specs::Parts::maybe))]
pub fn show_some_default(
    writer: &mut TokenWriter,
    default: &Option<DefaultText>,
) -> Result<(), NoMemory>
    ensures { OnOk result (writer.new ≡ put writer.old (maybe default_tokens default.now)) }
{
    match default {
        None => Ok(()),
        Some(default) => show_default(writer, default),
    }
}
