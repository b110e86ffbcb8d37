// ALTER TABLE.
ghost use Rattle.std.specs.Prelude.{◌≡◌, [], OnOk, codes};
ghost use Rattle.sql_text.specs.declared.clause.Clause.TheVariants as clause;
ghost use Rattle.sql_print.specs.Steps.{put};
ghost use Rattle.sql_print.specs.Parts.{maybe, when, keyword};
ghost use Rattle.sql_print.specs.ShownAlter.{altered_tokens, place_tokens, clause_tokens, alter_tokens, add_partition_tokens, rollup_tokens, add_rollup_tokens, clauses_tokens, kind_tokens, cancel_tokens};

use crate::TokenWriter;
use crate::create::show_part;
use crate::lists::{Separator, ShowTokens, show_list};
use crate::parts::{show_names, show_nullable, show_some_agg, show_some_default, show_type};
use dl_values::{Name, NoMemory};
use sql_text::{AlterKind, AlteredColumn, Clause, ColumnPlace, Part};

#[tactic(auto, using(crate::proofs::Puts::put_put, crate::proofs::Puts::put_nil), unfolding(crate::specs::Parts::when))]
fn show_key(writer: &mut TokenWriter, key: bool) -> Result<(), NoMemory>
    ensures { OnOk result (writer.new ≡ put writer.old (when key (keyword (codes "KEY")))) }
{
    if key {
        return writer.word(b"KEY");
    }
    Ok(())
}

#[tactic(auto, using(crate::proofs::Puts::put_put, crate::proofs::Puts::put_nil), unfolding(crate::specs::ShownAlter::altered_tokens))]
fn show_altered(writer: &mut TokenWriter, column: &AlteredColumn) -> Result<(), NoMemory>
    ensures { OnOk result (writer.new ≡ put writer.old (altered_tokens column.now)) }
{
    writer.name(&column.name)?;
    show_type(writer, column.kind)?;
    show_key(writer, column.key)?;
    show_some_agg(writer, column.agg)?;
    show_nullable(writer, column.nullable)?;
    show_some_default(writer, &column.default)?;
    Ok(())
}

#[tactic(auto, using(crate::proofs::Puts::put_put, crate::proofs::Puts::put_nil), unfolding(crate::specs::ShownAlter::place_tokens))]
fn show_place(writer: &mut TokenWriter, place: &ColumnPlace) -> Result<(), NoMemory>
    ensures { OnOk result (writer.new ≡ put writer.old (place_tokens place.now)) }
{
    match place {
        ColumnPlace::First => {
            writer.word(b"FIRST")?;
            Ok(())
        }
        ColumnPlace::After(name) => {
            writer.word(b"AFTER")?;
            writer.name(name)?;
            Ok(())
        }
    }
}

#[tactic(auto, using(crate::proofs::Puts::put_put, crate::proofs::Puts::put_nil), unfolding(crate::specs::Parts::maybe))]
fn show_some_place(writer: &mut TokenWriter, place: &Option<ColumnPlace>) -> Result<(), NoMemory>
    ensures { OnOk result (writer.new ≡ put writer.old (maybe place_tokens place.now)) }
{
    match place {
        None => Ok(()),
        Some(place) => show_place(writer, place),
    }
}

#[tactic(auto, using(crate::proofs::Puts::put_put, crate::proofs::Puts::put_nil), unfolding(crate::specs::ShownAlter::clause_tokens))]
fn show_add(
    writer: &mut TokenWriter,
    column: &AlteredColumn,
    place: &Option<ColumnPlace>,
) -> Result<(), NoMemory>
    ensures { OnOk result (writer.new ≡ put writer.old (clause_tokens (clause.Add column.now place.now))) }
{
    writer.word(b"ADD")?;
    writer.word(b"COLUMN")?;
    show_altered(writer, column)?;
    show_some_place(writer, place)?;
    Ok(())
}

#[tactic(auto, using(crate::proofs::Puts::put_put, crate::proofs::Puts::put_nil), unfolding(crate::specs::ShownAlter::clause_tokens))]
fn show_drop(writer: &mut TokenWriter, name: &Name) -> Result<(), NoMemory>
    ensures { OnOk result (writer.new ≡ put writer.old (clause_tokens (clause.Drop name.now))) }
{
    writer.word(b"DROP")?;
    writer.word(b"COLUMN")?;
    writer.name(name)?;
    Ok(())
}

#[tactic(auto, using(crate::proofs::Puts::put_put, crate::proofs::Puts::put_nil), unfolding(crate::specs::ShownAlter::clause_tokens))]
fn show_modify(writer: &mut TokenWriter, column: &AlteredColumn) -> Result<(), NoMemory>
    ensures { OnOk result (writer.new ≡ put writer.old (clause_tokens (clause.Modify column.now))) }
{
    writer.word(b"MODIFY")?;
    writer.word(b"COLUMN")?;
    show_altered(writer, column)?;
    Ok(())
}

#[tactic(auto, using(crate::proofs::Puts::put_put, crate::proofs::Puts::put_nil), unfolding(crate::specs::ShownAlter::clause_tokens))]
fn show_order(writer: &mut TokenWriter, columns: &[Name]) -> Result<(), NoMemory>
    ensures { OnOk result (writer.new ≡ put writer.old (clause_tokens (clause.Order columns.now))) }
{
    writer.word(b"ORDER")?;
    writer.word(b"BY")?;
    show_names(writer, columns)?;
    Ok(())
}

#[tactic(auto, using(crate::proofs::Puts::put_put, crate::proofs::Puts::put_nil), unfolding(crate::specs::ShownAlter::clause_tokens))]
fn show_clause(writer: &mut TokenWriter, change: &Clause) -> Result<(), NoMemory>
    ensures { OnOk result (writer.new ≡ put writer.old (clause_tokens change.now)) }
{
    match change {
        Clause::Add(column, place) => show_add(writer, column, place),
        Clause::Drop(name) => show_drop(writer, name),
        Clause::Modify(column) => show_modify(writer, column),
        Clause::Order(columns) => show_order(writer, columns.as_slice()),
    }
}

impl ShowTokens for Clause {
    ghost shown = { clause_tokens };

    fn show(&self, writer: &mut TokenWriter) -> Result<(), NoMemory> {
        show_clause(writer, self)
    }
}

// Adds ALTER TABLE and the name of the table.
#[tactic(auto, using(crate::proofs::Puts::put_put, crate::proofs::Puts::put_nil))]
fn show_alter_table(writer: &mut TokenWriter, table: &Name) -> Result<(), NoMemory>
    ensures { OnOk result (writer.new ≡ put writer.old (alter_tokens table.now [])) }
{
    writer.word(b"ALTER")?;
    writer.word(b"TABLE")?;
    writer.name(table)?;
    Ok(())
}

/// Adds ALTER TABLE with a partition.
#[tactic(auto, using(crate::proofs::Puts::put_put, crate::proofs::Puts::put_nil), unfolding(crate::specs::ShownAlter::add_partition_tokens))]
pub fn show_add_partition(
    writer: &mut TokenWriter,
    table: &Name,
    part: &Part,
) -> Result<(), NoMemory>
    ensures { OnOk result (writer.new ≡ put writer.old (add_partition_tokens table.now part.now)) }
{
    show_alter_table(writer, table)?;
    writer.word(b"ADD")?;
    show_part(writer, part)?;
    Ok(())
}

#[tactic(auto, using(crate::proofs::Puts::put_put, crate::proofs::Puts::put_nil), unfolding(crate::specs::ShownAlter::rollup_tokens))]
fn show_rollup(writer: &mut TokenWriter, name: &Name, columns: &[Name]) -> Result<(), NoMemory>
    ensures { OnOk result (writer.new ≡ put writer.old (rollup_tokens name.now columns.now)) }
{
    writer.word(b"ADD")?;
    writer.word(b"ROLLUP")?;
    writer.name(name)?;
    show_names(writer, columns)?;
    Ok(())
}

/// Adds ALTER TABLE with a rollup.
#[tactic(auto, using(crate::proofs::Puts::put_put, crate::proofs::Puts::put_nil), unfolding(crate::specs::ShownAlter::add_rollup_tokens))]
pub fn show_add_rollup(
    writer: &mut TokenWriter,
    table: &Name,
    name: &Name,
    columns: &[Name],
) -> Result<(), NoMemory>
    ensures { OnOk result (writer.new ≡ put writer.old (add_rollup_tokens table.now name.now columns.now)) }
{
    show_alter_table(writer, table)?;
    show_rollup(writer, name, columns)?;
    Ok(())
}

/// Adds ALTER TABLE with changes of its columns.
#[tactic(auto, using(crate::proofs::Puts::put_put, crate::proofs::Puts::put_nil), unfolding(crate::specs::ShownAlter::clauses_tokens))]
pub fn show_clauses(
    writer: &mut TokenWriter,
    table: &Name,
    clauses: &[Clause],
) -> Result<(), NoMemory>
    ensures { OnOk result (writer.new ≡ put writer.old (clauses_tokens table.now clauses.now)) }
{
    show_alter_table(writer, table)?;
    show_list(writer, Separator::Comma, clauses)?;
    Ok(())
}

/// Adds the word for a kind of alter jobs.
#[tactic(auto, using(crate::proofs::Puts::put_put, crate::proofs::Puts::put_nil), unfolding(crate::specs::ShownAlter::kind_tokens))]
pub fn show_kind(writer: &mut TokenWriter, jobs: AlterKind) -> Result<(), NoMemory>
    ensures { OnOk result (writer.new ≡ put writer.old (kind_tokens jobs)) }
{
    match jobs {
        AlterKind::Column => writer.word(b"COLUMN"),
        AlterKind::Rollup => writer.word(b"ROLLUP"),
    }
}

/// Adds CANCEL ALTER TABLE.
#[tactic(auto, using(crate::proofs::Puts::put_put, crate::proofs::Puts::put_nil), unfolding(crate::specs::ShownAlter::cancel_tokens))]
pub fn show_cancel(writer: &mut TokenWriter, jobs: AlterKind, table: &Name) -> Result<(), NoMemory>
    ensures { OnOk result (writer.new ≡ put writer.old (cancel_tokens jobs table.now)) }
{
    writer.word(b"CANCEL")?;
    writer.word(b"ALTER")?;
    writer.word(b"TABLE")?;
    show_kind(writer, jobs)?;
    writer.word(b"FROM")?;
    writer.name(table)?;
    Ok(())
}
