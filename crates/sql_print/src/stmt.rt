// The text of a statement.
ghost use Rattle.std.specs.Prelude.{◌≡◌, ℕ, List, OnOk, IfOk, string_bytes};
ghost use Rattle.sql_print.specs.Steps.{put};
ghost use Rattle.sql_print.specs.Shown.{shown};
ghost use Rattle.sql_print.specs.TextOf.{IsTextOf};
ghost use Rattle.sql_text.specs.Statements.{Spells};
ghost use Rattle.std.specs.Str.{IsUtf8};

use crate::TokenWriter;
use crate::alter::{show_add_partition, show_add_rollup, show_cancel, show_clauses};
use crate::create::{show_create_database, show_create_table, show_drop_table};
use crate::select::show_query;
use crate::show::{
    show_admin, show_alter, show_audit_drop, show_describe, show_partitions, show_tables,
    show_transaction,
};
use dl_values::NoMemory;
use sql_text::Stmt;
use std::alloc::Global;

// Adds a statement.
#[tactic(auto, unfolding(crate::specs::Shown::shown))]
fn show_stmt(writer: &mut TokenWriter, stmt: &Stmt) -> Result<(), NoMemory>
    ensures { OnOk result (writer.new ≡ put writer.old (shown stmt.now)) }
{
    match stmt {
        Stmt::CreateDatabase {
            if_not_exists,
            name,
        } => show_create_database(writer, *if_not_exists, name),
        Stmt::CreateTable {
            if_not_exists,
            name,
            def,
        } => show_create_table(writer, *if_not_exists, name, def),
        Stmt::DropTable { if_exists, name } => show_drop_table(writer, *if_exists, name),
        Stmt::AddPartition { table, part } => show_add_partition(writer, table, part),
        Stmt::AddRollup {
            table,
            name,
            columns,
        } => show_add_rollup(writer, table, name, columns.as_slice()),
        Stmt::Alter { table, clauses } => show_clauses(writer, table, clauses.as_slice()),
        Stmt::CancelAlter { kind, table } => show_cancel(writer, *kind, table),
        Stmt::ShowTables => show_tables(writer),
        Stmt::ShowPartitions { table } => show_partitions(writer, table),
        Stmt::Describe { table } => show_describe(writer, table),
        Stmt::ShowAlter { kind } => show_alter(writer, *kind),
        Stmt::ShowTransaction { by } => show_transaction(writer, by),
        Stmt::Select(query) => show_query(writer, query),
        Stmt::Admin(task) => show_admin(writer, *task),
        Stmt::AuditDrop { place } => show_audit_drop(writer, *place),
    }
}

/// The text of a statement, without `;`. Where some text has the statement, this one has it again.
pub fn print_stmt(alloc: Global, stmt: &Stmt) -> Result<String, NoMemory>
    ensures text { IfOk result (λ s. IsTextOf (shown stmt.now) (string_bytes s)) }
    ensures again { (text : List ℕ) → IsUtf8 text → Spells stmt.now text → IfOk result (λ s. Spells stmt.now (string_bytes s)) }
{
    let mut writer = TokenWriter::new(alloc);
    show_stmt(&mut writer, stmt)?;
    writer.finish(alloc)
}
