// SHOW, DESC and ADMIN.
ghost use Rattle.std.specs.Prelude.{◌≡◌, OnOk};
ghost use Rattle.sql_text.specs.declared.stmt.TransactionKey.TheVariants as key;
ghost use Rattle.sql_print.specs.Steps.{put};
ghost use Rattle.sql_print.specs.ShownShow.{show_tables_tokens, show_partitions_tokens, show_alter_tokens, transaction_tokens, show_transaction_tokens, describe_tokens, task_word, admin_tokens, audit_drop_tokens};

use crate::TokenWriter;
use crate::alter::show_kind;
use dl_values::{Name, NoMemory, Text};
use sql_text::{AdminTask, AlterKind, TransactionKey};
use sql_tokens::Sign;

/// Adds SHOW TABLES.
#[tactic(auto, using(crate::proofs::Puts::put_put, crate::proofs::Puts::put_nil), unfolding(crate::specs::ShownShow::show_tables_tokens))]
pub fn show_tables(writer: &mut TokenWriter) -> Result<(), NoMemory>
    ensures { OnOk result (writer.new ≡ put writer.old (show_tables_tokens)) }
{
    writer.word(b"SHOW")?;
    writer.word(b"TABLES")?;
    Ok(())
}

/// Adds SHOW PARTITIONS.
#[tactic(auto, using(crate::proofs::Puts::put_put, crate::proofs::Puts::put_nil), unfolding(crate::specs::ShownShow::show_partitions_tokens))]
pub fn show_partitions(writer: &mut TokenWriter, table: &Name) -> Result<(), NoMemory>
    ensures { OnOk result (writer.new ≡ put writer.old (show_partitions_tokens table.now)) }
{
    writer.word(b"SHOW")?;
    writer.word(b"PARTITIONS")?;
    writer.word(b"FROM")?;
    writer.name(table)?;
    Ok(())
}

/// Adds SHOW ALTER TABLE.
#[tactic(auto, using(crate::proofs::Puts::put_put, crate::proofs::Puts::put_nil), unfolding(crate::specs::ShownShow::show_alter_tokens))]
pub fn show_alter(writer: &mut TokenWriter, jobs: AlterKind) -> Result<(), NoMemory>
    ensures { OnOk result (writer.new ≡ put writer.old (show_alter_tokens jobs)) }
{
    writer.word(b"SHOW")?;
    writer.word(b"ALTER")?;
    writer.word(b"TABLE")?;
    show_kind(writer, jobs)?;
    Ok(())
}

#[tactic(auto, using(crate::proofs::Puts::put_put, crate::proofs::Puts::put_nil), unfolding(crate::specs::ShownShow::transaction_tokens))]
fn show_id(writer: &mut TokenWriter, id: u64) -> Result<(), NoMemory>
    ensures { OnOk result (writer.new ≡ put writer.old (transaction_tokens (key.Id id))) }
{
    writer.word(b"ID")?;
    writer.sign(Sign::Equal)?;
    writer.count(id)?;
    Ok(())
}

#[tactic(auto, using(crate::proofs::Puts::put_put, crate::proofs::Puts::put_nil), unfolding(crate::specs::ShownShow::transaction_tokens))]
fn show_label(writer: &mut TokenWriter, label: &Text) -> Result<(), NoMemory>
    ensures { OnOk result (writer.new ≡ put writer.old (transaction_tokens (key.Label label.now))) }
{
    writer.word(b"LABEL")?;
    writer.sign(Sign::Equal)?;
    writer.string(label)?;
    Ok(())
}

#[tactic(auto, using(crate::proofs::Puts::put_put, crate::proofs::Puts::put_nil), unfolding(crate::specs::ShownShow::transaction_tokens))]
fn show_transaction_key(writer: &mut TokenWriter, by: &TransactionKey) -> Result<(), NoMemory>
    ensures { OnOk result (writer.new ≡ put writer.old (transaction_tokens by.now)) }
{
    match by {
        TransactionKey::Id(id) => show_id(writer, *id),
        TransactionKey::Label(label) => show_label(writer, label),
    }
}

/// Adds SHOW TRANSACTION.
#[tactic(auto, using(crate::proofs::Puts::put_put, crate::proofs::Puts::put_nil), unfolding(crate::specs::ShownShow::show_transaction_tokens))]
pub fn show_transaction(writer: &mut TokenWriter, by: &TransactionKey) -> Result<(), NoMemory>
    ensures { OnOk result (writer.new ≡ put writer.old (show_transaction_tokens by.now)) }
{
    writer.word(b"SHOW")?;
    writer.word(b"TRANSACTION")?;
    writer.word(b"WHERE")?;
    show_transaction_key(writer, by)?;
    Ok(())
}

/// Adds DESC.
#[tactic(auto, using(crate::proofs::Puts::put_put, crate::proofs::Puts::put_nil), unfolding(crate::specs::ShownShow::describe_tokens))]
pub fn show_describe(writer: &mut TokenWriter, table: &Name) -> Result<(), NoMemory>
    ensures { OnOk result (writer.new ≡ put writer.old (describe_tokens table.now)) }
{
    writer.word(b"DESC")?;
    writer.name(table)?;
    writer.word(b"ALL")?;
    Ok(())
}

#[tactic(auto, unfolding(crate::specs::ShownShow::task_word))]
fn task_word(task: AdminTask) -> &'static [u8]
    ensures { result.now ≡ task_word task }
{
    match task {
        AdminTask::Publish => b"PUBLISH",
        AdminTask::Advance => b"ADVANCE",
        AdminTask::Convert => b"CONVERT",
        AdminTask::Sweep => b"SWEEP",
        AdminTask::Compact => b"COMPACT",
        AdminTask::Checkpoint => b"CHECKPOINT",
        AdminTask::Restart => b"RESTART",
    }
}

/// Adds ADMIN with a task.
#[tactic(auto, using(crate::proofs::Puts::put_put, crate::proofs::Puts::put_nil), unfolding(crate::specs::ShownShow::admin_tokens))]
pub fn show_admin(writer: &mut TokenWriter, task: AdminTask) -> Result<(), NoMemory>
    ensures { OnOk result (writer.new ≡ put writer.old (admin_tokens task)) }
{
    writer.word(b"ADMIN")?;
    writer.word(task_word(task))?;
    Ok(())
}

/// Adds ADMIN AUDIT DROP.
#[tactic(auto, using(crate::proofs::Puts::put_put, crate::proofs::Puts::put_nil), unfolding(crate::specs::ShownShow::audit_drop_tokens))]
pub fn show_audit_drop(writer: &mut TokenWriter, place: u64) -> Result<(), NoMemory>
    ensures { OnOk result (writer.new ≡ put writer.old (audit_drop_tokens place)) }
{
    writer.word(b"ADMIN")?;
    writer.word(b"AUDIT")?;
    writer.word(b"DROP")?;
    writer.count(place)?;
    Ok(())
}
