// Reading SHOW, DESC and ADMIN.
ghost use Rattle.sql_grammar.specs.Reading.{Gives};
ghost use Rattle.sql_text.specs.ReadShow.{partitions_at, alter_jobs_at, id_at, key_at, show_transaction_at, shown_at, described_at, task_at, audit_at, admin_at};

use crate::alter::alter_kind;
use crate::stmt::{AdminTask, Stmt, TransactionKey};
use sql_grammar::{Stop, after_word, count, name, sign, text, word};
use sql_tokens::{Sign, Token};
use std::alloc::Global;

// What stands behind SHOW PARTITIONS.
#[tactic(auto, unfolding(crate::specs::ReadShow::partitions_at))]
fn partitions(alloc: Global, tokens: &[Token]) -> Result<(Stmt, &[Token]), Stop>
    ensures { Gives (λ x. (x.0, x.1.now)) result (partitions_at tokens.now) }
{
    let rest = word(tokens, b"FROM")?;
    let (table, rest) = name(alloc, rest)?;
    Ok((Stmt::ShowPartitions { table }, rest))
}

// What stands behind SHOW ALTER.
#[tactic(auto, unfolding(crate::specs::ReadShow::alter_jobs_at))]
fn alter_jobs(tokens: &[Token]) -> Result<(Stmt, &[Token]), Stop>
    ensures { Gives (λ x. (x.0, x.1.now)) result (alter_jobs_at tokens.now) }
{
    let rest = word(tokens, b"TABLE")?;
    let (kind, rest) = alter_kind(rest)?;
    Ok((Stmt::ShowAlter { kind }, rest))
}

// What stands behind ID.
#[tactic(auto, unfolding(crate::specs::ReadShow::id_at))]
fn id(tokens: &[Token]) -> Result<(TransactionKey, &[Token]), Stop>
    ensures { Gives (λ x. (x.0, x.1.now)) result (id_at tokens.now) }
{
    let rest = sign(tokens, Sign::Equal)?;
    let (id, rest) = count(rest)?;
    Ok((TransactionKey::Id(id), rest))
}

#[tactic(auto, unfolding(crate::specs::ReadShow::key_at, crate::specs::ReadShow::by_id_at, crate::specs::ReadShow::by_label_at))]
fn transaction_key(alloc: Global, tokens: &[Token]) -> Result<(TransactionKey, &[Token]), Stop>
    ensures { Gives (λ x. (x.0, x.1.now)) result (key_at tokens.now) }
{
    if let Some(rest) = after_word(tokens, b"ID") {
        return id(rest);
    }
    let rest = word(tokens, b"LABEL")?;
    let rest = sign(rest, Sign::Equal)?;
    let (label, rest) = text(alloc, rest)?;
    Ok((TransactionKey::Label(label), rest))
}

#[tactic(auto, unfolding(crate::specs::ReadShow::show_transaction_at))]
fn show_transaction(alloc: Global, tokens: &[Token]) -> Result<(Stmt, &[Token]), Stop>
    ensures { Gives (λ x. (x.0, x.1.now)) result (show_transaction_at tokens.now) }
{
    let rest = word(tokens, b"TRANSACTION")?;
    let rest = word(rest, b"WHERE")?;
    let (by, rest) = transaction_key(alloc, rest)?;
    Ok((Stmt::ShowTransaction { by }, rest))
}

/// What stands behind SHOW.
#[tactic(auto, unfolding(crate::specs::ReadShow::shown_at, crate::specs::ReadShow::show_partitions_at, crate::specs::ReadShow::show_alter_at))]
pub fn shown(alloc: Global, tokens: &[Token]) -> Result<(Stmt, &[Token]), Stop>
    ensures { Gives (λ x. (x.0, x.1.now)) result (shown_at tokens.now) }
{
    if let Some(rest) = after_word(tokens, b"TABLES") {
        return Ok((Stmt::ShowTables, rest));
    }
    if let Some(rest) = after_word(tokens, b"PARTITIONS") {
        return partitions(alloc, rest);
    }
    if let Some(rest) = after_word(tokens, b"ALTER") {
        return alter_jobs(rest);
    }
    show_transaction(alloc, tokens)
}

/// What stands behind DESC.
#[tactic(auto, unfolding(crate::specs::ReadShow::described_at))]
pub fn described(alloc: Global, tokens: &[Token]) -> Result<(Stmt, &[Token]), Stop>
    ensures { Gives (λ x. (x.0, x.1.now)) result (described_at tokens.now) }
{
    let (table, rest) = name(alloc, tokens)?;
    let rest = word(rest, b"ALL")?;
    Ok((Stmt::Describe { table }, rest))
}

#[tactic(auto, unfolding(crate::specs::ReadShow::task_at))]
fn task(tokens: &[Token]) -> Result<(AdminTask, &[Token]), Stop>
    ensures { Gives (λ x. (x.0, x.1.now)) result (task_at tokens.now) }
{
    if let Some(rest) = after_word(tokens, b"PUBLISH") {
        return Ok((AdminTask::Publish, rest));
    }
    if let Some(rest) = after_word(tokens, b"ADVANCE") {
        return Ok((AdminTask::Advance, rest));
    }
    if let Some(rest) = after_word(tokens, b"CONVERT") {
        return Ok((AdminTask::Convert, rest));
    }
    if let Some(rest) = after_word(tokens, b"SWEEP") {
        return Ok((AdminTask::Sweep, rest));
    }
    if let Some(rest) = after_word(tokens, b"COMPACT") {
        return Ok((AdminTask::Compact, rest));
    }
    if let Some(rest) = after_word(tokens, b"CHECKPOINT") {
        return Ok((AdminTask::Checkpoint, rest));
    }
    let rest = word(tokens, b"RESTART")?;
    Ok((AdminTask::Restart, rest))
}

// What stands behind ADMIN AUDIT.
#[tactic(auto, unfolding(crate::specs::ReadShow::audit_at))]
fn audit(tokens: &[Token]) -> Result<(Stmt, &[Token]), Stop>
    ensures { Gives (λ x. (x.0, x.1.now)) result (audit_at tokens.now) }
{
    let rest = word(tokens, b"DROP")?;
    let (place, rest) = count(rest)?;
    Ok((Stmt::AuditDrop { place }, rest))
}

/// ADMIN and its task.
#[tactic(auto, unfolding(crate::specs::ReadShow::admin_at, crate::specs::ReadShow::audit_drop_at))]
pub fn admin(tokens: &[Token]) -> Result<(Stmt, &[Token]), Stop>
    ensures { Gives (λ x. (x.0, x.1.now)) result (admin_at tokens.now) }
{
    let rest = word(tokens, b"ADMIN")?;
    if let Some(rest) = after_word(rest, b"AUDIT") {
        return audit(rest);
    }
    let (task, rest) = task(rest)?;
    Ok((Stmt::Admin(task), rest))
}
