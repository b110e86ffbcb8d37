// The texts of refusals.
ghost use Rattle.std.specs.Prelude.{◌≡◌, ◌++◌, IfOk, OnOk};
ghost use Rattle.reply_texts.specs.Texts.{shape_text, layout_text, def_text, admit_text, alter_text, refusal_text};

use crate::piece::{add_number, add_texts};
use crate::words::{job_word, state_word};
use dl_values::{NoMemory, Text};
use front_defs::{AlterError, Reply};
use labels::TxnState;
use partitions::LayoutError;
use row_map::AdmitError;
use schema_models::ShapeError;
use std::alloc::Global;
use table_defs::DefError;

fn add_shape(out: &mut Vec<u8>, error: ShapeError) -> Result<(), NoMemory>
    ensures { OnOk result (out.new.items ≡ out.old.items ++ shape_text error) }
{
    match error {
        ShapeError::TooManyColumns { limit } => add_number(out, b"TooManyColumns limit=", limit),
        ShapeError::BadName { column } => add_number(out, b"BadName column=", column),
        ShapeError::DoubleName { column } => add_number(out, b"DoubleName column=", column),
        ShapeError::BadType { column } => add_number(out, b"BadType column=", column),
        ShapeError::NoKey { column } => add_number(out, b"NoKey column=", column),
        ShapeError::KeyAfterValue { column } => add_number(out, b"KeyAfterValue column=", column),
        ShapeError::BadAgg { column } => add_number(out, b"BadAgg column=", column),
        ShapeError::BadDefault { column } => add_number(out, b"BadDefault column=", column),
    }
}

fn add_layout(out: &mut Vec<u8>, error: &LayoutError) -> Result<(), NoMemory>
    ensures { OnOk result (out.new.items ≡ out.old.items ++ layout_text error.now) }
{
    match error {
        LayoutError::NotPartitioned => Ok(out.extend_from_slice(b"NotPartitioned")?),
        LayoutError::NoColumn { column } => add_texts(out, b"NoColumn column=", column.bytes()),
        LayoutError::NotAKey { column } => add_texts(out, b"NotAKey column=", column.bytes()),
        LayoutError::BadBuckets => Ok(out.extend_from_slice(b"BadBuckets")?),
        LayoutError::BadBound { partition } => {
            add_texts(out, b"BadBound partition=", partition.bytes())
        }
        LayoutError::BadName { partition } => {
            add_texts(out, b"BadName partition=", partition.bytes())
        }
        LayoutError::DoubleName { partition } => {
            add_texts(out, b"DoubleName partition=", partition.bytes())
        }
        LayoutError::Overlap { partition } => {
            add_texts(out, b"Overlap partition=", partition.bytes())
        }
        LayoutError::TooManyPartitions => Ok(out.extend_from_slice(b"TooManyPartitions")?),
        LayoutError::NoMemory => Ok(out.extend_from_slice(b"NoMemory")?),
    }
}

fn add_def(out: &mut Vec<u8>, error: &DefError) -> Result<(), NoMemory>
    ensures { OnOk result (out.new.items ≡ out.old.items ++ def_text error.now) }
{
    match error {
        DefError::Shape(error) => add_shape(out, *error),
        DefError::Layout(error) => add_layout(out, error),
        DefError::BadProperty => Ok(out.extend_from_slice(b"BadProperty")?),
        DefError::NoMemory => Ok(out.extend_from_slice(b"NoMemory")?),
    }
}

fn add_admit(out: &mut Vec<u8>, error: &AdmitError) -> Result<(), NoMemory>
    ensures { OnOk result (out.new.items ≡ out.old.items ++ admit_text error.now) }
{
    match error {
        AdmitError::NoColumn { column } => add_texts(out, b"NoColumn column=", column.bytes()),
        AdmitError::BadCast { column } => add_texts(out, b"BadCast column=", column.bytes()),
        AdmitError::SumType { column } => add_texts(out, b"SumType column=", column.bytes()),
        AdmitError::NeedsMonotone { column } => {
            add_texts(out, b"NeedsMonotone column=", column.bytes())
        }
        AdmitError::NeedsOneToOne { column } => {
            add_texts(out, b"NeedsOneToOne column=", column.bytes())
        }
        AdmitError::SumDefault { column } => add_texts(out, b"SumDefault column=", column.bytes()),
        AdmitError::NeedsKey { column } => add_texts(out, b"NeedsKey column=", column.bytes()),
    }
}

fn add_alter(out: &mut Vec<u8>, error: &AlterError) -> Result<(), NoMemory>
    ensures { OnOk result (out.new.items ≡ out.old.items ++ alter_text error.now) }
{
    match error {
        AlterError::NoColumn(column) => add_texts(out, b"NoColumn column=", column.bytes()),
        AlterError::Shape(error) => add_shape(out, *error),
        AlterError::Map(error) => add_admit(out, error),
    }
}

fn add_used(out: &mut Vec<u8>, txn: u64, state: TxnState) -> Result<(), NoMemory>
    ensures { OnOk result (out.new.items ≡ out.old.items ++ refusal_text (Reply.Used txn state)) }
{
    add_number(out, b"Used txn=", txn)?;
    add_texts(out, b" state=", state_word(state))
}

fn add_refusal(out: &mut Vec<u8>, reply: &Reply) -> Result<(), NoMemory>
    ensures { OnOk result (out.new.items ≡ out.old.items ++ refusal_text reply.now) }
{
    match reply {
        Reply::Done
        | Reply::Begun { .. }
        | Reply::Submitted { .. }
        | Reply::Published { .. }
        | Reply::Committed { .. }
        | Reply::Aborted { .. }
        | Reply::Swept { .. }
        | Reply::Snap { .. }
        | Reply::Shown { .. }
        | Reply::Added { .. }
        | Reply::Cancelled { .. }
        | Reply::Advanced { .. }
        | Reply::Taken { .. }
        | Reply::Given { .. } => Ok(()),
        Reply::BadName => Ok(out.extend_from_slice(b"BadName")?),
        Reply::DbExists => Ok(out.extend_from_slice(b"DbExists")?),
        Reply::TooManyDbs => Ok(out.extend_from_slice(b"TooManyDbs")?),
        Reply::UnknownDb => Ok(out.extend_from_slice(b"UnknownDb")?),
        Reply::TableExists => Ok(out.extend_from_slice(b"TableExists")?),
        Reply::TooManyTables => Ok(out.extend_from_slice(b"TooManyTables")?),
        Reply::BadTable { error } => add_def(out, error),
        Reply::UnknownTable => Ok(out.extend_from_slice(b"UnknownTable")?),
        Reply::BadPartition { error } => add_layout(out, error),
        Reply::BadLabel => Ok(out.extend_from_slice(b"BadLabel")?),
        Reply::Used { txn, state } => add_used(out, *txn, *state),
        Reply::NoSuchTxn => Ok(out.extend_from_slice(b"NoSuchTxn")?),
        Reply::WrongState { state } => add_texts(out, b"WrongState state=", state_word(*state)),
        Reply::Expired { since } => add_number(out, b"Expired since=", *since),
        Reply::NothingToPublish => Ok(out.extend_from_slice(b"NothingToPublish")?),
        Reply::NothingToSweep => Ok(out.extend_from_slice(b"NothingToSweep")?),
        Reply::Busy { job } => add_number(out, b"Busy job=", *job),
        Reply::TooManyJobs => Ok(out.extend_from_slice(b"TooManyJobs")?),
        Reply::TooManyRollups => Ok(out.extend_from_slice(b"TooManyRollups")?),
        Reply::DoubleName => Ok(out.extend_from_slice(b"DoubleName")?),
        Reply::BadAlter { error } => add_alter(out, error),
        Reply::NoJob => Ok(out.extend_from_slice(b"NoJob")?),
        Reply::NothingToAdvance => Ok(out.extend_from_slice(b"NothingToAdvance")?),
        Reply::NoTask => Ok(out.extend_from_slice(b"NoTask")?),
        Reply::Stale { live } => add_number(out, b"Stale live=", *live),
        Reply::TaskOver { state } => add_texts(out, b"TaskOver state=", job_word(*state)),
        Reply::KeeperFault => Ok(out.extend_from_slice(b"KeeperFault")?),
        Reply::BadJournal { seq } => add_number(out, b"BadJournal seq=", *seq),
        Reply::NoMemory => Ok(out.extend_from_slice(b"NoMemory")?),
    }
}

/// The text that says why a command was refused; empty where what was asked is done. A state is in capitals, a column of a
/// shape by its position from 0.
pub fn refusal_text(alloc: Global, reply: &Reply) -> Result<Text, NoMemory>
    ensures { IfOk result (λ t. t ≡ refusal_text reply.now) }
{
    let mut out = Vec::new(alloc);
    add_refusal(&mut out, reply)?;
    Text::new(alloc, out.as_slice())
}
