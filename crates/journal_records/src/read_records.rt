// Reading records.
ghost use Rattle.std.specs.Prelude.{◌≡◌, Ok};
ghost use Rattle.journal_records.specs.Reading.{Gives, load_at, new_part_at, data_cause_at, cause_at, commit_at, job_waiting_at, job_cancelled_at, later_at, fields_at, record_at, record_of};

use crate::cause::Cause;
use crate::choices::{after_tag, flag};
use crate::format_byte::FORMAT;
use crate::load::Load;
use crate::new_job::NewJob;
use crate::new_part::NewPart;
use crate::new_table::NewTable;
use crate::past_rows::encoded_rows;
use crate::piece::Piece;
use crate::read_fields::{bound, job, name, number64, pair};
use crate::read_rows::row;
use crate::record::Record;
use crate::stop::Stop;
use dl_values::{Name, Row};
use std::alloc::Global;

#[tactic(auto, unfolding(crate::specs::Reading::load_at))]
fn load(alloc: Global, bytes: &[u8]) -> Result<(Load, &[u8]), Stop>
    ensures { Gives (λ x. (x.0, x.1.now)) result (load_at bytes.now) }
{
    let (txn, rest) = number64(bytes)?;
    let (table, rest) = number64(rest)?;
    let (label, rest) = name(alloc, rest)?;
    let (at, rest) = number64(rest)?;
    let (two_phase, rest) = flag(rest)?;
    let (schema, rest) = number64(rest)?;
    let (cancelled, rest) = job(rest)?;
    let (rows, rest) = encoded_rows(alloc, rest)?;
    let load = Load {
        txn,
        table,
        label,
        at,
        two_phase,
        schema,
        cancelled,
        rows,
    };
    Ok((load, rest))
}

#[tactic(auto, unfolding(crate::specs::Reading::commit_at))]
fn commit(bytes: &[u8]) -> Result<(Record, &[u8]), Stop>
    ensures { Gives (λ x. (x.0, x.1.now)) result (commit_at bytes.now) }
{
    let (txn, at, rest) = pair(bytes)?;
    let (cancelled, rest) = job(rest)?;
    Ok((Record::Commit { txn, at, cancelled }, rest))
}

#[tactic(auto, unfolding(crate::specs::Reading::job_waiting_at))]
fn job_waiting(bytes: &[u8]) -> Result<(Record, &[u8]), Stop>
    ensures { Gives (λ x. (x.0, x.1.now)) result (job_waiting_at bytes.now) }
{
    let (job, watershed, rest) = pair(bytes)?;
    let (upto, rest) = number64(rest)?;
    Ok((
        Record::JobWaiting {
            job,
            watershed,
            upto,
        },
        rest,
    ))
}

#[tactic(auto, unfolding(crate::specs::Reading::new_part_at))]
fn new_part(alloc: Global, bytes: &[u8]) -> Result<(NewPart, &[u8]), Stop>
    ensures { Gives (λ x. (x.0, x.1.now)) result (new_part_at bytes.now) }
{
    let (table, rest) = number64(bytes)?;
    let (name, rest) = name(alloc, rest)?;
    let (low, rest) = bound(alloc, rest)?;
    let (high, rest) = bound(alloc, rest)?;
    let part = NewPart {
        table,
        name,
        low,
        high,
    };
    Ok((part, rest))
}

#[tactic(auto, unfolding(crate::specs::Reading::data_cause_at))]
fn data_cause(alloc: Global, bytes: &[u8]) -> Result<(Name, Row, &[u8]), Stop>
    ensures { Gives (λ x. ((x.0, x.1), x.2.now)) result (data_cause_at bytes.now) }
{
    let (column, rest) = name(alloc, bytes)?;
    let (row, rest) = row(alloc, rest)?;
    Ok((column, row, rest))
}

#[tactic(auto, unfolding(crate::specs::Reading::cause_at))]
fn cause(alloc: Global, bytes: &[u8]) -> Result<(Cause, &[u8]), Stop>
    ensures { Gives (λ x. (x.0, x.1.now)) result (cause_at bytes.now) }
{
    if let Some(rest) = after_tag(bytes, 0) {
        return Ok((Cause::Command, rest));
    }
    if let Some(rest) = after_tag(bytes, 1) {
        let (column, row, rest) = data_cause(alloc, rest)?;
        return Ok((Cause::Data { column, row }, rest));
    }
    if let Some(rest) = after_tag(bytes, 2) {
        let (txn, rest) = number64(rest)?;
        return Ok((Cause::Load(txn), rest));
    }
    Err(Stop::Left(bytes.len()))
}

#[tactic(auto, unfolding(crate::specs::Reading::job_cancelled_at))]
fn job_cancelled(alloc: Global, bytes: &[u8]) -> Result<(Record, &[u8]), Stop>
    ensures { Gives (λ x. (x.0, x.1.now)) result (job_cancelled_at bytes.now) }
{
    let (job, at, rest) = pair(bytes)?;
    let (cause, rest) = cause(alloc, rest)?;
    Ok((Record::JobCancelled { job, at, cause }, rest))
}

// The kinds from 8 on, in a format.
#[tactic(auto, unfolding(crate::specs::Reading::later_at))]
fn later(alloc: Global, format: u8, bytes: &[u8]) -> Result<(Record, &[u8]), Stop>
    ensures { Gives (λ x. (x.0, x.1.now)) result (later_at format bytes.now) }
{
    if let Some(rest) = after_tag(bytes, 8) {
        let (txn, at, rest) = pair(rest)?;
        return Ok((Record::Abort { txn, at }, rest));
    }
    if let Some(rest) = after_tag(bytes, 9) {
        let (txn, at, rest) = pair(rest)?;
        return Ok((Record::Publish { txn, at }, rest));
    }
    if let Some(rest) = after_tag(bytes, 10) {
        let (job, rest) = NewJob::read(alloc, format, rest)?;
        return Ok((Record::AddJob(job), rest));
    }
    if let Some(rest) = after_tag(bytes, 11) {
        return job_waiting(rest);
    }
    if let Some(rest) = after_tag(bytes, 12) {
        let (job, at, rest) = pair(rest)?;
        return Ok((Record::JobFinished { job, at }, rest));
    }
    if let Some(rest) = after_tag(bytes, 13) {
        return job_cancelled(alloc, rest);
    }
    if let Some(rest) = after_tag(bytes, 14) {
        let (at, rest) = number64(rest)?;
        return Ok((Record::Sweep { at }, rest));
    }
    Err(Stop::Left(bytes.len()))
}

// The byte of the kind, and the fields, in a format.
#[tactic(auto, unfolding(crate::specs::Reading::fields_at))]
fn fields(alloc: Global, format: u8, bytes: &[u8]) -> Result<(Record, &[u8]), Stop>
    ensures { Gives (λ x. (x.0, x.1.now)) result (fields_at format bytes.now) }
{
    if let Some(rest) = after_tag(bytes, 1) {
        let (name, rest) = name(alloc, rest)?;
        return Ok((Record::CreateDb(name), rest));
    }
    if let Some(rest) = after_tag(bytes, 2) {
        let (table, rest) = NewTable::read(alloc, format, rest)?;
        return Ok((Record::CreateTable(table), rest));
    }
    if let Some(rest) = after_tag(bytes, 3) {
        let (table, at, rest) = pair(rest)?;
        return Ok((Record::DropTable { table, at }, rest));
    }
    if let Some(rest) = after_tag(bytes, 4) {
        let (part, rest) = new_part(alloc, rest)?;
        return Ok((Record::AddPartition(part), rest));
    }
    if let Some(rest) = after_tag(bytes, 5) {
        let (upto, rest) = number64(rest)?;
        return Ok((Record::IdRange { upto }, rest));
    }
    if let Some(rest) = after_tag(bytes, 6) {
        let (load, rest) = load(alloc, rest)?;
        return Ok((Record::Submit(load), rest));
    }
    if let Some(rest) = after_tag(bytes, 7) {
        return commit(rest);
    }
    later(alloc, format, bytes)
}

#[tactic(auto, unfolding(crate::specs::Reading::record_at))]
fn record_from(alloc: Global, bytes: &[u8]) -> Result<(Record, &[u8]), Stop>
    ensures { Gives (λ x. (x.0, x.1.now)) result (record_at bytes.now) }
{
    match after_tag(bytes, FORMAT) {
        Some(rest) => fields(alloc, FORMAT, rest),
        None => Err(Stop::Left(bytes.len())),
    }
}

// The record that the bytes spell, all of the bytes.
#[tactic(auto, unfolding(crate::specs::Reading::record_of))]
pub fn whole_record(alloc: Global, bytes: &[u8]) -> Result<Record, Stop>
    ensures { Gives (λ r. r) result (record_of bytes.now) }
{
    let (found, rest) = record_from(alloc, bytes)?;
    match rest {
        [] => Ok(found),
        [_, ..] => Err(Stop::Left(rest.len())),
    }
}
