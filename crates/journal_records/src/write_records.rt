// Writing records.
ghost use Rattle.std.specs.Prelude.{◌≡◌, ◌++◌, OnOk, ◌∷◌};
ghost use Rattle.journal_records.specs.Spelling as bytes_of;

use crate::cause::Cause;
use crate::format_byte::FORMAT;
use crate::load::Load;
use crate::new_part::NewPart;
use crate::piece::Piece;
use crate::record::Record;
use crate::write_fields::{
    put_bound, put_encoded, put_flag, put_job, put_number64, put_pair, put_row, put_text,
};
use dl_values::{Cell, NoMemory};

#[tactic(auto, unfolding(crate::specs::Spelling::load))]
fn put_load(out: &mut Vec<u8>, load: &Load) -> Result<(), NoMemory>
    ensures { OnOk result (out.new.items ≡ out.old.items ++ bytes_of.load load.now) }
{
    put_number64(out, load.txn)?;
    put_number64(out, load.table)?;
    put_text(out, load.label.bytes())?;
    put_number64(out, load.at)?;
    put_flag(out, load.two_phase)?;
    put_number64(out, load.schema)?;
    put_job(out, load.cancelled)?;
    put_encoded(out, &load.rows)?;
    Ok(())
}

#[tactic(auto, unfolding(crate::specs::Spelling::new_part))]
fn put_part(out: &mut Vec<u8>, part: &NewPart) -> Result<(), NoMemory>
    ensures { OnOk result (out.new.items ≡ out.old.items ++ bytes_of.new_part part.now) }
{
    put_number64(out, part.table)?;
    put_text(out, part.name.bytes())?;
    put_bound(out, &part.low)?;
    put_bound(out, &part.high)?;
    Ok(())
}

#[tactic(auto, unfolding(crate::specs::Spelling::data_cause))]
fn put_data_cause(out: &mut Vec<u8>, column: &[u8], row: &[Cell]) -> Result<(), NoMemory>
    ensures { OnOk result (out.new.items ≡ out.old.items ++ bytes_of.data_cause (column.now, row.now)) }
{
    put_text(out, column)?;
    put_row(out, row)?;
    Ok(())
}

#[tactic(auto, unfolding(crate::specs::Spelling::cause))]
fn put_cause(out: &mut Vec<u8>, cause: &Cause) -> Result<(), NoMemory>
    ensures { OnOk result (out.new.items ≡ out.old.items ++ bytes_of.cause cause.now) }
{
    match cause {
        Cause::Command => out.push(0)?,
        Cause::Data { column, row } => {
            out.push(1)?;
            put_data_cause(out, column.bytes(), row.cells())?;
        }
        Cause::Load(txn) => {
            out.push(2)?;
            put_number64(out, *txn)?;
        }
    }
    Ok(())
}

fn put_tag(out: &mut Vec<u8>, tag: u8, first: u64, second: u64) -> Result<(), NoMemory>
    ensures { OnOk result (out.new.items ≡ out.old.items ++ tag ∷ bytes_of.pair (first, second)) }
{
    out.push(tag)?;
    put_pair(out, first, second)?;
    Ok(())
}

// The byte of the kind, and the fields, in a format.
fn put_fields(out: &mut Vec<u8>, format: u8, told: &Record) -> Result<(), NoMemory>
    ensures { OnOk result (out.new.items ≡ out.old.items ++ bytes_of.fields format told.now) }
{
    match told {
        Record::CreateDb(name) => {
            out.push(1)?;
            put_text(out, name.bytes())?;
        }
        Record::CreateTable(table) => {
            out.push(2)?;
            table.put(format, out)?;
        }
        Record::DropTable { table, at } => put_tag(out, 3, *table, *at)?,
        Record::AddPartition(part) => {
            out.push(4)?;
            put_part(out, part)?;
        }
        Record::IdRange { upto } => {
            out.push(5)?;
            put_number64(out, *upto)?;
        }
        Record::Submit(load) => {
            out.push(6)?;
            put_load(out, load)?;
        }
        Record::Commit { txn, at, cancelled } => {
            put_tag(out, 7, *txn, *at)?;
            put_job(out, *cancelled)?;
        }
        Record::Abort { txn, at } => put_tag(out, 8, *txn, *at)?,
        Record::Publish { txn, at } => put_tag(out, 9, *txn, *at)?,
        Record::AddJob(job) => {
            out.push(10)?;
            job.put(format, out)?;
        }
        Record::JobWaiting {
            job,
            watershed,
            upto,
        } => {
            put_tag(out, 11, *job, *watershed)?;
            put_number64(out, *upto)?;
        }
        Record::JobFinished { job, at } => put_tag(out, 12, *job, *at)?,
        Record::JobCancelled { job, at, cause } => {
            put_tag(out, 13, *job, *at)?;
            put_cause(out, cause)?;
        }
        Record::Sweep { at } => {
            out.push(14)?;
            put_number64(out, *at)?;
        }
    }
    Ok(())
}

// The byte of the format, and these.
pub fn put_record(out: &mut Vec<u8>, told: &Record) -> Result<(), NoMemory>
    ensures { OnOk result (out.new.items ≡ out.old.items ++ bytes_of.spelling told.now) }
{
    out.push(FORMAT)?;
    put_fields(out, FORMAT, told)?;
    Ok(())
}
