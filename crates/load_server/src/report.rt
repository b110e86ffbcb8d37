// The reports of loads.
ghost use Rattle.std.specs.Prelude.{◌≡◌, ◌++◌, ℕ, List, [], IfOk, codes, decimal};
ghost use Rattle.front_defs.specs.Script.{Served};
ghost use Rattle.serde_json.specs.Written.{compact_text};
ghost use Rattle.reply_json.specs.Loads.{load_json};
ghost use Rattle.load_server.specs.Reports.{report_of, succeeded, delayed, failed, refused_load, used_load, too_many_rows, too_many_filtered};
ghost use Rattle.load_server.specs.Responses.{response_of};
ghost use Rattle.load_server.specs.Scripts.{made as made_or_lacking};
ghost use Rattle.reply_json.specs.declared.load_report.LoadReport.TheVariants as report;
ghost use Rattle.reply_texts.specs.Texts.{refusal_text as text_of_refusal};
ghost use Rattle.front_defs.specs.Words.{state_text as state_of};
ghost use Rattle.reply_texts.specs.Words.{job_text as job_of};

use crate::answer::{Answer, made};
use crate::sent::{Sent, label_of, told_label};
use dl_values::{Name, NoMemory, Text};
use front_defs::Reply;
use itoa::Buffer;
use labels::TxnState;
use reply_json::{LoadReport, render_load};
use reply_texts::{job_text, refusal_text, state_text};
use std::alloc::Global;

/// How many records of a body were filtered, and how many there are.
#[derive(Clone, Copy, Debug)]
pub struct Counts {
    pub filtered: u64,
    pub total: u64,
}

// The report of a load that began, with a message, a status and the number of rows that were loaded.
fn render_began(
    alloc: Global,
    sent: &Sent,
    txn: u64,
    message: &[u8],
    status: &[u8],
    loaded: u64,
    counts: Counts,
) -> Result<Vec<u8>, NoMemory>
    ensures { IfOk result (λ b. b.items ≡ compact_text (load_json (report_of sent.now txn message.now counts.filtered loaded counts.total status.now))) }
{
    let report = LoadReport::Began {
        label: label_of(alloc, &sent.label, txn)?,
        bytes: sent.bytes,
        message: Text::new(alloc, message)?,
        filtered: counts.filtered,
        loaded,
        total: counts.total,
        status: Text::new(alloc, status)?,
        txn,
    };
    render_load(alloc, &report)
}

/// The load is visible.
#[tactic(auto, unfolding(crate::specs::Reports::reported))]
pub fn succeeded(alloc: Global, sent: &Sent, txn: u64, counts: Counts) -> Answer
    ensures { Served (made_or_lacking (succeeded sent.now txn counts.filtered counts.total)) [] (response_of result) }
{
    let loaded = counts.total.saturating_sub(counts.filtered);
    made(render_began(alloc, sent, txn, b"OK", b"Success", loaded, counts))
}

/// The load is committed, and a fault came before it was visible.
#[tactic(auto, unfolding(crate::specs::Reports::reported))]
pub fn delayed(alloc: Global, sent: &Sent, txn: u64, counts: Counts) -> Answer
    ensures { Served (made_or_lacking (delayed sent.now txn counts.filtered counts.total)) [] (response_of result) }
{
    let loaded = counts.total.saturating_sub(counts.filtered);
    let message = b"committed, not yet published";
    let status = b"Publish Timeout";
    made(render_began(alloc, sent, txn, message, status, loaded, counts))
}

// The load has failed with this message.
#[tactic(auto, unfolding(crate::specs::Reports::reported))]
fn failed(alloc: Global, sent: &Sent, txn: u64, message: &[u8], counts: Counts) -> Answer
    ensures { Served (made_or_lacking (failed sent.now txn message.now counts.filtered counts.total)) [] (response_of result) }
{
    made(render_began(alloc, sent, txn, message, b"Fail", 0, counts))
}

/// The core refused the load's Submit.
pub fn failed_by(alloc: Global, sent: &Sent, txn: u64, reply: &Reply, counts: Counts) -> Answer
    ensures { Served (made_or_lacking (failed sent.now txn (text_of_refusal reply.now) counts.filtered counts.total)) [] (response_of result) }
{
    match refusal_text(alloc, reply) {
        Ok(message) => failed(alloc, sent, txn, message.bytes(), counts),
        Err(NoMemory) => Answer::OutOfMemory,
    }
}

/// The load's body has too many records.
pub fn too_many_rows(alloc: Global, sent: &Sent, txn: u64) -> Answer
    ensures { Served (made_or_lacking (failed sent.now txn too_many_rows 0 0)) [] (response_of result) }
{
    let counts = Counts {
        filtered: 0,
        total: 0,
    };
    failed(alloc, sent, txn, b"TooManyRows limit=1000000", counts)
}

/// Too many of the body's records were filtered.
pub fn too_many_filtered(alloc: Global, sent: &Sent, txn: u64, counts: Counts) -> Answer
    ensures { Served (made_or_lacking (failed sent.now txn (too_many_filtered counts.filtered counts.total) counts.filtered counts.total)) [] (response_of result) }
{
    match filtered_text(alloc, counts) {
        Ok(message) => failed(alloc, sent, txn, message.as_slice(), counts),
        Err(NoMemory) => Answer::OutOfMemory,
    }
}

fn filtered_text(alloc: Global, counts: Counts) -> Result<Vec<u8>, NoMemory>
    ensures { IfOk result (λ t. t.items ≡ too_many_filtered counts.filtered counts.total) }
{
    let mut text = Vec::from_slice(alloc, b"TooManyFiltered filtered=")?;
    text.extend_from_slice(Buffer::new().format(counts.filtered).as_bytes())?;
    text.extend_from_slice(b" total=")?;
    text.extend_from_slice(Buffer::new().format(counts.total).as_bytes())?;
    Ok(text)
}

/// The load was refused before it began, with this message.
#[tactic(auto, unfolding(crate::specs::Reports::refused_load))]
pub fn refused_load(alloc: Global, label: Option<Text>, message: Text) -> Answer
    ensures { Served (made_or_lacking (refused_load label message)) [] (response_of result) }
{
    let report = LoadReport::Refused { label, message };
    made(render_load(alloc, &report))
}

/// The core refused the load's Begin.
pub fn refused_by(alloc: Global, label: &Option<Name>, reply: &Reply) -> Answer
    ensures { Served (made_or_lacking (refused_load label.now (text_of_refusal reply.now))) [] (response_of result) }
{
    match (told_label(alloc, label), refusal_text(alloc, reply)) {
        (Ok(label), Ok(message)) => refused_load(alloc, label, message),
        _ => Answer::OutOfMemory,
    }
}

/// The load's label is used.
#[tactic(auto, unfolding(crate::specs::Reports::used_load))]
pub fn used_load(alloc: Global, label: &Option<Name>, txn: u64, state: TxnState) -> Answer
    ensures { Served (made_or_lacking (used_load label.now txn state)) [] (response_of result) }
{
    let reply = Reply::Used { txn, state };
    match label {
        Some(name) => made(render_used(alloc, name, &reply, txn, state)),
        None => refused_by(alloc, label, &reply),
    }
}

fn render_used(
    alloc: Global,
    name: &Name,
    reply: &Reply,
    txn: u64,
    state: TxnState,
) -> Result<Vec<u8>, NoMemory>
    ensures { IfOk result (λ b. b.items ≡ compact_text (load_json (report.Used name.now (job_of state) (state_of state) (text_of_refusal reply.now) txn))) }
{
    let report = LoadReport::Used {
        label: Text::new(alloc, name.bytes())?,
        job: job_text(alloc, state)?,
        state: state_text(alloc, state)?,
        message: refusal_text(alloc, reply)?,
        txn,
    };
    render_load(alloc, &report)
}
