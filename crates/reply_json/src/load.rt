// The answer of a load.
ghost use Rattle.std.specs.Prelude.{◌≡◌, IfOk};
ghost use Rattle.serde_json.specs.Data.{string};
ghost use Rattle.serde_json.specs.View.{view};
ghost use Rattle.serde_json.specs.Written.{compact_text};
ghost use Rattle.reply_json.specs.Texts.{object_of};
ghost use Rattle.reply_json.specs.Loads.{load_json, began, used, refused};

use crate::LoadReport;
use crate::text::lossy;
use dl_values::{NoMemory, Text};
use serde_json::{Value, json};
use std::alloc::{AllocError, Global};

// A load that was refused before it began.
fn refused_value(alloc: Global, label: &Option<Text>, message: &Text) -> Result<Value, NoMemory>
    ensures { IfOk result (λ v. view v ≡ object_of (refused label.now message.now)) }
{
    let message = lossy(alloc, message)?;
    match label {
        Some(label) => {
            let label = lossy(alloc, label)?;
            Ok(json!(in alloc; {"Label": &label, "Message": &message, "Status": "Fail"})?)
        }
        None => Ok(json!(in alloc; {"Message": &message, "Status": "Fail"})?),
    }
}

// What is counted of a load that began.
#[derive(Clone, Copy)]
struct Counts {
    bytes: u64,
    filtered: u64,
    loaded: u64,
    total: u64,
}

// A load that began.
#[tactic(auto, unfolding(crate::specs::Loads::began))]
fn began_value(
    alloc: Global,
    label: &str,
    message: &str,
    status: &str,
    counts: Counts,
    txn: u64,
) -> Result<Value, AllocError>
    ensures { IfOk result (λ v. view v ≡ began (string label.now) counts.bytes (string message.now) counts.filtered counts.loaded counts.total (string status.now) txn) }
{
    json!(in alloc; {
        "Label": label,
        "LoadBytes": counts.bytes,
        "Message": message,
        "NumberFilteredRows": counts.filtered,
        "NumberLoadedRows": counts.loaded,
        "NumberTotalRows": counts.total,
        "Status": status,
        "TxnId": txn,
    })
}

// A load whose label is used.
#[tactic(auto, unfolding(crate::specs::Loads::used))]
fn used_value(
    alloc: Global,
    label: &str,
    job: &str,
    state: &str,
    message: &str,
    txn: u64,
) -> Result<Value, AllocError>
    ensures { IfOk result (λ v. view v ≡ used (string label.now) (string job.now) (string state.now) (string message.now) txn) }
{
    json!(in alloc; {
        "ExistingJobStatus": job,
        "ExistingTxnState": state,
        "Label": label,
        "Message": message,
        "Status": "Label Already Exists",
        "TxnId": txn,
    })
}

fn load_value(alloc: Global, report: &LoadReport) -> Result<Value, NoMemory>
    ensures { IfOk result (λ v. view v ≡ load_json report.now) }
{
    match report {
        LoadReport::Began {
            label,
            bytes,
            message,
            filtered,
            loaded,
            total,
            status,
            txn,
        } => {
            let label = lossy(alloc, label)?;
            let message = lossy(alloc, message)?;
            let status = lossy(alloc, status)?;
            let counts = Counts {
                bytes: *bytes,
                filtered: *filtered,
                loaded: *loaded,
                total: *total,
            };
            Ok(began_value(
                alloc,
                label.as_str(),
                message.as_str(),
                status.as_str(),
                counts,
                *txn,
            )?)
        }
        LoadReport::Used {
            label,
            job,
            state,
            message,
            txn,
        } => {
            let label = lossy(alloc, label)?;
            let job = lossy(alloc, job)?;
            let state = lossy(alloc, state)?;
            let message = lossy(alloc, message)?;
            Ok(used_value(
                alloc,
                label.as_str(),
                job.as_str(),
                state.as_str(),
                message.as_str(),
                *txn,
            )?)
        }
        LoadReport::Refused { label, message } => refused_value(alloc, label, message),
    }
}

/// The body that answers a load, with status 200.
#[tactic(auto, using(crate::proofs::Floats::load_has_no_float))]
pub fn render_load(alloc: Global, report: &LoadReport) -> Result<Vec<u8>, NoMemory>
    ensures { IfOk result (λ b. b.items ≡ compact_text (load_json report.now)) }
{
    let value = load_value(alloc, report)?;
    Ok(value.to_vec(alloc)?)
}
