// The answer of an end of a two-phase load.
ghost use Rattle.std.specs.Prelude.{◌≡◌, IfOk, string_bytes};
ghost use Rattle.serde_json.specs.Data.{string};
ghost use Rattle.serde_json.specs.View.{view};
ghost use Rattle.serde_json.specs.Written.{compact_text};
ghost use Rattle.reply_json.specs.Ends.{done_text, done_word, end_json, end_status, told};

use crate::EndReport;
use crate::text::lossy;
use dl_values::NoMemory;
use itoa::Buffer;
use serde_json::{Value, json};
use std::alloc::{AllocError, Global};

fn end_status(commit: bool, published: bool) -> &'static str
    ensures { result.now ≡ end_status commit published }
{
    if commit && !published {
        "Publish Timeout"
    } else {
        "Success"
    }
}

fn done_word(commit: bool) -> &'static str
    ensures { result.now ≡ done_word commit }
{
    if commit { "commit" } else { "abort" }
}

#[tactic(auto, unfolding(crate::specs::Ends::done_text))]
fn done_text(alloc: Global, commit: bool, txn: u64) -> Result<String, AllocError>
    ensures { IfOk result (λ s. string_bytes s ≡ done_text commit txn) }
{
    let mut text = String::from_str(alloc, "transaction [")?;
    text.push_str(Buffer::new().format(txn))?;
    text.push_str("] ")?;
    text.push_str(done_word(commit))?;
    text.push_str(" successfully.")?;
    Ok(text)
}

fn told(alloc: Global, message: &str, status: &str) -> Result<Value, AllocError>
    ensures { IfOk result (λ v. view v ≡ told (string message.now) status.now) }
{
    json!(in alloc; {"msg": message, "status": status})
}

fn end_value(alloc: Global, report: &EndReport) -> Result<Value, NoMemory>
    ensures { IfOk result (λ v. view v ≡ end_json report.now) }
{
    match report {
        EndReport::Done {
            commit,
            published,
            txn,
        } => {
            let message = done_text(alloc, *commit, *txn)?;
            Ok(told(alloc, message.as_str(), end_status(*commit, *published))?)
        }
        EndReport::Refused(message) => {
            let message = lossy(alloc, message)?;
            Ok(told(alloc, message.as_str(), "Fail")?)
        }
    }
}

/// The body that answers the end of a two-phase load, with status 200.
pub fn render_end(alloc: Global, report: &EndReport) -> Result<Vec<u8>, NoMemory>
    ensures { IfOk result (λ b. b.items ≡ compact_text (end_json report.now)) }
{
    let value = end_value(alloc, report)?;
    Ok(value.to_vec(alloc)?)
}
