// The answers of what was refused.
ghost use Rattle.std.specs.Prelude.{◌≡◌, IfOk};
ghost use Rattle.serde_json.specs.View.{view};
ghost use Rattle.serde_json.specs.Written.{compact_text};
ghost use Rattle.reply_json.specs.Statements.{refusal_json, refused_json, error_json};

use crate::text::lossy;
use dl_values::{NoMemory, Text};
use serde_json::{Value, json};
use std::alloc::Global;

fn refusal_value(alloc: Global, text: &str) -> Result<Value, NoMemory>
    ensures { IfOk result (λ v. view v ≡ refusal_json text.now) }
{
    Ok(json!(in alloc; {"code": 1u64, "data": text, "msg": "Error"})?)
}

/// The body that answers a refused statement, with status 200. The text says why it was refused.
pub fn render_refusal(alloc: Global, text: &str) -> Result<Vec<u8>, NoMemory>
    ensures { IfOk result (λ b. b.items ≡ compact_text (refusal_json text.now)) }
{
    let value = refusal_value(alloc, text)?;
    Ok(value.to_vec(alloc)?)
}

/// The body that answers a refused statement, with status 200, as `render_refusal` gives it for a text. Parts of it that are
/// not UTF-8 are U+FFFD there.
pub fn render_refused(alloc: Global, message: &Text) -> Result<Vec<u8>, NoMemory>
    ensures { IfOk result (λ b. b.items ≡ compact_text (refused_json message.now)) }
{
    let text = lossy(alloc, message)?;
    render_refusal(alloc, text.as_str())
}

fn error_value(alloc: Global, variant: &str) -> Result<Value, NoMemory>
    ensures { IfOk result (λ v. view v ≡ error_json variant.now) }
{
    Ok(json!(in alloc; {"error": variant})?)
}

/// The body that answers a request which was not served, with the status of its fault, as 400 or 503. The variant is the
/// fault's name.
pub fn render_error(alloc: Global, variant: &str) -> Result<Vec<u8>, NoMemory>
    ensures { IfOk result (λ b. b.items ≡ compact_text (error_json variant.now)) }
{
    let value = error_value(alloc, variant)?;
    Ok(value.to_vec(alloc)?)
}
