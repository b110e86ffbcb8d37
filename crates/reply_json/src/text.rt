// A text as a JSON string.
ghost use Rattle.std.specs.Prelude.{◌≡◌, IfOk, string_bytes};
ghost use Rattle.std.specs.Str.Lossy.{utf8_lossy};
ghost use Rattle.serde_json.specs.View.{view};
ghost use Rattle.reply_json.specs.Texts.{text_json};

use dl_values::{NoMemory, Text};
use serde_json::Value;
use std::alloc::Global;

// The text as a string: itself where it is UTF-8, and else with U+FFFD in place of what is not.
pub fn lossy(alloc: Global, text: &Text) -> Result<String, NoMemory>
    ensures { IfOk result (λ s. string_bytes s ≡ utf8_lossy text.now) }
{
    Ok(String::from_utf8_lossy(alloc, text.bytes())?)
}

// The JSON string of a text.
pub fn text_value(alloc: Global, text: &Text) -> Result<Value, NoMemory>
    ensures { IfOk result (λ v. view v ≡ text_json text.now) }
{
    Ok(Value::String(lossy(alloc, text)?))
}
