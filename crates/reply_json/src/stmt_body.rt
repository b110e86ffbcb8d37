// The statement that a body holds.
ghost use Rattle.std.specs.Prelude.{◌≡◌, IfOk, Err, Some, None, string_bytes};
ghost use Rattle.reply_json.specs.Statements.{stmt_of};

use crate::BodyError;
use serde_json::Value;
use std::alloc::Global;

/// The statement of a body: the string member `stmt` of its JSON object (RFC 8259), other members counting for nothing.
/// The body is UTF-8, and values nest at most 127 deep.
pub fn read_stmt_body(alloc: Global, body: &[u8]) -> Result<String, BodyError>
    ensures stmt { IfOk result (λ s. stmt_of body.now ≡ Some (string_bytes s)) }
    ensures bad_json { result ≡ Err BodyError.BadJson → stmt_of body.now ≡ None }
{
    let Ok(text) = std::str::from_utf8(body) else {
        return Err(BodyError::BadJson);
    };
    let value = match Value::from_str(alloc, text) {
        Ok(value) => value,
        Err(error) => {
            return Err(if error.is_memory() {
                BodyError::NoMemory
            } else {
                BodyError::BadJson
            });
        }
    };
    match value.get("stmt").and_then(Value::as_str) {
        Some(stmt) => match String::from_str(alloc, stmt) {
            Ok(stmt) => Ok(stmt),
            Err(_) => Err(BodyError::NoMemory),
        },
        None => Err(BodyError::BadJson),
    }
}
