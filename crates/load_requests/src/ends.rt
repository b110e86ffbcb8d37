// What an end of a two-phase load asks for.
ghost use Rattle.std.specs.Prelude.{◌≡◌, IfOk};
ghost use Rattle.load_requests.specs.Ends.{is_commit, key_of, operation_of};
ghost use Rattle.load_requests.specs.Requests.{end_request};

use crate::bytes::{is_same, is_utf8};
use crate::end_key::EndKey;
use crate::numbers::number_of;
use crate::request::Request;
use crate::values::first_value;
use dl_values::{Name, NoMemory, Text};
use http_wire::Fields;
use std::alloc::Global;

// The transaction that is to be ended. Its number counts where one is given, whatever label stands beside it.
#[tactic(auto, unfolding(crate::specs::Ends::key_of))]
fn key_of(alloc: Global, fields: &Fields) -> Result<Option<EndKey>, NoMemory>
    ensures { IfOk result (λ key. key ≡ key_of fields.now) }
{
    if let Some(id) = first_value(fields, b"txn_id") {
        return Ok(number_of(id).map(EndKey::Id));
    }
    match first_value(fields, b"label") {
        Some(label) if is_utf8(label) => Ok(Some(EndKey::Label(Name::new(alloc, label)?))),
        _ => Ok(None),
    }
}

// Whether a word says that the load is to be committed, or aborted.
fn is_commit(word: &[u8]) -> Option<bool>
    ensures { result ≡ is_commit word.now }
{
    if is_same(word, b"commit") {
        Some(true)
    } else if is_same(word, b"abort") {
        Some(false)
    } else {
        None
    }
}

#[tactic(auto, unfolding(crate::specs::Ends::operation_of))]
fn operation_of(fields: &Fields) -> Option<bool>
    ensures { result ≡ operation_of fields.now }
{
    is_commit(first_value(fields, b"txn_operation")?)
}

/// An end of a two-phase load of this database, with these fields.
#[tactic(auto, unfolding(crate::specs::Requests::end_request))]
pub fn end(alloc: Global, db: &[u8], fields: &Fields) -> Result<Request, NoMemory>
    ensures { IfOk result (λ r. r ≡ end_request db.now fields.now) }
{
    let Some(key) = key_of(alloc, fields)? else {
        return bad_end(alloc, b"BadHeader name=txn_id");
    };
    match operation_of(fields) {
        Some(commit) => Ok(Request::End {
            db: Name::new(alloc, db)?,
            key,
            commit,
        }),
        None => bad_end(alloc, b"BadHeader name=txn_operation"),
    }
}

fn bad_end(alloc: Global, message: &[u8]) -> Result<Request, NoMemory>
    ensures { IfOk result (λ r. r ≡ Request.BadEnd message.now) }
{
    Ok(Request::BadEnd {
        message: Text::new(alloc, message)?,
    })
}
