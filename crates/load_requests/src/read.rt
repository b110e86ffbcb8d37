// What a request asks for, by its head and its body.
ghost use Rattle.std.specs.Prelude.{◌≡◌, IfOk};
ghost use Rattle.load_requests.specs.Requests.{request_of, options_of, loaded, load_request, statement_request};

use crate::ends::end;
use crate::load_fields::fields_fault;
use crate::reading::read_statement;
use crate::request::Request;
use crate::statement::Statement;
use crate::target::{end_target, load_target, query_target};
use crate::values::{first_value, only_label};
use csv_load::Options;
use dl_values::{Name, NoMemory, Text};
use http_wire::{Fields, Head};
use reply_json::{BodyError, read_stmt_body};
use std::alloc::Global;

// A load with these fields, of which none is at fault.
fn good_load(alloc: Global, db: &[u8], table: &[u8], fields: &Fields) -> Result<Request, NoMemory>
    ensures { IfOk result (λ r. r ≡ loaded (db.now, table.now) fields.now None) }
{
    let label = match first_value(fields, b"label") {
        None => None,
        Some(value) => Some(Name::new(alloc, value)?),
    };
    Ok(Request::Load {
        db: Name::new(alloc, db)?,
        table: Name::new(alloc, table)?,
        label,
        two_phase: fields.has(b"two_phase_commit", b"true"),
        options: options_of(fields)?,
    })
}

// How the body of a load is read.
fn options_of(fields: &Fields) -> Result<Options, NoMemory>
    ensures { IfOk result (λ o. o ≡ options_of fields.now) }
{
    let separator = first_value(fields, b"column_separator");
    let ratio = first_value(fields, b"max_filter_ratio");
    let strict = fields.has(b"strict_mode", b"true");
    match Options::build(separator, ratio, strict) {
        Ok(options) => Ok(options),
        Err(_) => Err(NoMemory),
    }
}

// A load with these fields.
#[tactic(auto, unfolding(crate::specs::Requests::load_request))]
fn load(alloc: Global, db: &[u8], table: &[u8], fields: &Fields) -> Result<Request, NoMemory>
    ensures { IfOk result (λ r. r ≡ load_request (db.now, table.now) fields.now) }
{
    match fields_fault(alloc, fields)? {
        None => good_load(alloc, db, table, fields),
        Some(message) => Ok(Request::BadLoad {
            label: only_label(alloc, fields)?,
            message,
        }),
    }
}

// A body with a statement for a database.
#[tactic(auto, unfolding(crate::specs::Requests::statement_request))]
fn statement(alloc: Global, db: &[u8], body: &[u8]) -> Result<Request, NoMemory>
    ensures { IfOk result (λ r. r ≡ statement_request db.now body.now) }
{
    let text = match read_stmt_body(alloc, body) {
        Ok(text) => text,
        Err(BodyError::BadJson) => {
            return Ok(Request::BadStatement {
                message: Text::new(alloc, b"BadJson")?,
            });
        }
        Err(BodyError::NoMemory) => return Err(NoMemory),
    };
    match read_statement(alloc, text.as_bytes())? {
        None => Ok(Request::BadStatement {
            message: Text::new(alloc, b"Unsupported name=stmt")?,
        }),
        Some(Statement::CreateDb(name)) => Ok(Request::CreateDb { name }),
        Some(Statement::CreateTable(table, def)) => Ok(Request::CreateTable {
            db: Name::new(alloc, db)?,
            table,
            def,
        }),
        Some(Statement::Select(table)) => Ok(Request::Select {
            db: Name::new(alloc, db)?,
            table,
        }),
    }
}

/// What a request asks for. The targets and the fields of loads and of their ends are those of the Apache Doris documentation, "Stream Load";
/// a body with a statement is a JSON object whose string member `stmt` holds it.
#[tactic(auto, unfolding(crate::specs::Requests::request_of))]
pub fn read_request(alloc: Global, head: &Head, body: &[u8]) -> Result<Request, NoMemory>
    ensures { IfOk result (λ r. r ≡ request_of head.now body.now) }
{
    let method = head.method.as_bytes();
    let target = head.target.as_bytes();
    match load_target(method, target) {
        Some((db, table)) => load(alloc, db, table, &head.fields),
        None => match end_target(method, target) {
            Some(db) => end(alloc, db, &head.fields),
            None => match query_target(method, target) {
                Some(db) => statement(alloc, db, body),
                None => Ok(Request::Unknown),
            },
        },
    }
}
