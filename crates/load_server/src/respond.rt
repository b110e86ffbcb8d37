// The answer to a request.
ghost use Rattle.std.specs.Prelude.{List};
ghost use Rattle.front_defs.specs.declared.history.Entry.{Entry};
ghost use Rattle.load_server.specs.Exchanges.{AnsweredBy, asked};
ghost use Rattle.load_server.specs.Responses.{response_of};
ghost use Rattle.load_server.specs.Scripts.{script_of};

use crate::answer::Answer;
use crate::end_report::refused_end;
use crate::ending::{end, txn_key};
use crate::load::Load;
use crate::loading::load;
use crate::report::refused_load;
use crate::select::select;
use crate::sent::Sent;
use crate::statement::{bad_statement, create_db, create_table};
use dl_outside::Steps;
use dl_values::NoMemory;
use front_defs::Turns;
use http_wire::Head;
use load_requests::{Request, read_request};
use std::alloc::Global;
use std::sync::ledger::Ledger;

/// Makes the turns of a request that came at this moment, and answers it.
pub fn respond<T: Turns, L: Ledger>(
    alloc: Global,
    turns: &mut T,
    head: &Head,
    body: Vec<u8>,
    at: u64,
    steps: &mut Steps<L>,
) -> Answer
    ensures { (seen own : List Entry) → T.stands turns.old seen own → AnsweredBy (T.stands turns.new) seen own (λ building. asked building at (record { head = head.now; body = body.items })) (response_of result) }
{
    match read_request(alloc, head, body.as_slice()) {
        Ok(request) => serve(alloc, turns, request, body, at, steps),
        Err(NoMemory) => Answer::OutOfMemory,
    }
}

fn serve<T: Turns, L: Ledger>(
    alloc: Global,
    turns: &mut T,
    request: Request,
    body: Vec<u8>,
    at: u64,
    steps: &mut Steps<L>,
) -> Answer
    ensures { (seen own : List Entry) → T.stands turns.old seen own → AnsweredBy (T.stands turns.new) seen own (λ building. script_of building at body.items request) (response_of result) }
{
    match request {
        Request::Unknown => Answer::NotFound,
        Request::Load {
            db,
            table,
            label,
            two_phase,
            options,
        } => {
            let bytes = body.len() as u64;
            let sent = Sent { label, bytes };
            let asked = Load {
                db,
                sent,
                two_phase,
                options,
                at,
            };
            load(alloc, turns, asked, table, body, steps)
        }
        Request::BadLoad { label, message } => refused_load(alloc, label, message),
        Request::End { db, key, commit } => {
            end(alloc, turns, db, txn_key(key), commit, at, steps)
        }
        Request::BadEnd { message } => refused_end(alloc, message),
        Request::CreateDb { name } => create_db(alloc, turns, name, steps),
        Request::CreateTable { db, table, def } => {
            create_table(alloc, turns, db, table, def, steps)
        }
        Request::Select { db, table } => select(alloc, turns, db, table, steps),
        Request::BadStatement { message } => bad_statement(alloc, &message),
    }
}
