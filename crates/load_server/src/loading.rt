// The turns of a load.
ghost use Rattle.std.specs.Prelude.{◌≡◌, IfOk, List};
ghost use Rattle.front_defs.specs.declared.command.Command.{Command};
ghost use Rattle.front_defs.specs.declared.history.Entry.{Entry};
ghost use Rattle.front_defs.specs.declared.reply.Reply.TheVariants as reply;
ghost use Rattle.front_defs.specs.May.{Carries, HasCause, IsBound};
ghost use Rattle.front_defs.specs.Script.{Works, Asks};
ghost use Rattle.front_defs.specs.declared.command.Command.TheVariants as command;
ghost use Rattle.load_server.specs.Exchanges.{AnsweredBy};
ghost use Rattle.load_server.specs.Responses.{response_of};
ghost use Rattle.load_server.specs.Scripts.{after_begin, giving_up, loading, reading};

use crate::abort::{abort, give_up};
use crate::answer::Answer;
use crate::load::Load;
use crate::prepare::{Prepared, prepare};
use crate::report::{refused_by, too_many_filtered, too_many_rows, used_load};
use crate::submit::submit;
use dl_outside::Steps;
use dl_values::{Name, NoMemory};
use front_defs::{Command, Reply, Turns};
use shadow_writes::Plan;
use std::alloc::Global;
use std::sync::ledger::Ledger;

/// Makes the turns of a load: it is begun, its body is read and folded, it is submitted and published.
pub fn load<T: Turns, L: Ledger>(
    alloc: Global,
    turns: &mut T,
    load: Load,
    table: Name,
    body: Vec<u8>,
    steps: &mut Steps<L>,
) -> Answer
    ensures { (seen own : List Entry) → T.stands turns.old seen own → AnsweredBy (T.stands turns.new) seen own (λ building. loading building load table body.items) (response_of result) }
{
    match copies_of(alloc, &load) {
        Ok(copies) => begin(alloc, turns, load, copies, table, body, steps),
        Err(NoMemory) => Answer::OutOfMemory,
    }
}

// What a Begin takes of a load that is still needed then.
#[derive(Drop)]
struct Copies {
    db: Name,
    label: Option<Name>,
}

fn copies_of(alloc: Global, load: &Load) -> Result<Copies, NoMemory>
    ensures db { IfOk result (λ c. c.db ≡ load.now.db) }
    ensures label { IfOk result (λ c. c.label ≡ load.now.sent.label) }
{
    Ok(Copies {
        db: load.db.copy(alloc)?,
        label: copy_label(alloc, &load.sent.label)?,
    })
}

fn copy_label(alloc: Global, label: &Option<Name>) -> Result<Option<Name>, NoMemory>
    ensures { IfOk result (λ l. l ≡ label.now) }
{
    match label {
        Some(label) => Ok(Some(label.copy(alloc)?)),
        None => Ok(None),
    }
}

// Begins the load.
fn begin<T: Turns, L: Ledger>(
    alloc: Global,
    turns: &mut T,
    load: Load,
    copies: Copies,
    table: Name,
    body: Vec<u8>,
    steps: &mut Steps<L>,
) -> Answer
    requires db { copies.db ≡ load.db }
    requires label { copies.label ≡ load.sent.label }
    ensures { (seen own : List Entry) → T.stands turns.old seen own → AnsweredBy (T.stands turns.new) seen own (λ building. Asks (command.Begin load.db table load.sent.label load.two_phase load.at) (after_begin building load body.items)) (response_of result) }
{
    let command = begin_command(&load, copies, table);
    match turns.turn(command, steps) {
        Reply::Begun { txn, plan } => proceed(alloc, turns, load, txn, plan, body, steps),
        Reply::Used { txn, state } => used_load(alloc, &load.sent.label, txn, state),
        Reply::KeeperFault => Answer::KeeperFault,
        Reply::NoMemory => Answer::OutOfMemory,
        other => refused_by(alloc, &load.sent.label, &other),
    }
}

// The command that begins the load.
fn begin_command(load: &Load, copies: Copies, table: Name) -> Command
    requires db { copies.db ≡ load.now.db }
    requires label { copies.label ≡ load.now.sent.label }
    ensures { result ≡ command.Begin load.now.db table load.now.sent.label load.now.two_phase load.now.at }
{
    Command::Begin {
        db: copies.db,
        table,
        label: copies.label,
        two_phase: load.two_phase,
        at: load.at,
    }
}

// Reads the body of the load, which has begun, and submits it or aborts it.
fn proceed<T: Turns, L: Ledger>(
    alloc: Global,
    turns: &mut T,
    load: Load,
    txn: u64,
    plan: Plan,
    body: Vec<u8>,
    steps: &mut Steps<L>,
) -> Answer
    requires { (next : Command) → IsBound next → Carries next (reply.Begun txn plan) → T.may turns.old next }
    ensures { (seen own : List Entry) → T.stands turns.old seen own → ((next : Command) → Carries next (reply.Begun txn plan) → HasCause next own) → AnsweredBy (T.stands turns.new) seen own (λ building. Works (reading building load body.items txn plan) (giving_up load txn)) (response_of result) }
{
    match prepare(alloc, plan, &load.options, body) {
        Prepared::Ready { built, counts } => submit(alloc, turns, load, txn, built, counts, steps),
        Prepared::TooManyRows => {
            let answer = too_many_rows(alloc, &load.sent, txn);
            abort(turns, load.db, txn, load.at, answer, steps)
        }
        Prepared::TooManyFiltered { counts } => {
            let answer = too_many_filtered(alloc, &load.sent, txn, counts);
            abort(turns, load.db, txn, load.at, answer, steps)
        }
        Prepared::NoMemory => give_up(turns, load.db, txn, load.at, steps),
    }
}
