// The turns of an end of a two-phase load.
ghost use Rattle.std.specs.Prelude.{◌≡◌, ◌+◌, List, [], true, false};
ghost use Rattle.front_defs.specs.declared.command.Command.TheVariants as command;
ghost use Rattle.front_defs.specs.declared.history.Entry.{Entry};
ghost use Rattle.front_defs.specs.Script.{Answered, Asks, Served};
ghost use Rattle.load_server.specs.Ends.{ended};
ghost use Rattle.load_server.specs.Publishing.{after_publishing};
ghost use Rattle.load_server.specs.Responses.{response_of};
ghost use Rattle.load_server.specs.Scripts.{after_asked_abort, after_commit, ending, key_of, publishing};

use crate::answer::Answer;
use crate::end_report::{ended, refused_by};
use crate::publish::{Outcome, publish};
use dl_outside::Steps;
use dl_values::Name;
use front_defs::{Command, Reply, Turns, TxnKey};
use load_requests::EndKey;
use std::alloc::Global;
use std::sync::ledger::Ledger;

/// The transaction that an end names.
pub fn txn_key(key: EndKey) -> TxnKey
    ensures { result ≡ key_of key }
{
    match key {
        EndKey::Id(id) => TxnKey::Id(id),
        EndKey::Label(label) => TxnKey::Label(label),
    }
}

/// Commits a two-phase load and publishes it, or aborts it.
pub fn end<T: Turns, L: Ledger>(
    alloc: Global,
    turns: &mut T,
    db: Name,
    txn: TxnKey,
    commit: bool,
    at: u64,
    steps: &mut Steps<L>,
) -> Answer
    ensures { (seen own : List Entry) → T.stands turns.old seen own → Answered (T.stands turns.new) seen own (ending db txn commit at) (response_of result) }
{
    if commit {
        commit_load(alloc, turns, db, txn, at, steps)
    } else {
        abort_load(alloc, turns, db, txn, at, steps)
    }
}

fn commit_load<T: Turns, L: Ledger>(
    alloc: Global,
    turns: &mut T,
    db: Name,
    txn: TxnKey,
    at: u64,
    steps: &mut Steps<L>,
) -> Answer
    ensures { (seen own : List Entry) → T.stands turns.old seen own → Answered (T.stands turns.new) seen own (Asks (command.Commit db txn at) (after_commit at)) (response_of result) }
{
    match turns.turn(Command::Commit { db, txn, at }, steps) {
        Reply::Committed { txn, place, ahead } => {
            publish_committed(alloc, turns, txn, at, place, ahead, steps)
        }
        other => refused_by(alloc, &other),
    }
}

// Publishes a load that was committed, and answers for it.
fn publish_committed<T: Turns, L: Ledger>(
    alloc: Global,
    turns: &mut T,
    txn: u64,
    at: u64,
    place: u64,
    ahead: u64,
    steps: &mut Steps<L>,
) -> Answer
    ensures { (seen own : List Entry) → T.stands turns.old seen own → Answered (T.stands turns.new) seen own (publishing (ended true true txn) (ended true false txn) at place (ahead + 1)) (response_of result) }
{
    let outcome = publish(turns, at, place, ahead, steps);
    committed(alloc, txn, outcome)
}

// What is answered for a load that was committed after its publish turns.
fn committed(alloc: Global, txn: u64, outcome: Outcome) -> Answer
    ensures { Served (after_publishing (ended true true txn) (ended true false txn) outcome) [] (response_of result) }
{
    match outcome {
        Outcome::Visible => ended(alloc, true, true, txn),
        Outcome::Late => ended(alloc, true, false, txn),
        Outcome::NoMemory => Answer::OutOfMemory,
    }
}

fn abort_load<T: Turns, L: Ledger>(
    alloc: Global,
    turns: &mut T,
    db: Name,
    txn: TxnKey,
    at: u64,
    steps: &mut Steps<L>,
) -> Answer
    ensures { (seen own : List Entry) → T.stands turns.old seen own → Answered (T.stands turns.new) seen own (Asks (command.Abort db txn at) after_asked_abort) (response_of result) }
{
    let reply = turns.turn(Command::Abort { db, txn, at }, steps);
    aborted(alloc, &reply)
}

// What the core's reply to the Abort answers.
fn aborted(alloc: Global, reply: &Reply) -> Answer
    ensures { Served (after_asked_abort reply.now) [] (response_of result) }
{
    match reply {
        Reply::Aborted { txn } => ended(alloc, false, false, *txn),
        _ => refused_by(alloc, reply),
    }
}
