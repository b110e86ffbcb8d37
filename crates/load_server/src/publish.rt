// The publish turns of a load.
ghost use Rattle.std.specs.Prelude.{◌+◌, List, [], Option};
ghost use Rattle.front_defs.specs.declared.history.Entry.{Entry};
ghost use Rattle.front_defs.specs.Script.{Answered, Served};
ghost use Rattle.load_server.specs.Publishing.{after_publishing};
ghost use Rattle.load_server.specs.Reports.{succeeded, delayed};
ghost use Rattle.load_server.specs.Responses.{Response, response_of};
ghost use Rattle.load_server.specs.Scripts.{publishing, publishing_from};

use crate::answer::Answer;
use crate::report::{Counts, delayed, succeeded};
use crate::sent::Sent;
use dl_outside::Steps;
use front_defs::{Command, Placed, Reply, Turns};
use std::alloc::Global;
use std::sync::ledger::Ledger;

/// Publishes until a load is visible that has this place, and answers for it. A load that waits for its commit has none.
pub fn publish_from<T: Turns, L: Ledger>(
    alloc: Global,
    turns: &mut T,
    sent: &Sent,
    at: u64,
    txn: u64,
    counts: Counts,
    placed: Option<Placed>,
    steps: &mut Steps<L>,
) -> Answer
    ensures { (seen own : List Entry) → T.stands turns.old seen own → Answered (T.stands turns.new) seen own (publishing_from (succeeded sent.now txn counts.filtered counts.total) (delayed sent.now txn counts.filtered counts.total) at placed) (response_of result) }
{
    match placed {
        None => succeeded(alloc, sent, txn, counts),
        Some(Placed { place, ahead }) => {
            let outcome = publish(turns, at, place, ahead, steps);
            published(alloc, sent, txn, counts, outcome)
        }
    }
}

// What is answered for a load after its publish turns.
fn published(alloc: Global, sent: &Sent, txn: u64, counts: Counts, outcome: Outcome) -> Answer
    ensures { Served (after_publishing (succeeded sent.now txn counts.filtered counts.total) (delayed sent.now txn counts.filtered counts.total) outcome) [] (response_of result) }
{
    match outcome {
        Outcome::Visible => succeeded(alloc, sent, txn, counts),
        Outcome::Late => delayed(alloc, sent, txn, counts),
        Outcome::NoMemory => Answer::OutOfMemory,
    }
}

/// How the publish turns of a load ended.
#[derive(Clone, Copy, Debug, PartialEq, Eq)]
pub enum Outcome {
    /// The load is visible.
    Visible,
    /// A fault came before that: it is committed, and will be published later.
    Late,
    NoMemory,
}

/// Publishes until the load is visible that has this place: at most once, and once more for each load that was ahead.
pub fn publish<T: Turns, L: Ledger>(
    turns: &mut T,
    at: u64,
    place: u64,
    ahead: u64,
    steps: &mut Steps<L>,
) -> Outcome
    ensures { (good late response : Response) → Served (after_publishing good late result) [] response → (seen own : List Entry) → T.stands turns.old seen own → Answered (T.stands turns.new) seen own (publishing good late at place (ahead + 1)) response }
{
    let mut more = ahead;
    loop {
        match turns.turn(Command::Publish { at }, steps) {
            Reply::Published { place: reached, .. } => {
                if place <= reached {
                    return Outcome::Visible;
                }
            }
            Reply::NothingToPublish => return Outcome::Visible,
            Reply::NoMemory => return Outcome::NoMemory,
            _ => return Outcome::Late,
        }
        if more == 0 {
            return Outcome::Visible;
        }
        more -= 1;
    }
}
