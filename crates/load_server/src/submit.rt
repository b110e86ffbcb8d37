// Submitting a load that was built.
ghost use Rattle.std.specs.Prelude.{◌≡◌, List};
ghost use Rattle.front_defs.specs.declared.command.Command.TheVariants as command;
ghost use Rattle.front_defs.specs.declared.history.Entry.{Entry};
ghost use Rattle.front_defs.specs.May.{May};
ghost use Rattle.front_defs.specs.Script.{Answered, Asks};
ghost use Rattle.load_server.specs.Responses.{response_of};
ghost use Rattle.load_server.specs.Scripts.{after_submit};

use crate::abort::{abort, give_up};
use crate::answer::Answer;
use crate::load::Load;
use crate::publish::publish_from;
use crate::report::{Counts, failed_by};
use dl_outside::Steps;
use front_defs::{Command, Reply, Turns};
use shadow_writes::Built;
use std::alloc::Global;
use std::sync::ledger::Ledger;

/// Submits a load and publishes it. A load that the core does not take for its age, or for want of memory, is aborted.
pub fn submit<T: Turns, L: Ledger>(
    alloc: Global,
    turns: &mut T,
    load: Load,
    txn: u64,
    built: Built,
    counts: Counts,
    steps: &mut Steps<L>,
) -> Answer
    requires { T.may turns.old (command.Submit txn built load.at) }
    ensures { (seen own : List Entry) → T.stands turns.old seen own → May own (command.Submit txn built load.at) → Answered (T.stands turns.new) seen own (Asks (command.Submit txn built load.at) (after_submit load txn counts.filtered counts.total)) (response_of result) }
{
    let Load { db, sent, at, .. } = load;
    match turns.turn(Command::Submit { txn, built, at }, steps) {
        Reply::Submitted { placed } => {
            publish_from(alloc, turns, &sent, at, txn, counts, placed, steps)
        }
        Reply::Expired { since } => {
            let reply = Reply::Expired { since };
            let answer = failed_by(alloc, &sent, txn, &reply, counts);
            abort(turns, db, txn, at, answer, steps)
        }
        Reply::NoMemory => give_up(turns, db, txn, at, steps),
        Reply::KeeperFault => Answer::KeeperFault,
        other => failed_by(alloc, &sent, txn, &other, counts),
    }
}
