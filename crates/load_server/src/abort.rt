// Aborting a load that has begun.
ghost use Rattle.std.specs.Prelude.{List, []};
ghost use Rattle.front_defs.specs.declared.history.Entry.{Entry};
ghost use Rattle.front_defs.specs.declared.command.Command.TheVariants as command;
ghost use Rattle.front_defs.specs.declared.command.TxnKey.TheVariants as key;
ghost use Rattle.front_defs.specs.Script.{Answered, Served, Asks, Ends};
ghost use Rattle.load_server.specs.Responses.{Response, response_of, out_of_memory};
ghost use Rattle.load_server.specs.Scripts.{after_abort, made};

use crate::answer::Answer;
use dl_outside::Steps;
use dl_values::Name;
use front_defs::{Command, Reply, Turns, TxnKey};
use std::sync::ledger::Ledger;

/// Aborts a load, and gives the answer that is there already, where the core does not fail.
pub fn abort<T: Turns, L: Ledger>(
    turns: &mut T,
    db: Name,
    txn: u64,
    at: u64,
    answer: Answer,
    steps: &mut Steps<L>,
) -> Answer
    ensures { (response : Response) → Served (made response) [] (response_of answer) → (seen own : List Entry) → T.stands turns.old seen own → Answered (T.stands turns.new) seen own (Asks (command.Abort db (key.Id txn) at) (after_abort response)) (response_of result) }
{
    let command = Command::Abort {
        db,
        txn: TxnKey::Id(txn),
        at,
    };
    match turns.turn(command, steps) {
        Reply::KeeperFault => Answer::KeeperFault,
        Reply::NoMemory => Answer::OutOfMemory,
        _ => answer,
    }
}

/// Aborts a load since memory is short.
pub fn give_up<T: Turns, L: Ledger>(
    turns: &mut T,
    db: Name,
    txn: u64,
    at: u64,
    steps: &mut Steps<L>,
) -> Answer
    ensures { (seen own : List Entry) → T.stands turns.old seen own → Answered (T.stands turns.new) seen own (Asks (command.Abort db (key.Id txn) at) (λ r. Ends out_of_memory)) (response_of result) }
{
    let command = Command::Abort {
        db,
        txn: TxnKey::Id(txn),
        at,
    };
    let _reply = turns.turn(command, steps);
    Answer::OutOfMemory
}
