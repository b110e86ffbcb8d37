// The turns of statements without a result.
ghost use Rattle.std.specs.Prelude.{◌≡◌, IfOk, List, [], false};
ghost use Rattle.front_defs.specs.declared.command.Command.TheVariants as command;
ghost use Rattle.front_defs.specs.declared.history.Entry.{Entry};
ghost use Rattle.front_defs.specs.Script.{Answered, Asks, Served};
ghost use Rattle.load_server.specs.Responses.{response_of, well};
ghost use Rattle.load_server.specs.Scripts.{after_create, creating, refused, made as made_or_lacking};
ghost use Rattle.reply_json.specs.Results.{done_json};
ghost use Rattle.reply_json.specs.Statements.{refused_json};
ghost use Rattle.reply_texts.specs.Texts.{refusal_text as text_of_refusal};
ghost use Rattle.serde_json.specs.Written.{compact_text};

use crate::answer::{Answer, made};
use crate::whole_def::whole_def;
use dl_outside::Steps;
use dl_values::{Name, NoMemory, Text};
use front_defs::{Command, Reply, Turns};
use reply_json::{render_done, render_refused};
use reply_texts::refusal_text;
use sql_text::{PlainDef, TableDef};
use std::alloc::Global;
use std::sync::ledger::Ledger;

/// Makes a database.
pub fn create_db<T: Turns, L: Ledger>(
    alloc: Global,
    turns: &mut T,
    name: Name,
    steps: &mut Steps<L>,
) -> Answer
    ensures { (seen own : List Entry) → T.stands turns.old seen own → Answered (T.stands turns.new) seen own (Asks (command.CreateDb name false) after_create) (response_of result) }
{
    let command = Command::CreateDb {
        name,
        if_not_exists: false,
    };
    let reply = turns.turn(command, steps);
    created(alloc, &reply)
}

/// Makes a table.
pub fn create_table<T: Turns, L: Ledger>(
    alloc: Global,
    turns: &mut T,
    db: Name,
    table: Name,
    def: PlainDef,
    steps: &mut Steps<L>,
) -> Answer
    ensures { (seen own : List Entry) → T.stands turns.old seen own → Answered (T.stands turns.new) seen own (creating db table def) (response_of result) }
{
    match whole_def(alloc, def) {
        Ok(def) => make_table(alloc, turns, db, table, def, steps),
        Err(NoMemory) => Answer::OutOfMemory,
    }
}

fn make_table<T: Turns, L: Ledger>(
    alloc: Global,
    turns: &mut T,
    db: Name,
    table: Name,
    def: TableDef,
    steps: &mut Steps<L>,
) -> Answer
    ensures { (seen own : List Entry) → T.stands turns.old seen own → Answered (T.stands turns.new) seen own (Asks (command.CreateTable db table def false) after_create) (response_of result) }
{
    let command = Command::CreateTable {
        db,
        table,
        def,
        if_not_exists: false,
    };
    let reply = turns.turn(command, steps);
    created(alloc, &reply)
}

// What the core's reply to a CREATE answers.
fn created(alloc: Global, reply: &Reply) -> Answer
    ensures { Served (after_create reply.now) [] (response_of result) }
{
    match reply {
        Reply::Done => made(render_done(alloc)),
        _ => refused(alloc, reply),
    }
}

/// What the core's refusal of a statement answers.
pub fn refused(alloc: Global, reply: &Reply) -> Answer
    ensures { Served (refused reply.now) [] (response_of result) }
{
    match reply {
        Reply::KeeperFault => Answer::KeeperFault,
        Reply::NoMemory => Answer::OutOfMemory,
        _ => made(render_reply(alloc, reply)),
    }
}

fn render_reply(alloc: Global, reply: &Reply) -> Result<Vec<u8>, NoMemory>
    ensures { IfOk result (λ b. b.items ≡ compact_text (refused_json (text_of_refusal reply.now))) }
{
    let message = refusal_text(alloc, reply)?;
    render_refused(alloc, &message)
}

/// A statement that is not served, with the text that says why.
pub fn bad_statement(alloc: Global, message: &Text) -> Answer
    ensures { Served (made_or_lacking (well (refused_json message.now))) [] (response_of result) }
{
    made(render_refused(alloc, message))
}
