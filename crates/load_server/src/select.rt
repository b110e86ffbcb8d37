// The turn of a query, and its result.
ghost use Rattle.std.specs.Prelude.{◌≡◌, IfOk, List, [], map};
ghost use Rattle.front_defs.specs.declared.history.Entry.{Entry};
ghost use Rattle.front_defs.specs.declared.command.Command.TheVariants as command;
ghost use Rattle.front_defs.specs.declared.reply.Reply.TheVariants as reply;
ghost use Rattle.front_defs.specs.Gives.{Gives};
ghost use Rattle.front_defs.specs.Script.{Answered, Asks, Served};
ghost use Rattle.rowsets.specs.RowsetView.{rowset_rows};
ghost use Rattle.load_server.specs.Responses.{response_of, well};
ghost use Rattle.load_server.specs.Results.{all_json};
ghost use Rattle.load_server.specs.Scripts.{after_snapshot, all_of, selecting, made as made_or_lacking};
ghost use Rattle.front_defs.specs.Words.{type_text as text_of_type};
ghost use Rattle.serde_json.specs.Written.{compact_text};

use crate::answer::{Answer, made};
use crate::statement::refused;
use dl_outside::Steps;
use dl_values::{Name, NoMemory, ResultSet, Text};
use front_defs::{Command, Reply, Turns};
use merge_read::{Snapshot, read_all};
use reply_json::render_result;
use reply_texts::type_text;
use rowsets::Rowset;
use schema_models::ColumnDef;
use sql_text::Query;
use sqlite_items::Items;
use std::alloc::Global;
use std::sync::Arc;
use std::sync::ledger::Ledger;

/// Reads all columns of a table.
pub fn select<T: Turns, L: Ledger>(
    alloc: Global,
    turns: &mut T,
    db: Name,
    table: Name,
    steps: &mut Steps<L>,
) -> Answer
    ensures { (seen own : List Entry) → T.stands turns.old seen own → Answered (T.stands turns.new) seen own (selecting db table) (response_of result) }
{
    match table.copy(alloc) {
        Ok(name) => {
            let query = all_of(alloc, name);
            snapshot(alloc, turns, db, table, query, steps)
        }
        Err(NoMemory) => Answer::OutOfMemory,
    }
}

// `SELECT * FROM table`
fn all_of(alloc: Global, table: Name) -> Query
    ensures { result ≡ all_of table }
{
    Query {
        table,
        star: true,
        items: Items::new(alloc),
        filters: Items::new(alloc),
        group: Items::new(alloc),
        order: Items::new(alloc),
        limit: None,
    }
}

fn snapshot<T: Turns, L: Ledger>(
    alloc: Global,
    turns: &mut T,
    db: Name,
    table: Name,
    query: Query,
    steps: &mut Steps<L>,
) -> Answer
    ensures { (seen own : List Entry) → T.stands turns.old seen own → Answered (T.stands turns.new) seen own (Asks (command.Snapshot db table query) after_snapshot) (response_of result) }
{
    let reply = turns.turn(Command::Snapshot { db, table, query }, steps);
    selected(alloc, &reply, steps)
}

// What the core's reply to a Snapshot answers.
fn selected<L: Ledger>(alloc: Global, reply: &Reply, steps: &mut Steps<L>) -> Answer
    requires { Gives reply.now }
    ensures { Served (after_snapshot reply.now) [] (response_of result) }
{
    match reply {
        Reply::Snap { snapshot } => made(render_snapshot(alloc, snapshot, steps)),
        _ => refused(alloc, reply),
    }
}

#[tactic(auto, unfolding(crate::specs::Results::all_json))]
fn render_snapshot<L: Ledger>(
    alloc: Global,
    snapshot: &Snapshot<Arc<Rowset>>,
    steps: &mut Steps<L>,
) -> Result<Vec<u8>, NoMemory>
    requires { Gives (reply.Snap snapshot.now) }
    ensures { IfOk result (λ b. b.items ≡ compact_text (all_json snapshot.now.index (map (λ l. rowset_rows l.value) snapshot.now.lists))) }
{
    let rows = read_all(alloc, &snapshot.index, snapshot.lists.as_slice(), steps)?;
    let columns = snapshot.index.columns();
    let set = ResultSet {
        names: names_of(alloc, columns)?,
        types: types_of(alloc, columns)?,
        rows,
    };
    render_result(alloc, &set)
}

fn names_of(alloc: Global, columns: &[ColumnDef]) -> Result<Vec<Text>, NoMemory>
    ensures { IfOk result (λ names. names.items ≡ map (λ column. column.name) columns.now) }
{
    let mut names = Vec::with_capacity(alloc, columns.len())?;
    for column in columns {
        names.push(Text::new(alloc, column.name.bytes())?)?;
    }
    Ok(names)
}

fn types_of(alloc: Global, columns: &[ColumnDef]) -> Result<Vec<Text>, NoMemory>
    ensures { IfOk result (λ types. types.items ≡ map (λ column. text_of_type column.kind) columns.now) }
{
    let mut types = Vec::with_capacity(alloc, columns.len())?;
    for column in columns {
        types.push(type_text(alloc, column.kind)?)?;
    }
    Ok(types)
}
