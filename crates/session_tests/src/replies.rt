// Turns that give the replies of a list, one after the other.
ghost use Rattle.std.specs.Prelude.{◌≡◌, ◌<◌, IfOk, IfSome, false};
ghost use Rattle.front_defs.specs.Gives.{Gives};
ghost use Rattle.rowsets.specs.RowsetView.{IsListOf};

use columnar::are_of_shape;
use dl_outside::{ListClock, MemorySink, MemorySource, Steps};
use dl_values::{Cell, ColType, Name, NoMemory, Row, Rows};
use front_defs::{Command, Placed, Reply, Turns};
use labels::TxnState;
use load_server::{SessionEnd, session};
use merge_read::Snapshot;
use partitions::Layout;
use rowsets::Rowset;
use schema_models::{ColumnDef, Model, Role, Shape};
use shadow_writes::Plan;
use sqlite_items::Items;
use std::alloc::Global;
use std::marker::Brand;
use std::sync::Arc;
use std::sync::ledger::{Blank, Ledger};

/// A reply of the core in short: the numbers are those of a transaction, its place, and the loads ahead of it. A load of two
/// phases waits.
#[derive(Clone, Copy)]
pub enum Told {
    Done,
    DbExists,
    UnknownTable,
    Begun(u64),
    Submitted(u64, u64),
    Waits,
    Committed(u64, u64, u64),
    WrongState,
    Published(u64, u64),
    Nothing,
    Aborted(u64),
    Used(u64),
    Expired(u64),
    Fault,
    Short,
    TwoLists,
}

/// Gives these replies one after another, and then want of memory. Keeps a letter for each command.
#[derive(Drop)]
pub struct Replies {
    alloc: Global,
    told: Vec<Told>,
    next: usize,
    pub asked: Vec<u8>,
}

impl Turns for Replies {
    ghost use Rattle.std.specs.Prelude.{false};

    ghost stands = { λ s seen own. ⊥ };

    ghost may = { λ s command. Unit {0} };

    ghost vouched = { λ s. false };

    fn turn<L: Ledger>(&mut self, command: Command, _steps: &mut Steps<L>) -> Reply {
        let letter = letter_of(&command);
        let _kept = self.asked.push(letter);
        let place = self.next;
        self.next = place.saturating_add(1);
        match self.told.get(place) {
            Some(told) => reply_of(self.alloc, *told),
            None => Reply::NoMemory,
        }
    }

    ghost legal = { λ s seen own vouched none. absurd none };
}

fn reply_of(alloc: Global, told: Told) -> Reply
    ensures { Gives result }
{
    match told {
        Told::Done => Reply::Done,
        Told::DbExists => Reply::DbExists,
        Told::UnknownTable => Reply::UnknownTable,
        Told::Begun(txn) => begun(alloc, txn),
        Told::Submitted(place, ahead) => Reply::Submitted {
            placed: Some(Placed { place, ahead }),
        },
        Told::Waits => Reply::Submitted { placed: None },
        Told::Committed(txn, place, ahead) => Reply::Committed { txn, place, ahead },
        Told::WrongState => Reply::WrongState {
            state: TxnState::Visible,
        },
        Told::Published(txn, place) => Reply::Published { txn, place },
        Told::Nothing => Reply::NothingToPublish,
        Told::Aborted(txn) => Reply::Aborted { txn },
        Told::Used(txn) => Reply::Used {
            txn,
            state: TxnState::Visible,
        },
        Told::Expired(since) => Reply::Expired { since },
        Told::Fault => Reply::KeeperFault,
        Told::Short => Reply::NoMemory,
        Told::TwoLists => two_lists(alloc),
    }
}

// The reply that begins a load of the table `k INT, v INT` with duplicate key `k`.
fn begun(alloc: Global, txn: u64) -> Reply
    ensures { Gives result }
{
    match plan(alloc, txn) {
        Ok(plan) => Reply::Begun { txn, plan },
        Err(NoMemory) => Reply::NoMemory,
    }
}

ghost use Rattle.partitions.specs.LayoutRules.{IsLayout};

fn plan(alloc: Global, txn: u64) -> Result<Plan, NoMemory>
    ensures { IfOk result (λ p. IsLayout p.base p.layout) }
{
    let base = pairs(alloc)?;
    let name = Name::new(alloc, b"t")?;
    let layout = Layout::whole(alloc, &base, name, Items::new(alloc), 1)?;
    Ok(Plan {
        txn,
        schema: 0,
        layout,
        base,
        targets: Items::new(alloc),
    })
}

// A snapshot of two stored lists, one of which has the row 1, 6 and 2, 7, and one the row 1, 5.
fn two_lists(alloc: Global) -> Reply
    ensures { Gives result }
{
    match snapshot(alloc) {
        Ok(Some(snapshot)) => Reply::Snap { snapshot },
        _ => Reply::NoMemory,
    }
}

ghost use Rattle.std.specs.List.{AllByRecursion};

fn snapshot(alloc: Global) -> Result<Option<Snapshot<Arc<Rowset>>>, NoMemory>
    ensures { IfOk result (λ found. IfSome found (λ s. AllByRecursion (λ l. IsListOf s.index l.value) s.lists)) }
{
    let base = pairs(alloc)?;
    let index = pairs(alloc)?;
    let first = stored(alloc, &index, &[(1, 6), (2, 7)])?;
    let second = stored(alloc, &index, &[(1, 5)])?;
    match (first, second) {
        (Some(first), Some(second)) => {
            let mut lists = Items::new(alloc);
            lists.push(first)?;
            lists.push(second)?;
            Ok(Some(Snapshot { base, index, lists }))
        }
        _ => Ok(None),
    }
}

fn stored(alloc: Global, shape: &Shape, of: &[(i64, i64)]) -> Result<Option<Arc<Rowset>>, NoMemory>
    ensures { IfOk result (λ found. IfSome found (λ r. IsListOf shape.now r.value)) }
{
    let rows = rows_of(alloc, of)?;
    if !are_of_shape(shape, &rows) {
        return Ok(None);
    }
    let rowset = Rowset::build(alloc, shape, rows)?;
    if rowset.is_of(shape) {
        Ok(Some(rowset))
    } else {
        Ok(None)
    }
}

fn rows_of(alloc: Global, of: &[(i64, i64)]) -> Result<Rows, NoMemory> {
    let mut rows = Rows::new(alloc);
    for (k, v) in of {
        let mut row = Row::new(alloc);
        row.push(Cell::Int(*k))?;
        row.push(Cell::Int(*v))?;
        rows.push(row)?;
    }
    Ok(rows)
}

// D and T for the statements that make a database and a table, Q for a query, 2 for the begin of a load of two phases.
fn letter_of(command: &Command) -> u8 {
    match command {
        Command::CreateDb { .. } => b'D',
        Command::CreateTable { .. } => b'T',
        Command::Begin {
            two_phase: true,
            ..
        } => b'2',
        Command::Begin { .. } => b'B',
        Command::Submit { .. } => b'S',
        Command::Publish { .. } => b'P',
        Command::Commit { .. } => b'C',
        Command::Abort { .. } => b'A',
        Command::Snapshot { .. } => b'Q',
        // A session asks nothing else.
        _ => b'?',
    }
}

/// What a session did: how it ended, what was written, and what was asked.
#[derive(Drop)]
pub struct Run {
    pub end: SessionEnd,
    pub written: Vec<u8>,
    pub asked: Vec<u8>,
}

// A session whose input comes in pieces of 7 bytes, and of whose writes some fail.
fn session_over<L: Ledger>(
    alloc: Global,
    input: &[u8],
    told: &[Told],
    fails: &[u64],
    blank: Blank,
) -> Result<Run, NoMemory>
    requires name { blank.name ≡ L.name }
    requires parts { blank.parts ≡ L.parts }
    requires some { 0 < L.parts }
{
    let mut turns = Replies {
        alloc,
        told: Vec::from_slice(alloc, told)?,
        next: 0,
        asked: Vec::new(alloc),
    };
    let mut source = MemorySource::new(Vec::from_slice(alloc, input)?, 7, Vec::new(alloc));
    let mut sink = MemorySink::new(Vec::new(alloc), Vec::from_slice(alloc, fails)?);
    let mut clock = ListClock::new(Vec::from_slice(alloc, &[5u64, 6])?);
    let mut steps: Steps<L> = Steps::new(blank);
    let end = session(
        alloc,
        &mut turns,
        &mut source,
        &mut sink,
        &mut clock,
        &mut steps,
    );
    Ok(Run {
        end,
        written: Vec::from_slice(alloc, sink.bytes())?,
        asked: turns.asked,
    })
}

/// A session over these replies. Its input comes in pieces of 7 bytes, and the writes with these
/// numbers fail.
pub fn ran(alloc: Global, input: &[u8], told: &[Told], fails: &[u64]) -> Result<Run, NoMemory> {
    session_over::<Brand>(alloc, input, told, fails, Blank::new(1))
}

fn column(alloc: Global, name: &[u8], role: Role) -> Result<ColumnDef, NoMemory> {
    Ok(ColumnDef {
        name: Name::new(alloc, name)?,
        kind: ColType::Int,
        nullable: true,
        role,
        default: None,
    })
}

// The shape of `k INT, v INT` with duplicate key `k`.
fn pairs(alloc: Global) -> Result<Shape, NoMemory> {
    let mut columns = Vec::new(alloc);
    columns.push(column(alloc, b"k", Role::Key)?)?;
    columns.push(column(alloc, b"v", Role::Plain)?)?;
    match Shape::build(Model::Duplicate, columns) {
        Ok(shape) => Ok(shape),
        Err(_) => Err(NoMemory),
    }
}
