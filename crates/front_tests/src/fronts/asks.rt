// Commands in short.
use columnar::are_of_shape;
use dl_values::{Cell, ColType, Name, NoMemory, Row, Rows};
use front_defs::{Command, TxnKey};
use journal_format::EncodedRows;
use partitions::Layout;
use rowsets::Rowset;
use schema_models::{ColumnDef, Model, Role, Shape};
use shadow_writes::{Built, Mapped, Plan, TabletRows};
use sql_text::{ColumnText, ColumnType, Query, TableDef};
use sqlite_items::Items;
use std::alloc::Global;
use std::sync::Arc;

// A command in short, over databases, tables and labels of plain names.
#[derive(Clone, Copy)]
pub enum Ask {
    Db(&'static str),
    Table(&'static str, &'static str),
    HashedBy(&'static str),
    Begin(&'static str, bool, u64),
    Unlabelled,
    Submit(u64, u64, i64),
    Nothing(u64),
    // A table `t` of four buckets, and a load of it with a row in two of them.
    Wide,
    Scatter(u64, i64),
    Publish,
    Commit(&'static str, u64),
    Sweep(u64),
    Drop(&'static str, bool),
    Abort(&'static str),
    AbortId(u64),
    Select(&'static str),
}

pub fn name(alloc: Global, text: &str) -> Result<Name, NoMemory> {
    Name::new(alloc, text.as_bytes())
}

fn names(alloc: Global, text: &str) -> Result<Items<Name>, NoMemory> {
    let mut names = Items::new(alloc);
    names.push(name(alloc, text)?)?;
    Ok(names)
}

// A table of one partition.
fn def(alloc: Global, hash: &str, buckets: u64) -> Result<TableDef, NoMemory> {
    let mut columns = Items::new(alloc);
    columns.push(ColumnText {
        name: name(alloc, "k")?,
        kind: ColumnType::Int,
        agg: None,
        nullable: false,
        default: None,
    })?;
    Ok(TableDef {
        columns,
        key: None,
        ranges: None,
        hash: names(alloc, hash)?,
        buckets: Some(buckets),
        properties: Items::new(alloc),
    })
}

fn plan(alloc: Global, txn: u64, buckets: u32) -> Result<Plan, NoMemory> {
    let mut columns = Vec::new(alloc);
    columns.push(ColumnDef {
        name: name(alloc, "k")?,
        kind: ColType::Int,
        nullable: false,
        role: Role::Key,
        default: None,
    })?;
    let base = match Shape::build(Model::Duplicate, columns) {
        Ok(shape) => shape,
        Err(_) => return Err(NoMemory),
    };
    let layout = Layout::whole(alloc, &base, name(alloc, "t")?, names(alloc, "k")?, buckets)?;
    Ok(Plan {
        txn,
        schema: 0,
        layout,
        base,
        targets: Items::new(alloc),
    })
}

fn one_row(alloc: Global, k: i64) -> Result<Rows, NoMemory> {
    let mut row = Row::new(alloc);
    row.push(Cell::Int(k))?;
    let mut rows = Rows::new(alloc);
    rows.push(row)?;
    Ok(rows)
}

fn rowset(alloc: Global, shape: &Shape, rows: Rows) -> Result<Arc<Rowset>, NoMemory> {
    if !are_of_shape(shape, &rows) {
        return Err(NoMemory);
    }
    Rowset::build(alloc, shape, rows)
}

fn one_set(alloc: Global, shape: &Shape, bucket: u64, k: i64) -> Result<TabletRows, NoMemory> {
    Ok(TabletRows {
        part: 0,
        bucket,
        rows: rowset(alloc, shape, one_row(alloc, k)?)?,
    })
}

fn built_of(
    alloc: Global,
    plan: Plan,
    rows: Rows,
    sets: Items<TabletRows>,
) -> Result<Built, NoMemory> {
    let mut targets = Items::new(alloc);
    targets.push(Mapped::Sets(sets))?;
    Ok(Built {
        plan,
        rows: EncodedRows::new(rows),
        targets,
    })
}

// A load of one row, or of none.
fn built(alloc: Global, txn: u64, k: Option<i64>) -> Result<Built, NoMemory> {
    let plan = plan(alloc, txn, 1)?;
    let mut sets = Items::new(alloc);
    let mut rows = Rows::new(alloc);
    if let Some(k) = k {
        rows = one_row(alloc, k)?;
        sets.push(one_set(alloc, &plan.base, 0, k)?)?;
    }
    built_of(alloc, plan, rows, sets)
}

// A load of two rows in two buckets.
fn scattered(alloc: Global, txn: u64, k: i64) -> Result<Built, NoMemory> {
    let plan = plan(alloc, txn, 4)?;
    let mut sets = Items::new(alloc);
    sets.push(one_set(alloc, &plan.base, 1, k)?)?;
    sets.push(one_set(alloc, &plan.base, 3, 1)?)?;
    let rows = one_row(alloc, k)?;
    built_of(alloc, plan, rows, sets)
}

fn all_of(alloc: Global, table: &str) -> Result<Query, NoMemory> {
    Ok(Query {
        table: name(alloc, table)?,
        star: true,
        items: Items::new(alloc),
        filters: Items::new(alloc),
        group: Items::new(alloc),
        order: Items::new(alloc),
        limit: None,
    })
}

fn begin(
    alloc: Global,
    label: Option<Name>,
    two_phase: bool,
    at: u64,
) -> Result<Command, NoMemory> {
    Ok(Command::Begin {
        db: name(alloc, "d")?,
        table: name(alloc, "t")?,
        label,
        two_phase,
        at,
    })
}

fn create_table(
    alloc: Global,
    db: &str,
    table: &str,
    hash: &str,
    buckets: u64,
) -> Result<Command, NoMemory> {
    Ok(Command::CreateTable {
        db: name(alloc, db)?,
        table: name(alloc, table)?,
        def: def(alloc, hash, buckets)?,
        if_not_exists: false,
    })
}

fn abort(alloc: Global, txn: TxnKey) -> Result<Command, NoMemory> {
    Ok(Command::Abort {
        db: name(alloc, "d")?,
        txn,
        at: 0,
    })
}

pub fn command(alloc: Global, ask: Ask) -> Result<Command, NoMemory> {
    let command = match ask {
        Ask::Db(db) => Command::CreateDb {
            name: name(alloc, db)?,
            if_not_exists: false,
        },
        Ask::Table(db, table) => create_table(alloc, db, table, "k", 1)?,
        Ask::HashedBy(hash) => create_table(alloc, "d", "u", hash, 1)?,
        Ask::Wide => create_table(alloc, "d", "t", "k", 4)?,
        Ask::Begin(label, two_phase, at) => begin(alloc, Some(name(alloc, label)?), two_phase, at)?,
        Ask::Unlabelled => begin(alloc, None, false, 0)?,
        Ask::Submit(txn, at, k) => Command::Submit {
            txn,
            built: built(alloc, txn, Some(k))?,
            at,
        },
        Ask::Nothing(txn) => Command::Submit {
            txn,
            built: built(alloc, txn, None)?,
            at: 0,
        },
        Ask::Scatter(txn, k) => Command::Submit {
            txn,
            built: scattered(alloc, txn, k)?,
            at: 0,
        },
        Ask::Publish => Command::Publish { at: 0 },
        Ask::Commit(label, at) => Command::Commit {
            db: name(alloc, "d")?,
            txn: TxnKey::Label(name(alloc, label)?),
            at,
        },
        Ask::Sweep(at) => Command::Sweep { at },
        Ask::Drop(table, if_exists) => Command::DropTable {
            db: name(alloc, "d")?,
            table: name(alloc, table)?,
            if_exists,
            at: 0,
        },
        Ask::Abort(label) => abort(alloc, TxnKey::Label(name(alloc, label)?))?,
        Ask::AbortId(txn) => abort(alloc, TxnKey::Id(txn))?,
        Ask::Select(table) => Command::Snapshot {
            db: name(alloc, "d")?,
            table: name(alloc, table)?,
            query: all_of(alloc, table)?,
        },
    };
    Ok(command)
}
