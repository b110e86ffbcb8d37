// Queries over stored lists answer what was worked out by hand, and what the plain evaluation answers over the fold of all
// rows; each row in a block that may match is looked at once for an answer, and none for a refusal.
ghost use Rattle.std.specs.Prelude.{◌≡◌, ◌<◌, map};
ghost use Rattle.merge_read.specs.Lists.{AreSortedLists};

mod shown;
mod tables;

use crate::readings::counted::{Counted, all_looks};
use crate::readings::sorted::are_lists;
use dl_outside::Steps;
use dl_values::{Cell, ColType, Name, NoMemory, ResultSet, Row, Rows};
use schema_models::{ColumnDef, Role, Shape, fold};
use select_defs::{SelectError, eval};
use select_eval::select;
use shown::text_of;
use sql_text::{Query, Stmt, parse_stmt};
use std::alloc::Global;
use std::marker::Brand;
use std::process::Abort;
use std::sync::ledger::{Blank, Ledger};
use std::test::Fail;
use tables::{Case, cases};

fn column(alloc: Global, name: &str, kind: ColType, role: Role) -> Result<ColumnDef, NoMemory> {
    Ok(ColumnDef {
        name: Name::new(alloc, name.as_bytes())?,
        kind,
        nullable: true,
        role,
        default: None,
    })
}

// `t (k INT, v BIGINT)` with the key `k`.
fn shape(alloc: Global, case: &Case) -> Result<Shape, Fail> {
    let mut columns = Vec::new(alloc);
    columns.push(column(alloc, "k", ColType::Int, Role::Key)?)?;
    columns.push(column(alloc, "v", ColType::BigInt, case.role)?)?;
    match Shape::build(case.model, columns) {
        Ok(shape) => Ok(shape),
        Err(_) => Err("no shape".into()),
    }
}

fn cell(alloc: Global, kind: ColType, text: &str) -> Result<Cell, Fail> {
    if text == "\\N" {
        return Ok(Cell::Null);
    }
    match kind.read(alloc, text.as_bytes()) {
        Ok(cell) => Ok(cell),
        Err(_) => Err("no cell".into()),
    }
}

fn row(alloc: Global, shape: &Shape, line: &str) -> Result<Row, Fail> {
    let mut row = Row::new(alloc);
    for (column, text) in shape.columns().iter().zip(line.split(',')) {
        row.push(cell(alloc, column.kind, text)?)?;
    }
    Ok(row)
}

fn rows(alloc: Global, shape: &Shape, text: &str) -> Result<Rows, Fail> {
    let mut rows = Rows::new(alloc);
    for line in text.lines() {
        rows.push(row(alloc, shape, line)?)?;
    }
    Ok(rows)
}

// Rows `1,1` `2,2` and so on.
fn rising(alloc: Global, count: i64) -> Result<Rows, NoMemory> {
    let mut rows = Rows::new(alloc);
    for key in 1..=count {
        let mut row = Row::new(alloc);
        row.push(Cell::Int(key))?;
        row.push(Cell::Int(key))?;
        rows.push(row)?;
    }
    Ok(rows)
}

fn lists(alloc: Global, shape: &Shape, case: &Case) -> Result<Vec<Counted>, Fail> {
    let mut lists = Vec::new(alloc);
    for text in case.lists {
        lists.push(Counted::new(rows(alloc, shape, text)?))?;
    }
    if case.rising > 0 {
        lists.push(Counted::new(rising(alloc, case.rising)?))?;
    }
    Ok(lists)
}

fn query(alloc: Global, text: &str) -> Result<Query, Fail> {
    match parse_stmt(alloc, text) {
        Ok(Stmt::Select(query)) => Ok(query),
        _ => Err("no query".into()),
    }
}

fn selected<L: Ledger>(
    alloc: Global,
    shape: &Shape,
    lists: &[Counted],
    query: &Query,
    blank: Blank,
) -> Result<ResultSet, SelectError>
    requires sorted { AreSortedLists shape.now (map (λ l. l.rows) lists.now) }
    requires name { blank.name ≡ L.name }
    requires parts { blank.parts ≡ L.parts }
    requires some { 0 < L.parts }
{
    let mut steps: Steps<L> = Steps::new(blank);
    select(alloc, shape, shape, lists, query, &mut steps)
}

fn add_rows(alloc: Global, all: &mut Rows, rows: &Rows) -> Result<(), NoMemory> {
    for place in 0..rows.len() {
        all.push(Row::from_cells(alloc, rows.row(place))?)?;
    }
    Ok(())
}

// What is answered over the fold of all rows.
fn evaluated(
    alloc: Global,
    shape: &Shape,
    lists: &[Counted],
    query: &Query,
) -> Result<ResultSet, SelectError> {
    let mut all = Rows::new(alloc);
    for list in lists {
        if add_rows(alloc, &mut all, &list.rows).is_err() {
            return Err(SelectError::NoMemory);
        }
    }
    match fold(alloc, shape, &all) {
        Ok(folded) => eval(alloc, shape, shape, query, &folded),
        Err(NoMemory) => Err(SelectError::NoMemory),
    }
}

// What both answer, as texts, and how often the first looked at a row.
#[derive(Drop)]
struct Compared {
    selected: Vec<u8>,
    evaluated: Vec<u8>,
    looks: usize,
}

fn answers_of(alloc: Global, shape: &Shape, case: &Case, text: &str) -> Result<Compared, Fail> {
    let query = query(alloc, text)?;
    let lists = lists(alloc, shape, case)?;
    if !are_lists(shape, &lists) {
        return Err("no lists of the shape".into());
    }
    let selected = selected::<Brand>(alloc, shape, &lists, &query, Blank::new(1));
    let looks = all_looks(&lists);
    let evaluated = evaluated(alloc, shape, &lists, &query);
    Ok(Compared {
        selected: text_of(alloc, selected)?,
        evaluated: text_of(alloc, evaluated)?,
        looks,
    })
}

fn answers(rt: &impl Abort, alloc: Global, case: &Case) -> Result<(), Fail> {
    let shape = shape(alloc, case)?;
    for (text, wanted) in case.queries {
        let seen = answers_of(alloc, &shape, case, text)?;
        assert_eq!(rt; seen.selected.as_slice(), wanted.as_bytes(), "{text}");
        assert_eq!(rt; seen.evaluated.as_slice(), wanted.as_bytes(), "{text}");
        assert_eq!(rt; seen.looks, case.looks, "{text}");
    }
    Ok(())
}

#[test]
fn stored_lists_are_queried_as_their_fold(rt: HostRuntime) -> Result<(), Fail> {
    for case in cases() {
        answers(&rt, rt.alloc(), case)?;
    }
    Ok(())
}
