// Lists that are read as one come to what was worked out by hand, row by row and all at once.
ghost use Rattle.std.specs.Prelude.{◌≡◌, ◌<◌, map};
ghost use Rattle.merge_read.specs.Lists.{AreSortedLists};

pub mod counted;
pub mod sorted;
mod tables;

use counted::{Counted, all_looks};
use dl_outside::Steps;
use dl_values::{Cell, ColType, Name, NoMemory, Row, Rows, Text, write_cell};
use merge_read::{Merge, MergedCell, read_all};
use schema_models::{ColumnDef, Role, Shape};
use sorted::are_lists;
use std::alloc::Global;
use std::marker::Brand;
use std::sync::ledger::{Blank, Ledger};
use std::test::Fail;
use tables::{Case, Key, Pair, cases};

fn column(alloc: Global, name: u8, kind: ColType, role: Role) -> Result<ColumnDef, NoMemory> {
    Ok(ColumnDef {
        name: Name::new(alloc, &[name])?,
        kind,
        nullable: true,
        role,
        default: None,
    })
}

fn shape(alloc: Global, case: &Case) -> Result<Option<Shape>, NoMemory> {
    let mut columns = Vec::new(alloc);
    columns.push(column(alloc, b'k', case.key, Role::Key)?)?;
    columns.push(column(alloc, b'v', ColType::BigInt, case.role)?)?;
    Ok(Shape::build(case.model, columns).ok())
}

fn key(alloc: Global, key: Key) -> Result<Cell, NoMemory> {
    match key {
        Key::Null => Ok(Cell::Null),
        Key::Int(value) => Ok(Cell::Int(value)),
        Key::Text(text) => Ok(Cell::Text(Text::new(alloc, text.as_bytes())?)),
    }
}

fn rows(alloc: Global, of: &[Pair]) -> Result<Rows, NoMemory> {
    let mut rows = Rows::new(alloc);
    for (first, second) in of {
        let mut row = Row::new(alloc);
        row.push(key(alloc, *first)?)?;
        row.push(match second {
            Some(value) => Cell::Int(*value),
            None => Cell::Null,
        })?;
        rows.push(row)?;
    }
    Ok(rows)
}

fn lists(alloc: Global, of: &[&[Pair]]) -> Result<Vec<Counted>, NoMemory> {
    let mut lists = Vec::new(alloc);
    for list in of {
        lists.push(Counted::new(rows(alloc, list)?))?;
    }
    Ok(lists)
}

// The text of all rows of lists.
fn at_once<L: Ledger>(
    alloc: Global,
    shape: &Shape,
    lists: &[Counted],
    blank: Blank,
) -> Result<Vec<u8>, NoMemory>
    requires sorted { AreSortedLists shape.now (map (λ l. l.rows) lists.now) }
    requires name { blank.name ≡ L.name }
    requires parts { blank.parts ≡ L.parts }
    requires some { 0 < L.parts }
{
    let mut steps: Steps<L> = Steps::new(blank);
    let rows = read_all(alloc, shape, lists, &mut steps)?;
    let mut text = Vec::new(alloc);
    for place in 0..rows.len() {
        for cell in rows.row(place) {
            write_cell(cell, &mut text)?;
            text.push(b';')?;
        }
    }
    Ok(text)
}

fn write_present(text: &mut Vec<u8>, cells: &[MergedCell]) -> Result<(), NoMemory> {
    for cell in cells {
        match cell {
            MergedCell::Kept(cell) => write_cell(cell, text)?,
            MergedCell::Sum(sum) => write_cell(&Cell::Int(*sum), text)?,
        }
        text.push(b';')?;
    }
    Ok(())
}

// The text of the rows of lists, each as it becomes the present one, with a mark where one comes behind the end.
fn one_by_one<L: Ledger>(
    alloc: Global,
    shape: &Shape,
    lists: &[Counted],
    blank: Blank,
) -> Result<Vec<u8>, NoMemory>
    requires sorted { AreSortedLists shape.now (map (λ l. l.rows) lists.now) }
    requires name { blank.name ≡ L.name }
    requires parts { blank.parts ≡ L.parts }
    requires some { 0 < L.parts }
{
    let mut steps: Steps<L> = Steps::new(blank);
    let mut merge = Merge::open(alloc, shape, lists)?;
    let mut text = Vec::new(alloc);
    while merge.next(&mut steps) {
        write_present(&mut text, merge.present())?;
    }
    if merge.next(&mut steps) {
        text.push(b'!')?;
    }
    Ok(text)
}

// The texts of two readings of the same lists, and how many looks at rows there were after the first and after both.
#[derive(Drop)]
struct Readings {
    at_once: Vec<u8>,
    first_looks: usize,
    one_by_one: Vec<u8>,
    all_looks: usize,
}

fn read_twice(alloc: Global, case: &Case) -> Result<Option<Readings>, NoMemory> {
    let Some(shape) = shape(alloc, case)? else {
        return Ok(None);
    };
    let lists = lists(alloc, case.lists)?;
    if !are_lists(&shape, &lists) {
        return Ok(None);
    }
    let at_once = at_once::<Brand>(alloc, &shape, &lists, Blank::new(1))?;
    let first_looks = all_looks(&lists);
    let one_by_one = one_by_one::<Brand>(alloc, &shape, &lists, Blank::new(1))?;
    Ok(Some(Readings {
        at_once,
        first_looks,
        one_by_one,
        all_looks: all_looks(&lists),
    }))
}

#[test]
fn lists_come_to_their_fold_and_each_row_is_looked_at_once(rt: HostRuntime) -> Result<(), Fail> {
    let alloc = rt.alloc();
    for case in cases() {
        let seen = read_twice(alloc, case)?.ok_or("no lists of the shape")?;
        assert_eq!(rt; seen.at_once.as_slice(), case.wanted.as_bytes());
        assert_eq!(rt; seen.one_by_one.as_slice(), case.wanted.as_bytes());
        assert_eq!(rt; seen.first_looks, case.stored, "at {}", case.wanted);
        assert_eq!(rt;
            Some(seen.all_looks),
            case.stored.checked_mul(2),
            "at {}",
            case.wanted
        );
    }
    Ok(())
}
