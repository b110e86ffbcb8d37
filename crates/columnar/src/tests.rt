// Rows by column have the rows that they were made of, and know the marks of their shape.
ghost use Rattle.std.specs.Prelude.{◌≡◌, ◌<◌};

use crate::{Blocks, are_of_shape};
use dl_outside::Steps;
use dl_values::{AggKind, Cell, ColType, Name, NoMemory, Row, RowView, Rows, compare_cells};
use schema_models::{ColumnDef, Model, Role, Shape};
use std::alloc::Global;
use std::cmp::Ordering;
use std::marker::Brand;
use std::sync::ledger::{Blank, Ledger};
use std::test::Fail;
use zones::{Op, Test, Zones};

// What a shape of two columns is made of.
#[derive(Clone, Copy, Debug)]
pub struct Kinds {
    model: Model,
    key: ColType,
    second: Role,
    nullable: bool,
}

// A key and a sum that may be null.
pub const COUNTED: Kinds = Kinds {
    model: Model::Aggregate,
    key: ColType::Int,
    second: Role::Agg(AggKind::Sum),
    nullable: true,
};

// Shapes that differ from that one in one thing, and whether the rows by column are of them.
const OTHERS: &[(Kinds, bool)] = &[
    (COUNTED, true),
    (
        Kinds {
            second: Role::Agg(AggKind::Max),
            ..COUNTED
        },
        true,
    ),
    (
        Kinds {
            model: Model::Unique,
            second: Role::Plain,
            ..COUNTED
        },
        false,
    ),
    (
        Kinds {
            second: Role::Key,
            ..COUNTED
        },
        false,
    ),
    (
        Kinds {
            key: ColType::BigInt,
            ..COUNTED
        },
        false,
    ),
    (
        Kinds {
            nullable: false,
            ..COUNTED
        },
        false,
    ),
];

fn others() -> &'static [(Kinds, bool)] {
    OTHERS
}

fn column(
    alloc: Global,
    name: u8,
    kind: ColType,
    nullable: bool,
    role: Role,
) -> Result<ColumnDef, NoMemory> {
    Ok(ColumnDef {
        name: Name::new(alloc, &[name])?,
        kind,
        nullable,
        role,
        default: None,
    })
}

pub fn shape(alloc: Global, kinds: Kinds) -> Result<Option<Shape>, NoMemory> {
    let mut columns = Vec::new(alloc);
    columns.push(column(alloc, b'k', kinds.key, false, Role::Key)?)?;
    columns.push(column(alloc, b'v', ColType::BigInt, kinds.nullable, kinds.second)?)?;
    Ok(Shape::build(kinds.model, columns).ok())
}

// So many rows, each with its place and that number below zero, which is null in each third row.
fn rows(alloc: Global, count: u32) -> Result<Rows, NoMemory> {
    let mut rows = Rows::new(alloc);
    for place in 0..count {
        let number = i64::from(place);
        let mut row = Row::new(alloc);
        row.push(Cell::Int(number))?;
        row.push(if place % 3 == 0 {
            Cell::Null
        } else {
            Cell::Int(-number)
        })?;
        rows.push(row)?;
    }
    Ok(rows)
}

// So many rows by column, where they are of the shape.
pub fn stored(alloc: Global, shape: &Shape, count: u32) -> Result<Option<Blocks>, NoMemory> {
    let given = rows(alloc, count)?;
    if are_of_shape(shape, &given) {
        Ok(Some(Blocks::from_rows(alloc, shape, given)?))
    } else {
        Ok(None)
    }
}

// Whether rows by column are these rows, each looked at by its place.
fn are_same<L: Ledger>(blocks: &Blocks, rows: &Rows, blank: Blank) -> bool
    requires name { blank.name ≡ L.name }
    requires parts { blank.parts ≡ L.parts }
    requires some { 0 < L.parts }
{
    let mut steps: Steps<L> = Steps::new(blank);
    if blocks.len() != rows.len() {
        return false;
    }
    for place in 0..blocks.len() {
        if !is_same(&blocks.row(place, &mut steps), rows.row(place)) {
            return false;
        }
    }
    true
}

fn is_same(view: &RowView, cells: &[Cell]) -> bool {
    if view.len() != cells.len() {
        return false;
    }
    for column in 0..cells.len() {
        match compare_cells(view.cell(column), &cells[column]) {
            Ordering::Equal => {}
            Ordering::Less | Ordering::Greater => return false,
        }
    }
    true
}

// Whether so many rows by column are the rows that they were made of.
fn are_kept(alloc: Global, count: u32) -> Result<bool, NoMemory> {
    let Some(shape) = shape(alloc, COUNTED)? else {
        return Ok(false);
    };
    match stored(alloc, &shape, count)? {
        Some(blocks) => Ok(are_same::<Brand>(&blocks, &rows(alloc, count)?, Blank::new(1))),
        None => Ok(false),
    }
}

#[test]
fn rows_by_column_are_the_rows_that_were_given(rt: HostRuntime) -> Result<(), Fail> {
    for count in [0, 1, 1023, 1024, 1025, 2049] {
        let kept = are_kept(rt.alloc(), count)?;
        assert!(rt; kept, "of {count} rows");
    }
    Ok(())
}

// So many rows, a place among them, and its block and the end of that.
const PLACES: &[(u32, usize, usize, usize)] = &[
    (1, 0, 0, 1),
    (1023, 1022, 0, 1023),
    (1024, 0, 0, 1024),
    (1024, 1023, 0, 1024),
    (1025, 1023, 0, 1024),
    (1025, 1024, 1, 1025),
    (2049, 1024, 1, 2048),
    (2049, 2047, 1, 2048),
    (2049, 2048, 2, 2049),
];

fn places() -> &'static [(u32, usize, usize, usize)] {
    PLACES
}

// The block of a place and the end of that block, where there is a row at the place.
fn block_at(blocks: &Blocks, place: usize) -> Option<(usize, usize)> {
    if place < blocks.len() {
        Some((blocks.block_of(place), blocks.block_end(place)))
    } else {
        None
    }
}

#[test]
fn a_block_has_1024_places_and_the_last_the_rest(rt: HostRuntime) -> Result<(), Fail> {
    let alloc = rt.alloc();
    let shape = shape(alloc, COUNTED)?.ok_or("no shape")?;
    let none = stored(alloc, &shape, 0)?.ok_or("no rows of the shape")?;
    assert_eq!(rt; block_at(&none, 0), None);
    for (rows, place, block, end) in places() {
        let blocks = stored(alloc, &shape, *rows)?.ok_or("no rows of the shape")?;
        assert_eq!(rt;
            block_at(&blocks, *place),
            Some((*block, *end)),
            "at {place} of {rows}"
        );
    }
    Ok(())
}

#[test]
fn rows_by_column_are_of_the_shapes_with_their_marks(rt: HostRuntime) -> Result<(), Fail> {
    let alloc = rt.alloc();
    let first = shape(alloc, COUNTED)?.ok_or("no shape")?;
    let blocks = stored(alloc, &first, 3)?.ok_or("no rows of the shape")?;
    for (kinds, wanted) in others() {
        let other = shape(alloc, *kinds)?.ok_or("no shape")?;
        assert_eq!(rt; blocks.is_of(&other), *wanted, "of {kinds:?}");
    }
    Ok(())
}

const OPS: [Op; 8] = [
    Op::Eq,
    Op::Ne,
    Op::Lt,
    Op::Le,
    Op::Gt,
    Op::Ge,
    Op::IsNull,
    Op::IsNotNull,
];

// Of 1,026 rows, a column and a place, and for each operator in the order of `OPS` whether the block of the place may match it
// beside a literal. The first block has the keys from 0 to 1,023, the second 1,024 and 1,025; beside them stand nulls and the
// keys below zero, in the second block -1,024 and -1,025. Of a third column, which there is not, all cells are null.
const MATCHES: &[(usize, usize, Option<i64>, &str)] = &[
    (0, 0, Some(-1), "nynnyyny"),
    (0, 0, Some(0), "yynyyyny"),
    (0, 0, Some(500), "yyyyyyny"),
    (0, 1023, Some(1023), "yyyynyny"),
    (0, 1023, Some(1024), "nyyynnny"),
    (0, 1024, Some(1023), "nynnyyny"),
    (0, 1025, Some(1024), "yynyyyny"),
    (0, 1025, Some(1026), "nyyynnny"),
    (0, 0, None, "nnnnnnny"),
    (1, 0, Some(-1), "yyyynyyy"),
    (1, 0, Some(0), "nyyynnyy"),
    (1, 1024, Some(-1025), "yynyyyny"),
    (1, 1024, Some(-1026), "nynnyyny"),
    (1, 1024, Some(-1024), "yyyynyny"),
    (2, 0, Some(1), "nnnnnnyn"),
];

fn matches() -> &'static [(usize, usize, Option<i64>, &'static str)] {
    MATCHES
}

// Whether the block of a place may match a test; false where there is no row at the place.
fn may_match(blocks: &Blocks, place: usize, test: &Test) -> bool {
    if place < blocks.len() {
        blocks.block_may_match(blocks.block_of(place), test)
    } else {
        false
    }
}

// For each operator whether the block of a place may match it.
fn answers(
    alloc: Global,
    blocks: &Blocks,
    column: usize,
    place: usize,
    literal: Option<i64>,
) -> Result<Vec<u8>, NoMemory> {
    let mut answers = Vec::new(alloc);
    for op in OPS {
        let literal = match literal {
            Some(number) => Cell::Int(number),
            None => Cell::Null,
        };
        let test = Test {
            column,
            op,
            literal,
        };
        let answer = may_match(blocks, place, &test);
        answers.push(if answer { b'y' } else { b'n' })?;
    }
    Ok(answers)
}

#[test]
fn a_block_may_match_by_its_least_and_its_greatest(rt: HostRuntime) -> Result<(), Fail> {
    let alloc = rt.alloc();
    let shape = shape(alloc, COUNTED)?.ok_or("no shape")?;
    let blocks = stored(alloc, &shape, 1026)?.ok_or("no rows of the shape")?;
    for (column, place, literal, wanted) in matches() {
        let answers = answers(alloc, &blocks, *column, *place, *literal)?;
        assert_eq!(rt;
            answers.as_slice(),
            wanted.as_bytes(),
            "column {column} at {place} beside {literal:?}"
        );
    }
    let one = stored(alloc, &shape, 1)?.ok_or("no rows of the shape")?;
    let nulls = answers(alloc, &one, 1, 0, Some(0))?;
    assert_eq!(rt;
        nulls.as_slice(),
        b"nnnnnnyn".as_slice(),
        "all cells are null"
    );
    Ok(())
}
