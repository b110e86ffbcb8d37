// Tables of folds, beside the plain fold.
ghost use Rattle.std.specs.Prelude.{◌≡◌, ◌<◌};

use super::tables::{Pair, TextPair, are_same, row, rows, rows_of_texts, shape};
use dl_outside::Steps;
use dl_values::{AggKind, ColType, NoMemory, Row, Rows, write_cell};
use row_fold::{SortedRows, fold as fold_list, fold_rows, fold_rows_of, fold_sorted};
use schema_models::{Model, Role, Shape, fold};
use std::alloc::Global;
use std::marker::Brand;
use std::sync::Arc;
use std::sync::ledger::{Blank, Ledger};
use std::test::Fail;

fn quick_is(alloc: Global, shape: &Shape, given: Rows, wanted: &Rows) -> Result<bool, NoMemory> {
    let quick = fold_rows(alloc, shape, given)?;
    Ok(are_same(&quick, wanted))
}

// The fold of rows that stay here, and of what it gave once more.
fn kept_is(alloc: Global, shape: &Shape, given: &Rows, wanted: &Rows) -> Result<bool, NoMemory> {
    let kept = fold_rows_of(alloc, shape, given)?;
    let again = fold_rows_of(alloc, shape, &kept)?;
    Ok(are_same(&kept, wanted) && are_same(&again, wanted))
}

// Whether the quick folds of these rows are the plain one, and these many rows.
fn agrees(alloc: Global, shape: &Shape, given: Rows, count: usize) -> Result<bool, NoMemory> {
    let plain = fold(alloc, shape, &given)?;
    let kept = kept_is(alloc, shape, &given, &plain)?;
    let quick = quick_is(alloc, shape, given, &plain)?;
    Ok(kept && quick && plain.len() == count)
}

const GIVEN: &[Pair] = &[
    (Some(2), Some(1)),
    (None, Some(7)),
    (Some(i64::MIN + 1), Some(3)),
    (Some(i64::MAX), Some(4)),
    (Some(i64::MIN), Some(5)),
    (Some(2), None),
    (Some(-1), Some(6)),
    (Some(i64::MAX - 1), Some(4)),
    (Some(2), Some(1)),
    (Some(i64::MIN), Some(8)),
];

fn given() -> &'static [Pair] {
    GIVEN
}

// A model, the role of the value, how many of the rows are folded, and how many rows that gives.
type Case = (Model, Role, usize, usize);

const CASES: &[Case] = &[
    (Model::Duplicate, Role::Plain, 10, 10),
    (Model::Unique, Role::Plain, 10, 7),
    (Model::Aggregate, Role::Agg(AggKind::Sum), 10, 7),
    (Model::Aggregate, Role::Agg(AggKind::Max), 10, 7),
    (
        Model::Aggregate,
        Role::Agg(AggKind::ReplaceIfNotNull),
        10,
        7,
    ),
    (Model::Unique, Role::Plain, 0, 0),
];

fn cases() -> &'static [Case] {
    CASES
}

fn case_agrees(alloc: Global, of: &Case) -> Result<bool, Fail> {
    let (model, role, first, count) = of;
    let shape = shape(alloc, *model, ColType::BigInt, *role)?;
    let given = given().get(..*first).unwrap_or(&[]);
    Ok(agrees(alloc, &shape, rows(alloc, given)?, *count)?)
}

#[test]
fn the_quick_fold_is_the_plain_one(rt: HostRuntime) -> Result<(), Fail> {
    for one in cases() {
        assert!(rt;
            case_agrees(rt.alloc(), one)?,
            "{} rows of {}",
            one.3,
            one.2
        );
    }
    Ok(())
}

const TEXTS: &[TextPair] = &[
    (Some(b"b"), 1),
    (Some(b"a longer text than fifteen"), 2),
    (None, 3),
    (Some(b"b"), 4),
];

fn texts() -> &'static [TextPair] {
    TEXTS
}

#[test]
fn keys_of_texts_are_in_order(rt: HostRuntime) -> Result<(), Fail> {
    let shape = shape(rt.alloc(), Model::Unique, ColType::Varchar(30), Role::Plain)?;
    assert!(rt; agrees(rt.alloc(), &shape, rows_of_texts(rt.alloc(), texts())?, 3)?);
    Ok(())
}

fn list(alloc: Global, of: &[Pair]) -> Result<Vec<Row>, NoMemory> {
    let mut list = Vec::new(alloc);
    for one in of {
        list.push(row(alloc, one)?)?;
    }
    Ok(list)
}

fn gather(rows: Vec<Row>, alloc: Global) -> Result<Rows, NoMemory> {
    let mut out = Rows::new(alloc);
    for row in rows {
        out.push(row)?;
    }
    Ok(out)
}

// Whether a list of these rows folds to those.
fn list_is(alloc: Global, shape: &Shape, of: &[Pair], wanted: &[Pair]) -> Result<bool, NoMemory> {
    let folded = gather(fold_list(alloc, shape, list(alloc, of)?)?, alloc)?;
    Ok(are_same(&folded, &rows(alloc, wanted)?))
}

const THREE: &[Pair] = &[(Some(3), Some(1)), (None, Some(2)), (Some(3), Some(-1))];

fn three() -> &'static [Pair] {
    THREE
}

const TWO: &[Pair] = &[(None, Some(2)), (Some(3), Some(-1))];

fn two() -> &'static [Pair] {
    TWO
}

const ONE: &[Pair] = &[(Some(3), Some(1))];

fn one() -> &'static [Pair] {
    ONE
}

#[test]
fn lists_fold_as_rows_do(rt: HostRuntime) -> Result<(), Fail> {
    let role = Role::Agg(AggKind::Min);
    let shape = shape(rt.alloc(), Model::Aggregate, ColType::BigInt, role)?;
    assert!(rt; list_is(rt.alloc(), &shape, three(), two())?);
    assert!(rt; list_is(rt.alloc(), &shape, one(), one())?);
    Ok(())
}

fn count_of_none(alloc: Global, shape: &Shape) -> Result<usize, NoMemory> {
    let none = fold_sorted(alloc, shape, Vec::new(alloc))?;
    Ok(none.len())
}

#[test]
fn a_sorted_list_of_no_rows_folds_to_none(rt: HostRuntime) -> Result<(), Fail> {
    let shape = shape(rt.alloc(), Model::Unique, ColType::BigInt, Role::Plain)?;
    assert!(rt; count_of_none(rt.alloc(), &shape)? == 0);
    Ok(())
}

// The text of all rows, each looked at by its place.
fn told<R: SortedRows, L: Ledger>(
    alloc: Global,
    rows: &R,
    blank: Blank,
) -> Result<Vec<u8>, NoMemory>
    requires name { blank.name ≡ L.name }
    requires parts { blank.parts ≡ L.parts }
    requires some { 0 < L.parts }
{
    let mut steps: Steps<L> = Steps::new(blank);
    let mut text = Vec::new(alloc);
    for place in 0..rows.len() {
        let row = rows.row(place, &mut steps);
        for column in 0..row.len() {
            write_cell(row.cell(column), &mut text)?;
            text.push(b';')?;
        }
    }
    Ok(text)
}

#[test]
fn rows_are_looked_at_one_by_one_also_where_they_are_shared(rt: HostRuntime) -> Result<(), Fail> {
    let alloc = rt.alloc();
    let given = rows(alloc, two())?;
    let plain = told::<Rows, Brand>(alloc, &given, Blank::new(1))?;
    assert_eq!(rt; plain.as_slice(), b"\\N;2;3;-1;".as_slice());
    let shared = Arc::new(alloc, given)?;
    let again = told::<Arc<Rows>, Brand>(alloc, &shared, Blank::new(1))?;
    assert_eq!(rt; again.as_slice(), plain.as_slice());
    Ok(())
}

const MIXED: &[TextPair] = &[
    (Some(b"abcdefgh"), 1),
    (Some(b"abcdefg"), 1),
    (Some(b""), 1),
    (Some(b"abcdefga"), 1),
    (Some(b"\xff\x01"), 1),
    (Some(b"b"), 1),
    (Some(b"\xff"), 1),
    (Some(b"abcdef"), 1),
    (Some(b"\xc3\xa9"), 1),
    (Some(b"\xff\xff"), 1),
    (Some(b"abcdefg"), 1),
    (Some(b"\x00"), 1),
    (Some(b"\xfe\xff"), 1),
];

fn mixed() -> &'static [TextPair] {
    MIXED
}

const SORTED: &[TextPair] = &[
    (Some(b""), 1),
    (Some(b"\x00"), 1),
    (Some(b"abcdef"), 1),
    (Some(b"abcdefg"), 1),
    (Some(b"abcdefga"), 1),
    (Some(b"abcdefgh"), 1),
    (Some(b"b"), 1),
    (Some(b"\xc3\xa9"), 1),
    (Some(b"\xfe\xff"), 1),
    (Some(b"\xff"), 1),
    (Some(b"\xff\x01"), 1),
    (Some(b"\xff\xff"), 1),
];

fn sorted() -> &'static [TextPair] {
    SORTED
}

fn texts_fold(alloc: Global, of: &[TextPair], wanted: &[TextPair]) -> Result<bool, Fail> {
    let shape = shape(alloc, Model::Unique, ColType::Varchar(9), Role::Plain)?;
    let wanted = rows_of_texts(alloc, wanted)?;
    Ok(quick_is(alloc, &shape, rows_of_texts(alloc, of)?, &wanted)?)
}

#[test]
fn texts_are_in_order_byte_by_byte(rt: HostRuntime) -> Result<(), Fail> {
    assert!(rt; texts_fold(rt.alloc(), mixed(), sorted())?);
    Ok(())
}
