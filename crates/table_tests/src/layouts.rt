// Layouts of a table of sales: what is refused, and where rows are.
use super::shapes::{Column, shape};
use dl_values::{Cell, ColType, Name, NoMemory, Row, Text};
use partitions::{Bounds, Layout, LayoutError, PartDef, PartsDef};
use schema_models::{Model, Role, Shape};
use sqlite_items::Items;
use std::alloc::Global;
use std::test::Fail;

// A partition by its name, and its two ends; a first end of 0 is LESS THAN, and a last end of 0 none.
type Part = (&'static str, i64, i64);

// A definition: the partition column, the partitions, the distribution column, the buckets, and what it is refused as.
type Case = (
    &'static str,
    &'static [Part],
    &'static str,
    u32,
    &'static str,
);

// Of `k INT KEY, c VARCHAR KEY, v BIGINT`: what is taken, and each refusal alone.
const CASES: &[Case] = &[
    ("k", &[("p1", 0, 10), ("p2", 10, 20)], "k", 1, "Ok"),
    ("k", &[("p1", 0, 10), ("p2", 0, 20)], "c", 64, "Ok"),
    ("k", &[("p1", 0, 0)], "k", 4, "Ok"),
    ("k", &[], "k", 4, "Ok"),
    ("x", &[("p1", 0, 10)], "k", 1, "NoColumn x"),
    ("k", &[("p1", 0, 10)], "x", 1, "NoColumn x"),
    ("v", &[("p1", 0, 10)], "k", 1, "NotAKey v"),
    ("c", &[("p1", 0, 10)], "k", 1, "NotAKey c"),
    ("k", &[("p1", 0, 10)], "v", 1, "NotAKey v"),
    ("k", &[("p1", 0, 10)], "k", 0, "BadBuckets"),
    ("k", &[("p1", 0, 10)], "k", 65, "BadBuckets"),
    ("k", &[("p1", 9, 9)], "k", 1, "BadBound p1"),
    ("k", &[("p1", NULL, 9)], "k", 1, "BadBound p1"),
    ("k", &[("p1", 0, NULL)], "k", 1, "BadBound p1"),
    ("k", &[("p1", 0, 3_000_000_000)], "k", 1, "BadBound p1"),
    ("k", &[("p1", 0, 10), ("", 10, 20)], "k", 1, "BadName "),
    (
        "k",
        &[("p1", 0, 10), ("p1", 20, 30)],
        "k",
        1,
        "DoubleName p1",
    ),
    ("k", &[("p1", 0, 10), ("p2", 5, 20)], "k", 1, "Overlap p2"),
    (
        "k",
        &[("p1", 10, 20), ("p2", 30, 40), ("p3", 15, 18)],
        "k",
        1,
        "Overlap p3",
    ),
    ("k", &[("p1", 0, 20), ("p2", 0, 10)], "k", 1, "Overlap p2"),
    // Each refusal with each that comes after it, which often stands before it in the text.
    ("v", &[("p1", 0, 10)], "x", 1, "NoColumn x"),
    ("x", &[("p1", 0, 10)], "v", 1, "NoColumn x"),
    ("k", &[("p1", 0, 10)], "x", 0, "NoColumn x"),
    ("k", &[("p1", 9, 5)], "x", 1, "NoColumn x"),
    ("k", &[("p 1", 0, 10)], "x", 1, "NoColumn x"),
    ("k", &[("p1", 1, 2), ("p1", 3, 4)], "x", 1, "NoColumn x"),
    ("k", &[("p1", 1, 3), ("p2", 2, 4)], "x", 1, "NoColumn x"),
    ("k", &[("p1", 0, 10)], "v", 0, "NotAKey v"),
    ("k", &[("p1", 9, 5)], "v", 1, "NotAKey v"),
    ("k", &[("p 1", 0, 10)], "v", 1, "NotAKey v"),
    ("k", &[("p1", 1, 2), ("p1", 3, 4)], "v", 1, "NotAKey v"),
    ("k", &[("p1", 1, 3), ("p2", 2, 4)], "v", 1, "NotAKey v"),
    ("k", &[("p1", 9, 5)], "k", 0, "BadBuckets"),
    ("k", &[("p 1", 0, 10)], "k", 0, "BadBuckets"),
    ("k", &[("p1", 1, 2), ("p1", 3, 4)], "k", 65, "BadBuckets"),
    ("k", &[("p1", 1, 3), ("p2", 2, 4)], "k", 65, "BadBuckets"),
    ("k", &[("p 1", 0, 10), ("p2", 19, 9)], "k", 1, "BadBound p2"),
    ("k", &[("p1", 0, 3), ("p1", 5, 5)], "k", 1, "BadBound p1"),
    (
        "k",
        &[("p1", 1, 9), ("p2", 2, 8), ("p3", 9, 1)],
        "k",
        1,
        "BadBound p3",
    ),
    (
        "k",
        &[("p1", 0, 10), ("p1", 0, 20), ("", 30, 40)],
        "k",
        1,
        "BadName ",
    ),
    (
        "k",
        &[("p1", 1, 9), ("p2", 2, 8), ("", 30, 40)],
        "k",
        1,
        "BadName ",
    ),
    (
        "k",
        &[("p1", 0, 10), ("p2", 5, 20), ("p1", 20, 30)],
        "k",
        1,
        "DoubleName p1",
    ),
];

// An end that is a null cell.
const NULL: i64 = i64::MIN;

fn end(value: i64) -> Option<Cell> {
    match value {
        0 => None,
        NULL => Some(Cell::Null),
        value => Some(Cell::Int(value)),
    }
}

fn part(alloc: Global, part: &Part) -> Result<PartDef, NoMemory> {
    let (name, low, high) = part;
    let bounds = match end(*low) {
        None => Bounds::Less(end(*high)),
        Some(low) => Bounds::Between(Some(low), end(*high)),
    };
    Ok(PartDef {
        name: Name::new(alloc, name.as_bytes())?,
        bounds,
    })
}

fn parts(alloc: Global, of: &[Part]) -> Result<Items<PartDef>, NoMemory> {
    let mut all = Items::new(alloc);
    for one in of {
        all.push(part(alloc, one)?)?;
    }
    Ok(all)
}

/// The name of one column.
pub fn names(alloc: Global, of: &str) -> Result<Items<Name>, NoMemory> {
    let mut all = Items::new(alloc);
    all.push(Name::new(alloc, of.as_bytes())?)?;
    Ok(all)
}

/// The word of a refusal, and what it names.
pub fn fault(error: &LayoutError) -> (&'static str, Option<&Name>) {
    match error {
        LayoutError::NotPartitioned => ("NotPartitioned", None),
        LayoutError::NoColumn { column } => ("NoColumn ", Some(column)),
        LayoutError::NotAKey { column } => ("NotAKey ", Some(column)),
        LayoutError::BadBuckets => ("BadBuckets", None),
        LayoutError::BadBound { partition } => ("BadBound ", Some(partition)),
        LayoutError::BadName { partition } => ("BadName ", Some(partition)),
        LayoutError::DoubleName { partition } => ("DoubleName ", Some(partition)),
        LayoutError::Overlap { partition } => ("Overlap ", Some(partition)),
        LayoutError::TooManyPartitions => ("TooManyPartitions", None),
        LayoutError::NoMemory => ("NoMemory", None),
    }
}

/// Whether a layout was built or refused as this text says: by the word, and the name of what is at fault.
pub fn is_told(built: &Result<(), LayoutError>, wanted: &str) -> bool {
    let (word, name) = match built {
        Ok(()) => ("Ok", None),
        Err(error) => fault(error),
    };
    match (wanted.strip_prefix(word), name) {
        (Some(rest), Some(name)) => rest.as_bytes() == name.bytes(),
        (Some(rest), None) => rest.is_empty(),
        (None, _) => false,
    }
}

// The columns `k`, `c` and `v` of all cases.
const COLUMNS: &[Column] = &[
    ("k", ColType::Int, Role::Key),
    ("c", ColType::Varchar(9), Role::Key),
    ("v", ColType::BigInt, Role::Plain),
];

fn columns() -> &'static [Column] {
    COLUMNS
}

fn build(alloc: Global, shape: &Shape, case: &Case) -> Result<(), LayoutError> {
    let (by, of, hash, buckets, _) = case;
    let def = PartsDef::ByRange(Name::new(alloc, by.as_bytes())?, parts(alloc, of)?);
    let _ = Layout::build(alloc, shape, def, names(alloc, hash)?, *buckets)?;
    Ok(())
}

fn cases() -> &'static [Case] {
    CASES
}

#[test]
fn the_first_refusal_is_told(rt: HostRuntime) -> Result<(), Fail> {
    let shape = shape(rt.alloc(), Model::Unique, columns())?;
    for one in cases() {
        let built = build(rt.alloc(), &shape, one);
        assert!(rt; is_told(&built, one.4), "{}", one.4);
    }
    Ok(())
}

// So many partitions, each of one number; the last one begins so far before its place.
fn many(alloc: Global, count: i64, back: i64) -> Result<Items<PartDef>, NoMemory> {
    let last = count.saturating_sub(1);
    let mut all = Items::new(alloc);
    for place in 0..count {
        let name = format!(in alloc; "p{place}")?;
        let low = if place == last {
            place.saturating_sub(back)
        } else {
            place
        };
        all.push(PartDef {
            name: Name::new(alloc, name.as_bytes())?,
            bounds: Bounds::Between(
                Some(Cell::Int(low)),
                Some(Cell::Int(place.saturating_add(1))),
            ),
        })?;
    }
    Ok(all)
}

// How many partitions, how far the last one begins before its place, how many buckets, and what that is refused as.
type Count = (i64, i64, u32, &'static str);

const COUNTS: &[Count] = &[
    (1000, 0, 1, "Ok"),
    (1001, 0, 1, "TooManyPartitions"),
    (1001, 1, 1, "Overlap p1000"),
    (1001, 0, 0, "BadBuckets"),
];

fn counts() -> &'static [Count] {
    COUNTS
}

// A layout by `k` of so many partitions.
fn layout_of(alloc: Global, shape: &Shape, of: &Count) -> Result<Layout, LayoutError> {
    let (count, back, buckets, _) = of;
    let def = PartsDef::ByRange(Name::new(alloc, b"k")?, many(alloc, *count, *back)?);
    Layout::build(alloc, shape, def, names(alloc, "k")?, *buckets)
}

fn build_many(alloc: Global, shape: &Shape, of: &Count) -> Result<(), LayoutError> {
    let _ = layout_of(alloc, shape, of)?;
    Ok(())
}

fn add(alloc: Global, layout: &mut Layout, one: &Part) -> Result<(), LayoutError> {
    layout.add(alloc, part(alloc, one)?)
}

// Whether a partition is refused in these words, and the layout still has so many.
fn refuses(alloc: Global, layout: &mut Layout, one: &Part, wanted: &str, parts: usize) -> bool {
    is_told(&add(alloc, layout, one), wanted) && layout.parts().len() == parts
}

fn is_full(alloc: Global, shape: &Shape) -> Result<bool, LayoutError> {
    let mut layout = layout_of(alloc, shape, &(1000, 0, 1, "Ok"))?;
    let last = ("last", 2000, 2001);
    Ok(refuses(alloc, &mut layout, &last, "TooManyPartitions", 1000))
}

#[test]
fn a_layout_has_a_thousand_partitions_and_no_more(rt: HostRuntime) -> Result<(), Fail> {
    let shape = shape(rt.alloc(), Model::Unique, columns())?;
    for one in counts() {
        let built = build_many(rt.alloc(), &shape, one);
        assert!(rt; is_told(&built, one.3), "{}", one.3);
    }
    assert!(rt; is_full(rt.alloc(), &shape)?);
    Ok(())
}

fn row(alloc: Global, k: Cell, c: &str) -> Result<Row, NoMemory> {
    let mut row = Row::new(alloc);
    row.push(k)?;
    row.push(Cell::Text(Text::new(alloc, c.as_bytes())?))?;
    row.push(Cell::Int(4))?;
    Ok(row)
}

// A key, where 0 is null, a city, and the partition and the bucket of such a row.
type Place = (i64, &'static str, Option<(usize, usize)>);

const PLACES: &[Place] = &[
    (0, "Oslo", Some((1, 3))),
    (9, "Rome", Some((1, 1))),
    (10, "Oslo", Some((2, 3))),
    (20, "Rome", Some((0, 1))),
    (30, "Rome", None),
];

fn places() -> &'static [Place] {
    PLACES
}

fn is_at(alloc: Global, layout: &Layout, of: &Place) -> Result<bool, NoMemory> {
    let (key, city, wanted) = of;
    let row = row(alloc, end(*key).unwrap_or(Cell::Null), city)?;
    Ok(layout.place(&row) == *wanted)
}

// Three partitions by the key, the last one added behind the others.
fn grown(alloc: Global, shape: &Shape) -> Result<Layout, LayoutError> {
    let of = parts(alloc, &[("p1", 20, 30), ("p2", 0, 10)])?;
    let def = PartsDef::ByRange(Name::new(alloc, b"k")?, of);
    let mut layout = Layout::build(alloc, shape, def, names(alloc, "c")?, 4)?;
    add(alloc, &mut layout, &("p3", 10, 20))?;
    Ok(layout)
}

// A copy of that layout, over the shape once more.
fn copied(alloc: Global, shape: &Shape) -> Result<Layout, LayoutError> {
    let layout = grown(alloc, shape)?.copy(alloc)?;
    Ok(layout.over(alloc, shape)?)
}

#[test]
fn rows_have_the_places_of_their_keys(rt: HostRuntime) -> Result<(), Fail> {
    let shape = shape(rt.alloc(), Model::Duplicate, columns())?;
    let layout = copied(rt.alloc(), &shape)?;
    for one in places() {
        assert!(rt; is_at(rt.alloc(), &layout, one)?, "{}", one.0);
    }
    Ok(())
}

#[test]
fn a_partition_that_meets_another_is_not_added(rt: HostRuntime) -> Result<(), Fail> {
    let shape = shape(rt.alloc(), Model::Duplicate, columns())?;
    let mut layout = grown(rt.alloc(), &shape)?;
    assert!(rt; refuses(rt.alloc(), &mut layout, &("p4", 29, 40), "Overlap p4", 3));
    Ok(())
}

fn whole(alloc: Global, shape: &Shape) -> Result<Layout, NoMemory> {
    let name = Name::new(alloc, b"t")?;
    Layout::whole(alloc, shape, name, names(alloc, "v")?, 4)
}

fn is_whole(layout: &Layout) -> bool {
    layout.column().is_none()
        && layout.columns().len() == 3
        && layout.hash().len() == 1
        && layout.buckets() == 4
}

#[test]
fn a_whole_table_is_one_partition(rt: HostRuntime) -> Result<(), Fail> {
    let shape = shape(rt.alloc(), Model::Duplicate, columns())?;
    let mut layout = whole(rt.alloc(), &shape)?;
    assert!(rt; refuses(rt.alloc(), &mut layout, &("p 1", 9, 5), "NotPartitioned", 1));
    assert!(rt; is_whole(&layout));
    assert!(rt; is_at(rt.alloc(), &layout, &(0, "Oslo", Some((0, 0))))?);
    Ok(())
}
