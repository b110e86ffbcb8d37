// Layouts by days.
use super::layouts::{is_told, names};
use super::shapes::{Column, shape};
use dl_values::{Cell, ColType, Name, NoMemory, Row};
use partitions::{Bounds, Layout, LayoutError, PartDef, PartsDef};
use schema_models::{Model, Role, Shape};
use sqlite_items::Items;
use std::alloc::Global;
use std::test::Fail;

const DAYS: &[Column] = &[
    ("day", ColType::Date, Role::Key),
    ("v", ColType::BigInt, Role::Plain),
];

fn days() -> &'static [Column] {
    DAYS
}

// One partition below this end.
fn below(alloc: Global, high: Cell) -> Result<Items<PartDef>, NoMemory> {
    let mut parts = Items::new(alloc);
    parts.push(PartDef {
        name: Name::new(alloc, b"p1")?,
        bounds: Bounds::Less(Some(high)),
    })?;
    Ok(parts)
}

// A layout of `day DATE KEY, v BIGINT` with one partition below this end.
fn by_day(alloc: Global, shape: &Shape, high: Cell) -> Result<Layout, LayoutError> {
    let def = PartsDef::ByRange(Name::new(alloc, b"day")?, below(alloc, high)?);
    Layout::build(alloc, shape, def, names(alloc, "day")?, 1)
}

fn build_by_day(alloc: Global, shape: &Shape, high: Cell) -> Result<(), LayoutError> {
    let _ = by_day(alloc, shape, high)?;
    Ok(())
}

// The place of a row of a day.
fn place_of_day(
    alloc: Global,
    layout: &Layout,
    day: u32,
) -> Result<Option<(usize, usize)>, NoMemory> {
    let mut row = Row::new(alloc);
    row.push(Cell::Day(day))?;
    row.push(Cell::Int(4))?;
    Ok(layout.place(&row))
}

fn ends_at_days(alloc: Global, shape: &Shape) -> Result<bool, LayoutError> {
    let layout = by_day(alloc, shape, Cell::Day(20240201))?;
    let last = place_of_day(alloc, &layout, 20240131)?;
    let next = place_of_day(alloc, &layout, 20240201)?;
    Ok(last == Some((0, 0)) && next == None)
}

#[test]
fn partitions_by_day_end_at_days(rt: HostRuntime) -> Result<(), Fail> {
    let shape = shape(rt.alloc(), Model::Unique, days())?;
    assert!(rt; ends_at_days(rt.alloc(), &shape)?);
    let refused = build_by_day(rt.alloc(), &shape, Cell::Int(20240201));
    assert!(rt; is_told(&refused, "BadBound p1"));
    Ok(())
}
