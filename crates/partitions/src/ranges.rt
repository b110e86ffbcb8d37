// The ranges of partitions.
ghost use Rattle.std.specs.Prelude.{◌≡◌, ◌++◌, [], IfOk};
ghost use Rattle.std.specs.Option.{option_copied};
ghost use Rattle.partitions.specs.Places as places;
ghost use Rattle.partitions.specs.Ranges as ranges;

use crate::part_def::copy_part;
use crate::{Bounds, PartDef};
use dl_values::{Cell, ColType, NoMemory, compare_cells, copy_cell};
use schema_models::is_of_type;
use sqlite_items::Items;
use std::alloc::Global;
use std::cmp::Ordering;

// Whether a cell is below another.
pub fn is_below(a: &Cell, b: &Cell) -> bool
    ensures { result ≡ places.is_below a.now b.now }
{
    match compare_cells(a, b) {
        Ordering::Less => true,
        Ordering::Equal | Ordering::Greater => false,
    }
}

// Whether a cell is not below the low end of a range.
pub fn is_from_low(bounds: &Bounds, cell: &Cell) -> bool
    ensures { result ≡ places.from_low (places.low_end bounds.now) cell.now }
{
    match bounds {
        Bounds::Between(Some(low), _) => !is_below(cell, low),
        Bounds::Between(None, _) | Bounds::Less(_) => true,
    }
}

// Whether a cell is below the high end of a range.
pub fn is_to_high(bounds: &Bounds, cell: &Cell) -> bool
    ensures { result ≡ places.to_high (places.high_end bounds.now) cell.now }
{
    match bounds {
        Bounds::Between(_, Some(high)) | Bounds::Less(Some(high)) => is_below(cell, high),
        Bounds::Between(_, None) | Bounds::Less(None) => true,
    }
}

// Whether a type has ranges.
pub fn ranges_type(kind: Option<ColType>) -> bool
    ensures { result ≡ ranges.ranges_type kind }
{
    match kind {
        None | Some(ColType::Varchar(_)) => false,
        Some(_) => true,
    }
}

// Whether an end of a range fits its column's type.
fn is_end(kind: Option<ColType>, end: &Option<Cell>) -> bool
    ensures { result ≡ ranges.is_end kind end.now }
{
    match (kind, end) {
        (_, None) => true,
        (None, Some(_)) => false,
        (Some(kind), Some(cell)) => is_of_type(kind, cell),
    }
}

// Whether the low end of a range is below the high one.
fn ends_rise(low: &Option<Cell>, high: &Option<Cell>) -> bool
    ensures { result ≡ ranges.ends_rise low.now high.now }
{
    match (low, high) {
        (Some(low), Some(high)) => is_below(low, high),
        _ => true,
    }
}

// Whether bounds are a range of a column's type.
pub fn are_bounds(kind: Option<ColType>, bounds: &Bounds) -> bool
    ensures { result ≡ ranges.are_bounds kind bounds.now }
{
    match bounds {
        Bounds::Less(high) => is_end(kind, high),
        Bounds::Between(low, high) => {
            is_end(kind, low) && is_end(kind, high) && ends_rise(low, high)
        }
    }
}

// Whether one end stands at or before the other.
fn ends_before(high: &Option<Cell>, low: &Option<Cell>) -> bool
    ensures { result ≡ ranges.ends_before high.now low.now }
{
    match (high, low) {
        (Some(high), Some(low)) => !is_below(low, high),
        _ => false,
    }
}

// The high end of a range.
pub fn high_end(bounds: &Bounds) -> &Option<Cell>
    ensures { result.now ≡ places.high_end bounds.now }
{
    match bounds {
        Bounds::Less(high) => high,
        Bounds::Between(_, high) => high,
    }
}

// Whether a range ends where another begins, or before it.
pub fn lies_before(a: &Bounds, b: &Bounds) -> bool
    ensures { result ≡ ranges.ends_before (places.high_end a.now) (places.low_end b.now) }
{
    match b {
        Bounds::Less(_) => false,
        Bounds::Between(low, _) => ends_before(high_end(a), low),
    }
}

// Whether two ranges have no value in common.
pub fn are_apart(a: &Bounds, b: &Bounds) -> bool
    ensures { result ≡ ranges.are_apart a.now b.now }
{
    lies_before(a, b) || lies_before(b, a)
}

// The greater of an end, where there is one, and another.
fn later_end<'a>(low: Option<&'a Cell>, end: &'a Cell) -> Option<&'a Cell>
    ensures { option_copied result ≡ ranges.later_end (option_copied low.entry) end.now }
{
    match low {
        None => Some(end),
        Some(other) => {
            if is_below(other, end) {
                Some(end)
            } else {
                Some(other)
            }
        }
    }
}

// Whether an end is below the high end of a range.
fn ends_below(high: &Option<Cell>, end: &Cell) -> bool
    ensures { result ≡ ranges.ends_below high.now end.now }
{
    match high {
        None => true,
        Some(high) => is_below(end, high),
    }
}

// The low end for a high one, after a range and with what the ranges behind it give.
fn low_with<'a>(high: &Option<Cell>, bounds: &'a Bounds, low: Option<&'a Cell>) -> Option<&'a Cell>
    ensures { option_copied result ≡ ranges.low_with high.now (places.high_end bounds.now) (option_copied low.entry) }
{
    match high_end(bounds) {
        None => low,
        Some(end) => {
            if ends_below(high, end) {
                later_end(low, end)
            } else {
                low
            }
        }
    }
}

// The greatest high end that is below another one.
fn low_for<'a>(parts: &'a [PartDef], high: &Option<Cell>) -> Option<&'a Cell>
    ensures { option_copied result ≡ ranges.low_for high.now parts.now }
{
    let mut low = None;
    let mut left = parts.len();
    while left > 0 {
        left -= 1;
        low = low_with(high, &parts[left].bounds, low);
    }
    low
}

// A cell of its own, where there is one.
fn copied(alloc: Global, cell: Option<&Cell>) -> Result<Option<Cell>, NoMemory>
    ensures { IfOk result (λ c. c ≡ option_copied cell.entry) }
{
    match cell {
        None => Ok(None),
        Some(cell) => Ok(Some(copy_cell(alloc, cell)?)),
    }
}

// Bounds as a range behind these partitions.
fn bounds_after(alloc: Global, before: &[PartDef], bounds: Bounds) -> Result<Bounds, NoMemory>
    ensures { IfOk result (λ b. b ≡ ranges.bounds_after before.now bounds) }
{
    match bounds {
        Bounds::Less(high) => {
            let low = copied(alloc, low_for(before, &high))?;
            Ok(Bounds::Between(low, high))
        }
        Bounds::Between(low, high) => Ok(Bounds::Between(low, high)),
    }
}

// A partition with its range behind these.
pub fn with_range(alloc: Global, before: &[PartDef], part: PartDef) -> Result<PartDef, NoMemory>
    ensures { IfOk result (λ p. p ≡ ranges.with_range before.now part) }
{
    let PartDef { name, bounds } = part;
    let bounds = bounds_after(alloc, before, bounds)?;
    Ok(PartDef { name, bounds })
}

// Partitions with their ranges, each behind those before it.
pub fn ranged(alloc: Global, parts: &[PartDef]) -> Result<Items<PartDef>, NoMemory>
    ensures { IfOk result (λ v. v ≡ ranges.ranged [] parts.now) }
{
    let mut all = Items::new(alloc);
    for part in parts {
        let copy = copy_part(alloc, part)?;
        let part = with_range(alloc, all.as_slice(), copy)?;
        all.push(part)?;
    }
    Ok(all)
}
