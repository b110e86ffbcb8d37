// The numbers of partitions by ascending ranges.
ghost use Rattle.std.specs.Prelude.{◌≡◌, ◌≤◌, [], None, true, length, IfOk};
ghost use Rattle.std.specs.List.{list_all, prefix_len};
ghost use Rattle.partitions.specs.LayoutFaults.{first_beside, meets};
ghost use Rattle.partitions.specs.Places as places;
ghost use Rattle.partitions.specs.Ranges as ranges;
ghost use Rattle.partitions.specs.Search as search;

use crate::ranges::lies_before;
use crate::{Bounds, PartDef};
use dl_values::NoMemory;
use std::alloc::Global;

// Whether the range of a partition ends where another begins, or before it.
fn is_before(parts: &[PartDef], number: usize, bounds: &Bounds) -> bool
    ensures { result ≡ search.lies_before (search.bounds_at parts.now number) bounds.now }
{
    match parts.get(number) {
        None => false,
        Some(part) => lies_before(&part.bounds, bounds),
    }
}

// The place behind the partitions whose ranges lie before another one.
fn place_behind(parts: &[PartDef], order: &[usize], bounds: &Bounds) -> usize
    ensures is { result ≡ prefix_len (λ m. search.lies_before (search.bounds_at parts.now m) bounds.now) order.now }
    ensures within { result ≤ length order.now }
{
    for (place, number) in order.iter().enumerate() {
        if !is_before(parts, *number, bounds) {
            return place;
        }
    }
    order.len()
}

// The numbers by ascending ranges of these partitions and one more with this range, which is apart from theirs.
pub fn with_number(
    alloc: Global,
    parts: &[PartDef],
    order: &[usize],
    bounds: &Bounds,
) -> Result<Vec<usize>, NoMemory>
    ensures { IfOk result (λ v. v.items ≡ search.with_number parts.now bounds.now order.now) }
{
    let place = place_behind(parts, order, bounds);
    let (front, behind) = order.split_at(place);
    let mut all = Vec::from_slice(alloc, front)?;
    all.push(parts.len())?;
    all.extend_from_slice(behind)?;
    Ok(all)
}

// The numbers of these partitions by ascending ranges.
pub fn order_of(alloc: Global, parts: &[PartDef]) -> Result<Vec<usize>, NoMemory>
    requires apart { first_beside meets [] parts.now ≡ None }
    requires rise { list_all (λ p. ranges.ends_rise (places.low_end p.bounds) (places.high_end p.bounds)) parts.now ≡ true }
    ensures { IfOk result (λ v. search.IsOrder parts.now v.items) }
{
    let mut order = Vec::new(alloc);
    for (i, part) in parts.iter().enumerate() {
        order = with_number(alloc, &parts[..i], &order, &part.bounds)?;
    }
    Ok(order)
}
