// The partition that holds a cell, found by halving.
ghost use Rattle.std.specs.Prelude.{◌≡◌};
ghost use Rattle.partitions.specs.Places as places;
ghost use Rattle.partitions.specs.Search as search;

use crate::PartDef;
use crate::ranges::{is_from_low, is_to_high};
use dl_values::Cell;

// Whether a cell is not below the range of a partition.
fn is_started(parts: &[PartDef], number: usize, cell: &Cell) -> bool
    ensures { result ≡ places.from_low (places.low_end (search.bounds_at parts.now number)) cell.now }
{
    match parts.get(number) {
        None => true,
        Some(part) => is_from_low(&part.bounds, cell),
    }
}

// Whether a cell is below the high end of the range of a partition.
fn is_not_ended(parts: &[PartDef], number: usize, cell: &Cell) -> bool
    ensures { result ≡ places.to_high (places.high_end (search.bounds_at parts.now number)) cell.now }
{
    match parts.get(number) {
        None => true,
        Some(part) => is_to_high(&part.bounds, cell),
    }
}

// The number of the partition whose range holds a cell: the last one by ascending ranges that has started is the only one
// that may.
pub fn part_with(parts: &[PartDef], order: &[usize], cell: &Cell) -> Option<usize>
    requires { search.IsOrder parts.now order.now }
    ensures { result ≡ places.first_part (λ p. places.in_range p.bounds cell.now) parts.now }
{
    let started = order.partition_point(|number| is_started(parts, *number, cell));
    if started == 0 {
        return None;
    }
    let number = order[started - 1];
    if is_not_ended(parts, number, cell) {
        Some(number)
    } else {
        None
    }
}
