// The rows of a load, put into the tablets of a layout in one pass.
ghost use Rattle.std.specs.Prelude.{◌≡◌, IfOk, OnOk};
ghost use Rattle.partitions.specs.Places.{place_for};
ghost use Rattle.load_build.specs.PartLists.{no_parts, with_placed, with_row_at};
ghost use Rattle.load_build.specs.Spreading.{spread_rows};

use crate::part_rows::PartRows;
use dl_values::{Cell, NoMemory, Rows};
use partitions::Layout;
use std::alloc::Global;

// Partitions without rows, by their numbers.
#[tactic(auto, using(crate::proofs::Ranges::parts_more))]
fn parts_without_rows(alloc: Global, count: usize) -> Result<Vec<PartRows>, NoMemory>
    ensures { IfOk result (λ parts. parts.items ≡ no_parts count) }
{
    let mut parts = Vec::with_capacity(alloc, count)?;
    for part in 0..count {
        parts.push(PartRows::new(alloc, part as u64))?;
    }
    Ok(parts)
}

// Adds a copy of a row to the bucket of a partition.
fn add_at(
    alloc: Global,
    parts: &mut Vec<PartRows>,
    part: usize,
    buckets: u32,
    bucket: usize,
    row: &[Cell],
) -> Result<(), NoMemory>
    ensures { OnOk result (parts.new.items ≡ with_row_at part buckets bucket row.now parts.old.items) }
{
    match parts.get_mut(part) {
        None => Ok(()),
        Some(rows) => rows.add(alloc, buckets, bucket, row),
    }
}

// Adds a copy of a row to its tablet.
fn add_row(
    alloc: Global,
    layout: &Layout,
    parts: &mut Vec<PartRows>,
    row: &[Cell],
) -> Result<(), NoMemory>
    ensures { OnOk result (parts.new.items ≡ with_placed layout.now.buckets (place_for layout.now row.now) row.now parts.old.items) }
{
    match layout.place_cells(row) {
        None => Ok(()),
        Some((part, bucket)) => add_at(alloc, parts, part, layout.buckets(), bucket, row),
    }
}

// The rows of each tablet, in their order.
pub fn spread(alloc: Global, layout: &Layout, rows: &Rows) -> Result<Vec<PartRows>, NoMemory>
    ensures { IfOk result (λ parts. parts.items ≡ spread_rows layout.now rows.now) }
{
    let mut parts = parts_without_rows(alloc, layout.parts().len())?;
    for place in 0..rows.len() {
        add_row(alloc, layout, &mut parts, rows.row(place))?;
    }
    Ok(parts)
}
