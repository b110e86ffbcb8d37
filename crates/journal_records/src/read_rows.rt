// Reading rows. No room is made by a count: each cell that a list gets was read before.
ghost use Rattle.std.specs.Prelude.{◌≡◌, Ok};
ghost use Rattle.journal_records.specs.Reading.{Gives, times, cell_at, row_at, rows_at};

use crate::read_fields::{cell, number32};
use crate::stop::Stop;
use dl_values::{Row, Rows};
use std::alloc::Global;

// So many cells.
fn cells(alloc: Global, count: u32, bytes: &[u8]) -> Result<(Row, &[u8]), Stop>
    ensures { Gives (λ x. (x.0, x.1.now)) result (times count cell_at bytes.now) }
{
    let mut row = Row::new(alloc);
    let mut rest = bytes;
    for _ in 0..count {
        let (cell, after) = cell(alloc, rest)?;
        row.push(cell)?;
        rest = after;
    }
    Ok((row, rest))
}

// Cells behind their count.
#[tactic(auto, unfolding(crate::specs::Reading::row_at))]
pub fn row(alloc: Global, bytes: &[u8]) -> Result<(Row, &[u8]), Stop>
    ensures { Gives (λ x. (x.0, x.1.now)) result (row_at bytes.now) }
{
    let (count, rest) = number32(bytes)?;
    let (row, rest) = cells(alloc, count, rest)?;
    Ok((row, rest))
}

// So many rows.
fn rows_of(alloc: Global, count: u32, bytes: &[u8]) -> Result<(Rows, &[u8]), Stop>
    ensures { Gives (λ x. (x.0, x.1.now)) result (times count row_at bytes.now) }
{
    let mut rows = Rows::new(alloc);
    let mut rest = bytes;
    for _ in 0..count {
        let (row, after) = row(alloc, rest)?;
        rows.push(row)?;
        rest = after;
    }
    Ok((rows, rest))
}

// Rows behind their count.
#[tactic(auto, unfolding(crate::specs::Reading::rows_at))]
pub fn rows(alloc: Global, bytes: &[u8]) -> Result<(Rows, &[u8]), Stop>
    ensures { Gives (λ x. (x.0, x.1.now)) result (rows_at bytes.now) }
{
    let (count, rest) = number32(bytes)?;
    let (rows, rest) = rows_of(alloc, count, rest)?;
    Ok((rows, rest))
}
