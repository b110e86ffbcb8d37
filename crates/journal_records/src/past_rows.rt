// Reading rows without keeping them: what stands behind them, or the place of the fault.
ghost use Rattle.std.specs.Prelude.{◌≡◌, Ok};
ghost use Rattle.journal_records.specs.Reading.{Gives, times, cell_at, row_at, rows_at};
ghost use Rattle.journal_records.specs.Encoded.{behind};

use crate::choices::after_tag;
use crate::encoded_rows::EncodedRows;
use crate::read_fields::{day, integer, number32, text_bytes};
use crate::stop::Stop;
use std::alloc::Global;

#[tactic(auto, unfolding(crate::specs::Reading::cell_at))]
fn past_cell(bytes: &[u8]) -> Result<&[u8], Stop>
    ensures { Gives (λ x. x.now) result (behind (cell_at bytes.now)) }
{
    if let Some(rest) = after_tag(bytes, 0) {
        return Ok(rest);
    }
    if let Some(rest) = after_tag(bytes, 1) {
        let (_value, rest) = integer(rest)?;
        return Ok(rest);
    }
    if let Some(rest) = after_tag(bytes, 2) {
        let (_day, rest) = day(rest)?;
        return Ok(rest);
    }
    if let Some(rest) = after_tag(bytes, 3) {
        let (_text, rest) = text_bytes(rest)?;
        return Ok(rest);
    }
    Err(Stop::Left(bytes.len()))
}

// So many cells.
fn past_cells(count: u32, bytes: &[u8]) -> Result<&[u8], Stop>
    ensures { Gives (λ x. x.now) result (behind (times count cell_at bytes.now)) }
{
    let mut rest = bytes;
    for _ in 0..count {
        rest = past_cell(rest)?;
    }
    Ok(rest)
}

// Cells behind their count.
#[tactic(auto, unfolding(crate::specs::Reading::row_at))]
fn past_row(bytes: &[u8]) -> Result<&[u8], Stop>
    ensures { Gives (λ x. x.now) result (behind (row_at bytes.now)) }
{
    let (count, rest) = number32(bytes)?;
    past_cells(count, rest)
}

// So many rows.
fn past_rows_of(count: u32, bytes: &[u8]) -> Result<&[u8], Stop>
    ensures { Gives (λ x. x.now) result (behind (times count row_at bytes.now)) }
{
    let mut rest = bytes;
    for _ in 0..count {
        rest = past_row(rest)?;
    }
    Ok(rest)
}

// Rows behind their count.
#[tactic(auto, unfolding(crate::specs::Reading::rows_at))]
fn past_rows(bytes: &[u8]) -> Result<&[u8], Stop>
    ensures { Gives (λ x. x.now) result (behind (rows_at bytes.now)) }
{
    let (count, rest) = number32(bytes)?;
    past_rows_of(count, rest)
}

// The rows that the bytes begin with, as their bytes.
pub fn encoded_rows(alloc: Global, bytes: &[u8]) -> Result<(EncodedRows, &[u8]), Stop>
    ensures { Gives (λ x. (x.0, x.1.now)) result (rows_at bytes.now) }
{
    let rest = past_rows(bytes)?;
    let (front, rest) = bytes.split_at(bytes.len() - rest.len());
    Ok((
        EncodedRows::from_bytes(Vec::from_slice(alloc, front)?),
        rest,
    ))
}
