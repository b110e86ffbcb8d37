// Reading numbers, texts and cells.
ghost use Rattle.std.specs.Prelude.{◌≡◌, Ok};
ghost use Rattle.std.specs.Str as strings;
ghost use Rattle.std.specs.Int.{w32};
ghost use Rattle.journal_records.specs.Reading.{Gives, number_at, number64_at, integer_at, text_at, day_at, job_at, pair_at, cell_at, bound_at};

use crate::choices::after_tag;
use crate::stop::Stop;
use dl_values::{Cell, ColType, Name, Text};
use schema_models::is_of_type;
use std::alloc::Global;

// A number of four bytes.
pub fn number32(bytes: &[u8]) -> Result<(u32, &[u8]), Stop>
    ensures { Gives (λ x. (x.0, x.1.now)) result (number_at w32 bytes.now) }
{
    if bytes.len() < 4 {
        return Err(Stop::Left(bytes.len()));
    }
    let (front, rest) = bytes.split_at(4);
    let number = u32::from_be_bytes([front[0], front[1], front[2], front[3]]);
    Ok((number, rest))
}

// A number of eight bytes.
#[tactic(auto, unfolding(crate::specs::Reading::number64_at))]
pub fn number64(bytes: &[u8]) -> Result<(u64, &[u8]), Stop>
    ensures { Gives (λ x. (x.0, x.1.now)) result (number64_at bytes.now) }
{
    if bytes.len() < 8 {
        return Err(Stop::Left(bytes.len()));
    }
    let (front, rest) = bytes.split_at(8);
    let number = u64::from_be_bytes([
        front[0], front[1], front[2], front[3], front[4], front[5], front[6], front[7],
    ]);
    Ok((number, rest))
}

// Two numbers.
#[tactic(auto, unfolding(crate::specs::Reading::pair_at))]
pub fn pair(bytes: &[u8]) -> Result<(u64, u64, &[u8]), Stop>
    ensures { Gives (λ x. ((x.0, x.1), x.2.now)) result (pair_at bytes.now) }
{
    let (first, rest) = number64(bytes)?;
    let (second, rest) = number64(rest)?;
    Ok((first, second, rest))
}

// An integer.
#[tactic(auto, unfolding(crate::specs::Reading::integer_at, crate::specs::Reading::number64_at))]
pub fn integer(bytes: &[u8]) -> Result<(i64, &[u8]), Stop>
    ensures { Gives (λ x. (x.0, x.1.now)) result (integer_at bytes.now) }
{
    let (number, rest) = number64(bytes)?;
    Ok((number.cast_signed(), rest))
}

pub fn is_utf8(bytes: &[u8]) -> bool
    ensures { result ≡ strings.is_utf8 bytes.now }
{
    match str::from_utf8(bytes) {
        Ok(_) => true,
        Err(_) => false,
    }
}

// The bytes of a text.
#[tactic(auto, unfolding(crate::specs::Reading::text_at))]
pub fn text_bytes(bytes: &[u8]) -> Result<(&[u8], &[u8]), Stop>
    ensures { Gives (λ x. (x.0.now, x.1.now)) result (text_at bytes.now) }
{
    let (len, rest) = number32(bytes)?;
    let len = len as usize;
    if rest.len() < len {
        return Err(Stop::Left(bytes.len()));
    }
    let (text, rest) = rest.split_at(len);
    if !is_utf8(text) {
        return Err(Stop::Left(bytes.len()));
    }
    Ok((text, rest))
}

// A name.
pub fn name(alloc: Global, bytes: &[u8]) -> Result<(Name, &[u8]), Stop>
    ensures { Gives (λ x. (x.0, x.1.now)) result (text_at bytes.now) }
{
    let (name, rest) = text_bytes(bytes)?;
    Ok((Name::new(alloc, name)?, rest))
}

// A text of a cell.
fn text(alloc: Global, bytes: &[u8]) -> Result<(Text, &[u8]), Stop>
    ensures { Gives (λ x. (x.0, x.1.now)) result (text_at bytes.now) }
{
    let (text, rest) = text_bytes(bytes)?;
    Ok((Text::new(alloc, text)?, rest))
}

// A day of the calendar.
#[tactic(auto, unfolding(crate::specs::Reading::day_at))]
pub fn day(bytes: &[u8]) -> Result<(u32, &[u8]), Stop>
    ensures { Gives (λ x. (x.0, x.1.now)) result (day_at bytes.now) }
{
    let (day, rest) = number32(bytes)?;
    let cell = Cell::Day(day);
    if !is_of_type(ColType::Date, &cell) {
        return Err(Stop::Left(bytes.len()));
    }
    Ok((day, rest))
}

// The number of a job, if there is one.
#[tactic(auto, unfolding(crate::specs::Reading::job_at))]
pub fn job(bytes: &[u8]) -> Result<(Option<u64>, &[u8]), Stop>
    ensures { Gives (λ x. (x.0, x.1.now)) result (job_at bytes.now) }
{
    if let Some(rest) = after_tag(bytes, 0) {
        return Ok((None, rest));
    }
    if let Some(rest) = after_tag(bytes, 1) {
        let (job, rest) = number64(rest)?;
        return Ok((Some(job), rest));
    }
    Err(Stop::Left(bytes.len()))
}

// A cell.
#[tactic(auto, unfolding(crate::specs::Reading::cell_at))]
pub fn cell(alloc: Global, bytes: &[u8]) -> Result<(Cell, &[u8]), Stop>
    ensures { Gives (λ x. (x.0, x.1.now)) result (cell_at bytes.now) }
{
    if let Some(rest) = after_tag(bytes, 0) {
        return Ok((Cell::Null, rest));
    }
    if let Some(rest) = after_tag(bytes, 1) {
        let (value, rest) = integer(rest)?;
        return Ok((Cell::Int(value), rest));
    }
    if let Some(rest) = after_tag(bytes, 2) {
        let (day, rest) = day(rest)?;
        return Ok((Cell::Day(day), rest));
    }
    if let Some(rest) = after_tag(bytes, 3) {
        let (text, rest) = text(alloc, rest)?;
        return Ok((Cell::Text(text), rest));
    }
    Err(Stop::Left(bytes.len()))
}

// An end of a range, if there is one.
#[tactic(auto, unfolding(crate::specs::Reading::bound_at))]
pub fn bound(alloc: Global, bytes: &[u8]) -> Result<(Option<Cell>, &[u8]), Stop>
    ensures { Gives (λ x. (x.0, x.1.now)) result (bound_at bytes.now) }
{
    if let Some(rest) = after_tag(bytes, 0) {
        return Ok((None, rest));
    }
    if let Some(rest) = after_tag(bytes, 1) {
        let (end, rest) = cell(alloc, rest)?;
        return Ok((Some(end), rest));
    }
    Err(Stop::Left(bytes.len()))
}
