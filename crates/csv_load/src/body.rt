// Reading a body.
ghost use Rattle.std.specs.Prelude.{◌≡◌, ◌<◌, ◌≤◌, IfOk, OnOk, IfErr, option_copied, length};
ghost use Rattle.csv_load.specs.Body.{body, is_inside, records_by};
ghost use Rattle.csv_load.specs.Refusal.{Explains, max_records};

use crate::parsed::{count_filtered, count_row, parsed_none};
use crate::records::Records;
use crate::row::read_row;
use crate::{BodyFault, Inside, Options, Parsed};
use csv::ByteRecord;
use dl_values::Row;
use schema_models::Shape;
use std::alloc::Global;

/// How many records a body has at most (this project's own).
pub const MAX_RECORDS: u64 = 1_000_000;

/// The rows of a body and what is counted (Apache Doris documentation, "Stream Load"; without quoting). Lines end by LF,
/// CRLF or CR, and empty ones are no records. A record is filtered where it has not one field for each column, where a
/// field gives its column no cell, or where its row does not lie inside. Memory stays within a small multiple of the body
/// and its cells: no list of records is kept.
pub fn read_body<I: Inside>(
    alloc: Global,
    shape: &Shape,
    inside: Option<&I>,
    options: &Options,
    bytes: &[u8],
) -> Result<Parsed, BodyFault>
    ensures parsed { IfOk result (λ p. p ≡ body shape.now (is_inside I.inside (option_copied inside.entry)) options.now bytes.now) }
    ensures within { OnOk result (length (records_by options.now bytes.now) ≤ max_records) }
    ensures refused { IfErr result (Explains (length (records_by options.now bytes.now))) }
{
    let mut records = Records::of(alloc, options.separator, bytes);
    let mut fields = ByteRecord::new(alloc);
    let mut row = Row::new(alloc);
    let mut parsed = parsed_none(alloc);
    for _ in 0..MAX_RECORDS {
        if !records.read(&mut fields)? {
            return Ok(parsed);
        }
        if read_row(
            alloc,
            shape.columns(),
            inside,
            options.strict,
            &fields,
            &mut row,
        )? {
            count_row(&mut parsed, &mut row)?;
        } else {
            count_filtered(&mut parsed);
            // It may hold the cells before the one that was missing.
            row = Row::new(alloc);
        }
    }
    // A body of exactly the limit passes, so one more record is looked for.
    if records.read(&mut fields)? {
        return Err(BodyFault::TooManyRows { limit: MAX_RECORDS });
    }
    Ok(parsed)
}
