// What a body gives.
ghost use Rattle.std.specs.Prelude.{◌≡◌, ◌+◌, ◌<◌, ◌≤◌, ◌^◌, OnOk, Some, None, []};
ghost use Rattle.csv_load.specs.Counting.{nothing, counted};

use dl_values::{NoMemory, Row, Rows};
use std::alloc::Global;

/// The rows of a body and what was counted.
#[derive(Debug, Drop)]
pub struct Parsed {
    /// The rows that were kept, in the order of the body.
    pub rows: Rows,
    /// How many records there are.
    pub total: u64,
    /// How many of them gave no row.
    pub filtered: u64,
    /// The first record that gave no row, counted from 1.
    pub first_bad: Option<u64>,
}

// What no records give.
pub(crate) fn parsed_none(alloc: Global) -> Parsed
    ensures { result ≡ nothing }
{
    Parsed {
        rows: Rows::new(alloc),
        total: 0,
        filtered: 0,
        first_bad: None,
    }
}

// Counts a record that gives this row, and takes the row's cells.
pub(crate) fn count_row(parsed: &mut Parsed, row: &mut Row) -> Result<(), NoMemory>
    requires { parsed.old.total + 1 < 2 ^ 64 }
    ensures counted { OnOk result (parsed.new ≡ counted parsed.old (Some row.old)) }
    ensures emptied { OnOk result (row.new ≡ []) }
{
    parsed.rows.append(row)?;
    parsed.total += 1;
    Ok(())
}

// Counts a record that gives no row.
pub(crate) fn count_filtered(parsed: &mut Parsed)
    requires room { parsed.old.total + 1 < 2 ^ 64 }
    requires fewer { parsed.old.filtered ≤ parsed.old.total }
    ensures { parsed.new ≡ counted parsed.old None }
{
    parsed.total += 1;
    parsed.filtered += 1;
    parsed.first_bad = parsed.first_bad.or(Some(parsed.total));
}
