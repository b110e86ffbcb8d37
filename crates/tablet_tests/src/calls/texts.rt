// Rows and merged rowsets as texts.
use dl_values::{Cell, NoMemory, Rows, write_cell};
use row_fold::SortedRows;
use std::alloc::Global;
use std::test::Fail;
use tablets::Compacted;

fn add_row(out: &mut Vec<u8>, row: &[Cell]) -> Result<(), NoMemory> {
    for (place, cell) in row.iter().enumerate() {
        if place > 0 {
            out.push(b',')?;
        }
        write_cell(cell, out)?;
    }
    out.push(b';')?;
    Ok(())
}

// The cells of each row, apart by commas, and a semicolon behind it.
pub fn rows_text(alloc: Global, rows: &Rows) -> Result<Vec<u8>, NoMemory> {
    let mut out = Vec::new(alloc);
    for place in 0..rows.len() {
        add_row(&mut out, rows.row(place))?;
    }
    Ok(out)
}

// The pairs of versions of the rowsets that were merged, and how many rows they came to.
pub fn compacted_text(alloc: Global, done: &Compacted) -> Result<Vec<u8>, Fail> {
    let mut out = Vec::new(alloc);
    for (first, last) in done.versions.as_slice() {
        let pair = format!(in alloc; "{first}-{last} ")?;
        out.extend_from_slice(pair.as_bytes())?;
    }
    let rows = format!(in alloc; "to {}", done.merged.len())?;
    out.extend_from_slice(rows.as_bytes())?;
    Ok(out)
}
