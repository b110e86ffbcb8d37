// The rows of loads are encoded as they were, where they can be read again.
use crate::tables::{bytes_of, records};
use dl_values::{Cell, Row, Rows, Text};
use journal_records::{EncodedRows, Record, are_readable, decode, encode_rows};
use std::alloc::Global;
use std::process::Abort;

fn are_encoded(alloc: Global, rows: &Rows, bytes: &[u8]) -> bool {
    if !are_readable(rows) {
        return false;
    }
    match encode_rows(alloc, rows) {
        Ok(encoded) => encoded.bytes() == bytes,
        Err(_) => false,
    }
}

fn are_encoded_again(alloc: Global, encoded: &EncodedRows) -> bool {
    match encoded.rows(alloc) {
        Ok(rows) => are_encoded(alloc, &rows, encoded.bytes()),
        Err(_) => false,
    }
}

// Whether bytes are a record whose rows, if it has any, are encoded again as they were.
fn has_rows_of_its_own(alloc: Global, digits: &str) -> bool {
    let Some(bytes) = bytes_of(alloc, digits) else {
        return false;
    };
    match decode(alloc, bytes.as_slice()) {
        Ok(Record::Submit(load)) => are_encoded_again(alloc, &load.rows),
        Ok(_) => true,
        Err(_) => false,
    }
}

fn rows_of(alloc: Global, cell: Cell) -> Option<Rows> {
    let mut row = Row::new(alloc);
    row.push(cell).ok()?;
    let mut rows = Rows::new(alloc);
    rows.push(row).ok()?;
    Some(rows)
}

fn is_readable(alloc: Global, cell: Cell) -> Option<bool> {
    let rows = rows_of(alloc, cell)?;
    Some(are_readable(&rows))
}

fn is_readable_text(alloc: Global, bytes: &[u8]) -> Option<bool> {
    match Text::new(alloc, bytes) {
        Ok(text) => is_readable(alloc, Cell::Text(text)),
        Err(_) => None,
    }
}

#[test]
fn rows_of_loads_are_encoded_again(rt: HostRuntime) {
    for (digits, _places) in records() {
        assert!(rt; has_rows_of_its_own(rt.alloc(), digits), "{digits}");
    }
}

#[test]
fn a_day_of_february_30_and_a_byte_255_are_not_readable(rt: HostRuntime) {
    let alloc = rt.alloc();
    assert!(rt; is_readable(alloc, Cell::Day(20_240_229)) == Some(true));
    assert!(rt; is_readable(alloc, Cell::Day(20_240_230)) == Some(false));
    assert!(rt; is_readable_text(alloc, b"\xc3\xa9") == Some(true));
    assert!(rt; is_readable_text(alloc, b"\xff") == Some(false));
}
