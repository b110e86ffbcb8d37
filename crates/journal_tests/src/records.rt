// Records are read and written by their spelling, and bytes that are no record are bad where they are.
use crate::tables::{bytes_of, changes, faults, records};
use dl_values::Name;
use journal_records::{DecodeError, Record, decode, encode};
use std::alloc::Global;
use std::process::Abort;
use std::test::Fail;

fn is_spelled(alloc: Global, told: &Record, bytes: &[u8]) -> bool {
    match encode(alloc, told) {
        Ok(written) => written.as_slice() == bytes,
        Err(_) => false,
    }
}

// What reading bytes gives.
#[derive(Clone, Copy, PartialEq, Eq)]
enum Outcome {
    // A record that has these bytes.
    Record,
    // A record that has others, or want of memory.
    Wrong,
    Fault(usize),
}

fn read_outcome(alloc: Global, bytes: &[u8]) -> Outcome {
    match decode(alloc, bytes) {
        Ok(told) if is_spelled(alloc, &told, bytes) => Outcome::Record,
        Err(DecodeError::BadRecord { at }) => Outcome::Fault(at),
        _ => Outcome::Wrong,
    }
}

// The sum of the places of the faults where the bytes are cut before each of them, if each cut is a fault.
fn cuts(alloc: Global, bytes: &[u8]) -> Option<usize> {
    let mut sum: usize = 0;
    for end in 0..bytes.len() {
        match read_outcome(alloc, &bytes[..end]) {
            Outcome::Fault(at) => sum = sum.wrapping_add(at),
            _ => return None,
        }
    }
    Some(sum)
}

// The bytes with another one at a place, which may be the one behind them.
fn changed(alloc: Global, bytes: &[u8], place: usize, value: u8) -> Option<Vec<u8>> {
    let mut copy = Vec::new(alloc);
    for (at, byte) in bytes.iter().enumerate() {
        copy.push(if at == place { value } else { *byte }).ok()?;
    }
    if place == bytes.len() {
        copy.push(value).ok()?;
    }
    Some(copy)
}

fn changed_outcome(alloc: Global, bytes: &[u8], place: usize, value: u8) -> Outcome {
    match changed(alloc, bytes, place, value) {
        Some(copy) => read_outcome(alloc, copy.as_slice()),
        None => Outcome::Wrong,
    }
}

// How many of the other values at a place make a record, and the sum of the places of the other faults.
fn changes_at(alloc: Global, bytes: &[u8], place: usize, old: u8) -> (usize, usize) {
    let mut count: usize = 0;
    let mut sum: usize = 0;
    for value in 0..=u8::MAX {
        match changed_outcome(alloc, bytes, place, value) {
            Outcome::Fault(at) => sum = sum.wrapping_add(at),
            Outcome::Record if value != old => count = count.wrapping_add(1),
            _ => {}
        }
    }
    (count, sum)
}

fn all_changes(alloc: Global, bytes: &[u8]) -> (usize, usize) {
    let mut count: usize = 0;
    let mut sum: usize = 0;
    for (place, byte) in bytes.iter().enumerate() {
        let (more, places) = changes_at(alloc, bytes, place, *byte);
        count = count.wrapping_add(more);
        sum = sum.wrapping_add(places);
    }
    (count, sum)
}

fn is_record(alloc: Global, digits: &str, places: usize) -> bool {
    match bytes_of(alloc, digits) {
        Some(bytes) => {
            read_outcome(alloc, bytes.as_slice()) == Outcome::Record
                && cuts(alloc, bytes.as_slice()) == Some(places)
                && changed_outcome(alloc, bytes.as_slice(), bytes.len(), 0)
                    == Outcome::Fault(bytes.len())
        }
        None => false,
    }
}

fn is_bad_at(alloc: Global, digits: &str, place: usize) -> bool {
    match bytes_of(alloc, digits) {
        Some(bytes) => read_outcome(alloc, bytes.as_slice()) == Outcome::Fault(place),
        None => false,
    }
}

fn has_changes(alloc: Global, digits: &str, count: usize, places: usize) -> bool {
    match bytes_of(alloc, digits) {
        Some(bytes) => all_changes(alloc, bytes.as_slice()) == (count, places),
        None => false,
    }
}

#[test]
fn records_are_written_as_they_were_read_and_cut_or_longer_ones_are_bad(rt: HostRuntime) {
    for (digits, places) in records() {
        assert!(rt; is_record(rt.alloc(), digits, *places), "{digits}");
    }
}

#[test]
fn bad_bytes_are_bad_where_they_are(rt: HostRuntime) {
    for (digits, place) in faults() {
        assert!(rt; is_bad_at(rt.alloc(), digits, *place), "{digits}");
    }
}

#[test]
fn a_changed_byte_makes_another_record_or_a_fault_in_its_place(rt: HostRuntime) {
    for (digits, count, places) in changes() {
        assert!(rt;
            has_changes(rt.alloc(), digits, *count, *places),
            "{digits}"
        );
    }
}

#[test]
fn a_database_and_a_range_are_spelled_so(rt: HostRuntime) -> Result<(), Fail> {
    let made = Record::CreateDb(Name::new(rt.alloc(), b"d")?);
    assert!(rt; is_spelled(rt.alloc(), &made, b"\x01\x01\0\0\0\x01d"));
    let drawn = Record::IdRange { upto: 1000 };
    assert!(rt; is_spelled(rt.alloc(), &drawn, b"\x01\x05\0\0\0\0\0\0\x03\xe8"));
    Ok(())
}
