// A journal in memory: what is kept, what is read, and what fails.
use dl_values::Name;
use journal_core::{JournalError, append_one, read_one, replay};
use journal_records::Record;
use record_keeper::{FailingCall, Keeper, MemoryKeeper};
use std::alloc::Global;
use std::process::Abort;

// The first append fails and keeps, the second fails and loses, and the first reading fails.
const FAILS: [FailingCall; 3] = [
    FailingCall {
        call: 0,
        kept: true,
    },
    FailingCall {
        call: 1,
        kept: false,
    },
    FailingCall {
        call: 2,
        kept: false,
    },
];

fn failing(alloc: Global) -> Option<MemoryKeeper> {
    let fails = Vec::from_array(alloc, FAILS).ok()?;
    Some(MemoryKeeper::new(alloc, fails))
}

fn keeps_database(alloc: Global, keeper: &mut MemoryKeeper, name: &[u8]) -> bool {
    match Name::new(alloc, name) {
        Ok(name) => append_one(alloc, keeper, &Record::CreateDb(name)).is_ok(),
        Err(_) => false,
    }
}

fn keeps_range(alloc: Global, keeper: &mut MemoryKeeper) -> Option<JournalError> {
    append_one(alloc, keeper, &Record::IdRange { upto: 1000 }).err()
}

// What reading at a place gives.
#[derive(Clone, Copy, PartialEq, Eq)]
enum Told {
    Database,
    Other,
    Nothing,
    Fault(JournalError),
}

fn told_at(alloc: Global, keeper: &mut MemoryKeeper, place: u64) -> Told {
    match read_one(alloc, keeper, place.min(9)) {
        Ok(Some(Record::CreateDb(_))) => Told::Database,
        Ok(Some(_)) => Told::Other,
        Ok(None) => Told::Nothing,
        Err(fault) => Told::Fault(fault),
    }
}

fn count(alloc: Global, keeper: &mut MemoryKeeper) -> Option<usize> {
    match replay(alloc, keeper) {
        Ok(all) => Some(all.len()),
        Err(_) => None,
    }
}

fn fault(alloc: Global, keeper: &mut MemoryKeeper) -> Option<JournalError> {
    replay(alloc, keeper).err()
}

fn is_empty(alloc: Global, keeper: MemoryKeeper) -> bool {
    let mut keeper = keeper;
    count(alloc, &mut keeper) == Some(0) && told_at(alloc, &mut keeper, 0) == Told::Nothing
}

fn is_read_as_it_was_kept(alloc: Global, keeper: MemoryKeeper) -> bool {
    let mut keeper = keeper;
    keeps_database(alloc, &mut keeper, b"d")
        && keeps_range(alloc, &mut keeper).is_none()
        && count(alloc, &mut keeper) == Some(2)
        && told_at(alloc, &mut keeper, 0) == Told::Database
        && told_at(alloc, &mut keeper, 1) == Told::Other
        && told_at(alloc, &mut keeper, 2) == Told::Nothing
}

// The third record lacks its last byte, and the fifth is none either.
fn is_bad_at_the_first_bad_record(alloc: Global, keeper: MemoryKeeper) -> bool {
    let mut keeper = keeper;
    let bad = Some(JournalError::BadJournal { seq: 3 });
    keeps_database(alloc, &mut keeper, b"d")
        && keeps_range(alloc, &mut keeper).is_none()
        && keeper.append(&[1, 5, 0, 0, 0, 0, 0, 0, 7]).is_ok()
        && keeps_range(alloc, &mut keeper).is_none()
        && keeper.append(&[]).is_ok()
        && fault(alloc, &mut keeper) == bad
        && told_at(alloc, &mut keeper, 2) == Told::Fault(JournalError::BadJournal { seq: 3 })
        && told_at(alloc, &mut keeper, 4) == Told::Fault(JournalError::BadJournal { seq: 5 })
}

fn fails_and_keeps_or_loses(alloc: Global, keeper: MemoryKeeper) -> bool {
    let mut keeper = keeper;
    let failed = Some(JournalError::KeeperFault);
    keeps_range(alloc, &mut keeper) == failed
        && keeps_range(alloc, &mut keeper) == failed
        && fault(alloc, &mut keeper) == failed
        && count(alloc, &mut keeper) == Some(1)
        && keeper.faults() == 3
}

fn failing_calls_keep_or_lose(alloc: Global) -> bool {
    match failing(alloc) {
        Some(keeper) => fails_and_keeps_or_loses(alloc, keeper),
        None => false,
    }
}

#[test]
fn records_are_read_as_they_were_kept(rt: HostRuntime) {
    let alloc = rt.alloc();
    assert!(rt; is_empty(alloc, MemoryKeeper::new(alloc, Vec::new(alloc))));
    assert!(rt; is_read_as_it_was_kept(alloc, MemoryKeeper::new(alloc, Vec::new(alloc))));
}

#[test]
fn the_third_record_lacks_its_last_byte(rt: HostRuntime) {
    let alloc = rt.alloc();
    assert!(rt; is_bad_at_the_first_bad_record(alloc, MemoryKeeper::new(alloc, Vec::new(alloc))));
}

#[test]
fn a_failed_append_keeps_or_loses(rt: HostRuntime) {
    assert!(rt; failing_calls_keep_or_lose(rt.alloc()));
}
