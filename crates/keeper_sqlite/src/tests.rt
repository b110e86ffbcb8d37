use super::*;
use record_keeper::{Keeper, KeeperError, MemoryKeeper};
use sqlite::{Alter, Connection, Error, MemStore};
use std::alloc::{AllocError, Global};
use std::fs;
use std::test::Fail;

// A call of a keeper, with what it is to answer.
#[derive(Clone, Copy)]
enum Step {
    Append(&'static [u8]),
    Replace(&'static [u8]),
    Has(u64, &'static [u8]),
    EndsAt(u64),
}

// From nothing on.
const FIRST: [Step; 14] = [
    Step::EndsAt(0),
    Step::Append(b"one"),
    Step::Append(b""),
    Step::Has(0, b"one"),
    Step::Has(1, b""),
    Step::EndsAt(2),
    Step::EndsAt(9_223_372_036_854_775_807),
    Step::EndsAt(u64::MAX),
    Step::Replace(b"new"),
    Step::Has(0, b"new"),
    Step::EndsAt(1),
    Step::Append(b"\x00\xff"),
    Step::Has(1, b"\x00\xff"),
    Step::EndsAt(2),
];

// Where the first left off.
const LATER: [Step; 8] = [
    Step::Has(0, b"new"),
    Step::Has(1, b"\x00\xff"),
    Step::Append(b"three"),
    Step::Has(2, b"three"),
    Step::EndsAt(3),
    Step::Replace(b""),
    Step::Has(0, b""),
    Step::EndsAt(1),
];

const LONG: usize = 300;

// The kit counts a row that a query reads as a step, or a few.
const FEW_STEPS: u64 = 8;

const FOLDER: &str = "keeper_sqlite_test";

const PATH: &str = "keeper_sqlite_test/journal";

const NO_JOURNALS: &str = "keeper_sqlite_test_none";

const TEXT: &str = "keeper_sqlite_test_none/text";

fn has<K: Keeper>(keeper: &mut K, place: u64, bytes: &[u8]) -> bool {
    match keeper.read_from(place) {
        Ok(Some(record)) => record.as_slice() == bytes,
        _ => false,
    }
}

fn answers<K: Keeper>(keeper: &mut K, step: Step) -> bool {
    match step {
        Step::Append(bytes) => keeper.append(bytes).is_ok(),
        Step::Replace(bytes) => keeper.replace(bytes).is_ok(),
        Step::Has(place, bytes) => has(keeper, place, bytes),
        Step::EndsAt(place) => matches!(keeper.read_from(place), Ok(None)),
    }
}

// The first step that is not answered so.
fn first_wrong<K: Keeper>(keeper: &mut K, steps: &[Step]) -> Option<usize> {
    for at in 0..steps.len() {
        if !answers(keeper, steps[at]) {
            return Some(at);
        }
    }
    None
}

fn is_fault(answer: Result<(), KeeperError>) -> bool {
    matches!(answer, Err(KeeperError::Failed))
}

// Each value of a byte, and some twice.
fn long_record(alloc: Global) -> Result<Vec<u8>, AllocError> {
    let mut bytes = Vec::new(alloc);
    for at in 0..LONG {
        bytes.push((at % 256) as u8)?;
    }
    Ok(bytes)
}

fn keeps_a_long_record<K: Keeper>(alloc: Global, keeper: &mut K) -> Result<bool, AllocError> {
    let bytes = long_record(alloc)?;
    Ok(keeper.replace(bytes.as_slice()).is_ok() && has(keeper, 0, bytes.as_slice()))
}

fn in_memory(alloc: Global) -> Result<SqliteKeeper<MemStore>, AllocError> {
    Ok(SqliteKeeper::adopt(Connection::open_in_memory(alloc)?))
}

fn begin<S: Alter>(connection: &mut Connection<S>) -> Result<(), Error> {
    connection.execute("BEGIN", &[])?;
    Ok(())
}

// How many appends are answered well before one is not.
fn appended<K: Keeper>(keeper: &mut K, most: u64) -> u64 {
    for count in 0..most {
        if keeper.append(b"again").is_err() {
            return count;
        }
    }
    most
}

fn at_path(rt: HostRuntime) -> Result<FileKeeper, AllocError> {
    Ok(FileKeeper::open(rt, String::from_str(rt.alloc(), PATH)?))
}

#[test]
fn a_database_keeps_what_a_keeper_in_memory_keeps(rt: HostRuntime) -> Result<(), Fail> {
    let mut plain = MemoryKeeper::new(rt.alloc(), Vec::new(rt.alloc()));
    let mut keeper = in_memory(rt.alloc())?;
    assert_eq!(rt; first_wrong(&mut plain, &FIRST), None);
    assert_eq!(rt; first_wrong(&mut plain, &LATER), None);
    assert_eq!(rt; first_wrong(&mut keeper, &FIRST), None);
    assert_eq!(rt; first_wrong(&mut keeper, &LATER), None);
    assert!(rt; keeps_a_long_record(rt.alloc(), &mut keeper)?);
    assert_eq!(rt; keeper.faults(), 0);
    Ok(())
}

#[test]
fn an_append_reads_a_few_rows_however_many_there_are(rt: HostRuntime) -> Result<(), Fail> {
    let mut connection = Connection::open_in_memory(rt.alloc())?;
    connection.set_step_limit(Some(FEW_STEPS));
    let mut keeper = SqliteKeeper::adopt(connection);
    assert_eq!(rt; appended(&mut keeper, 200), 200);
    assert!(rt; has(&mut keeper, 199, b"again"));
    Ok(())
}

#[test]
fn each_call_within_an_open_transaction_is_a_fault(rt: HostRuntime) -> Result<(), Fail> {
    let mut connection = Connection::open_in_memory(rt.alloc())?;
    begin(&mut connection)?;
    let mut keeper = SqliteKeeper::adopt(connection);
    assert!(rt; is_fault(keeper.append(b"one")));
    assert!(rt; is_fault(keeper.replace(b"one")));
    assert!(rt; matches!(keeper.read_from(0), Err(KeeperError::Failed)));
    assert_eq!(rt; keeper.faults(), 3);
    Ok(())
}

#[test]
fn a_file_is_opened_once_it_can_be_and_has_its_records_again(rt: HostRuntime) -> Result<(), Fail> {
    let _ = fs::remove_dir_all(&rt, FOLDER);
    let mut keeper = at_path(rt)?;
    assert!(rt; is_fault(keeper.append(b"lost")));
    assert_eq!(rt; keeper.faults(), 1);
    fs::create_dir(&rt, FOLDER)?;
    assert_eq!(rt; first_wrong(&mut keeper, &FIRST), None);
    assert!(rt; is_fault(at_path(rt)?.append(b"locked")));
    drop(keeper);
    assert_eq!(rt; first_wrong(&mut at_path(rt)?, &LATER), None);
    fs::remove_dir_all(&rt, FOLDER)?;
    Ok(())
}

fn is_fault_of_each_call<K: Keeper>(keeper: &mut K) -> bool {
    is_fault(keeper.append(b"one"))
        && is_fault(keeper.replace(b"one"))
        && matches!(keeper.read_from(0), Err(KeeperError::Failed))
}

#[test]
fn a_folder_and_a_text_keep_nothing_and_are_left_alone(rt: HostRuntime) -> Result<(), Fail> {
    let _ = fs::remove_dir_all(&rt, NO_JOURNALS);
    fs::create_dir(&rt, NO_JOURNALS)?;
    let text = [b'a'; 4096];
    fs::write(&rt, TEXT, text.as_slice())?;
    for path in [NO_JOURNALS, TEXT] {
        let mut keeper = FileKeeper::open(rt, String::from_str(rt.alloc(), path)?);
        assert!(rt; is_fault_of_each_call(&mut keeper));
        assert_eq!(rt; keeper.faults(), 3);
    }
    assert_eq!(rt; fs::read(&rt, TEXT)?.as_slice(), text.as_slice());
    fs::remove_dir_all(&rt, NO_JOURNALS)?;
    Ok(())
}
