// The texts as tables, written by hand.
use alter_core::JobState;
use dl_values::{ColType, Name};
use front_defs::{AlterError, Reply};
use labels::TxnState;
use partitions::LayoutError;
use reply_texts::{job_text, refusal_text, state_text, type_text};
use row_map::AdmitError;
use schema_models::ShapeError;
use std::alloc::Global;
use std::process::Abort;
use std::test::Fail;
use table_defs::DefError;

// A reply, by its place among the texts that are wanted.
fn reply(place: usize) -> Reply {
    match place {
        0 => Reply::Used {
            txn: 1,
            state: TxnState::Visible,
        },
        1 => Reply::Aborted { txn: 7 },
        2 => Reply::Done,
        3 => Reply::UnknownTable,
        4 => Reply::Expired {
            since: 1_700_000_000,
        },
        5 => Reply::WrongState {
            state: TxnState::Aborted,
        },
        6 => Reply::Added { job: 3 },
        7 => Reply::NothingToSweep,
        8 => Reply::Busy { job: 12 },
        9 => Reply::TooManyRollups,
        10 => Reply::Stale { live: 2 },
        11 => Reply::TaskOver {
            state: JobState::WaitingTxn,
        },
        12 => Reply::BadJournal { seq: 3 },
        13 => Reply::KeeperFault,
        _ => Reply::NoMemory,
    }
}

const REFUSALS: &[&str] = &[
    "Used txn=1 state=VISIBLE",
    "",
    "",
    "UnknownTable",
    "Expired since=1700000000",
    "WrongState state=ABORTED",
    "",
    "NothingToSweep",
    "Busy job=12",
    "TooManyRollups",
    "Stale live=2",
    "TaskOver state=WAITING_TXN",
    "BadJournal seq=3",
    "KeeperFault",
    "NoMemory",
];

fn refusals() -> &'static [&'static str] {
    REFUSALS
}

fn compare(rt: &impl Abort, alloc: Global, reply: Reply, wanted: &str) -> Result<(), Fail> {
    let text = refusal_text(alloc, &reply)?;
    assert_eq!(rt; text.bytes(), wanted.as_bytes());
    Ok(())
}

#[test]
fn a_refusal_has_its_name_and_its_fields(rt: HostRuntime) -> Result<(), Fail> {
    for (place, wanted) in refusals().iter().enumerate() {
        compare(&rt, rt.alloc(), reply(place), wanted)?;
    }
    Ok(())
}

fn bad_table(error: DefError) -> Reply {
    Reply::BadTable { error }
}

#[test]
fn a_bad_table_has_the_text_of_what_is_wrong_with_it(rt: HostRuntime) -> Result<(), Fail> {
    let alloc = rt.alloc();
    let late = DefError::Shape(ShapeError::KeyAfterValue { column: 1 });
    compare(&rt, alloc, bad_table(late), "KeyAfterValue column=1")?;
    let many = DefError::Shape(ShapeError::TooManyColumns { limit: 64 });
    compare(&rt, alloc, bad_table(many), "TooManyColumns limit=64")?;
    let column = Name::new(alloc, b"v")?;
    let unknown = DefError::Layout(LayoutError::NoColumn { column });
    compare(&rt, alloc, bad_table(unknown), "NoColumn column=v")?;
    let column = Name::new(alloc, b"k 1")?;
    let value = DefError::Layout(LayoutError::NotAKey { column });
    compare(&rt, alloc, bad_table(value), "NotAKey column=k 1")?;
    let buckets = DefError::Layout(LayoutError::BadBuckets);
    compare(&rt, alloc, bad_table(buckets), "BadBuckets")
}

fn bad_alter(error: AlterError) -> Reply {
    Reply::BadAlter { error }
}

#[test]
fn a_bad_alteration_has_the_text_of_what_is_wrong_with_it(rt: HostRuntime) -> Result<(), Fail> {
    let alloc = rt.alloc();
    let unknown = AlterError::NoColumn(Name::new(alloc, b"v")?);
    compare(&rt, alloc, bad_alter(unknown), "NoColumn column=v")?;
    let double = AlterError::Shape(ShapeError::DoubleName { column: 1 });
    compare(&rt, alloc, bad_alter(double), "DoubleName column=1")?;
    let column = Name::new(alloc, b"k")?;
    let lacking = AlterError::Map(AdmitError::NeedsKey { column });
    compare(&rt, alloc, bad_alter(lacking), "NeedsKey column=k")?;
    let partition = Name::new(alloc, b"p1")?;
    let error = LayoutError::Overlap { partition };
    compare(
        &rt,
        alloc,
        Reply::BadPartition { error },
        "Overlap partition=p1",
    )
}

const STATES: &[(TxnState, &str, &str)] = &[
    (TxnState::Prepare, "PREPARE", "RUNNING"),
    (TxnState::Precommitted, "PRECOMMITTED", "PRECOMMITTED"),
    (TxnState::Committed, "COMMITTED", "FINISHED"),
    (TxnState::Visible, "VISIBLE", "FINISHED"),
    (TxnState::Aborted, "ABORTED", "CANCELLED"),
];

fn states() -> &'static [(TxnState, &'static str, &'static str)] {
    STATES
}

const TYPES: &[(ColType, &str)] = &[
    (ColType::TinyInt, "TINYINT"),
    (ColType::SmallInt, "SMALLINT"),
    (ColType::Int, "INT"),
    (ColType::BigInt, "BIGINT"),
    (ColType::Date, "DATE"),
    (ColType::Varchar(16), "VARCHAR(16)"),
    (ColType::Varchar(65533), "VARCHAR(65533)"),
];

fn types() -> &'static [(ColType, &'static str)] {
    TYPES
}

#[test]
fn a_state_is_in_capitals_and_a_job_ends_when_its_load_is_committed(
    rt: HostRuntime,
) -> Result<(), Fail> {
    let alloc = rt.alloc();
    for (state, word, job) in states() {
        let text = state_text(alloc, *state)?;
        assert_eq!(rt; text.bytes(), word.as_bytes());
        let text = job_text(alloc, *state)?;
        assert_eq!(rt; text.bytes(), job.as_bytes());
    }
    Ok(())
}

#[test]
fn a_type_is_its_words(rt: HostRuntime) -> Result<(), Fail> {
    let alloc = rt.alloc();
    for (kind, wanted) in types() {
        let text = type_text(alloc, *kind)?;
        assert_eq!(rt; text.bytes(), wanted.as_bytes());
    }
    Ok(())
}
