// Scripts of calls, worked out by hand.
use crate::calls::{Answer, Call, Step, plays, stands};
use labels::TxnState;
use std::test::Fail;
use txn_core::{TxnBook, TxnError};

// A label is free again after an abort, and where its load is forgotten.
const LABELS: [Step; 11] = [
    (0, Call::Begin(b'a', false), Answer::Number(1)),
    (
        1,
        Call::Begin(b'a', false),
        Answer::Used(1, TxnState::Prepare),
    ),
    (2, Call::Abort(1), Answer::Done),
    (3, Call::Begin(b'a', false), Answer::Number(2)),
    (4, Call::Submit(2), Answer::Place(Some(1))),
    (5, Call::Publish, Answer::Number(2)),
    (
        6,
        Call::Begin(b'a', false),
        Answer::Used(2, TxnState::Visible),
    ),
    (259_202, Call::Sweep, Answer::Swept(0, 1)),
    (
        259_203,
        Call::Begin(b'a', false),
        Answer::Used(2, TxnState::Visible),
    ),
    (259_205, Call::Sweep, Answer::Swept(0, 1)),
    (259_206, Call::Begin(b'a', false), Answer::Number(3)),
];

// Loads are published by the places that their commits gave them.
const TWO_PHASES: [Step; 15] = [
    (0, Call::Begin(b'a', true), Answer::Number(1)),
    (0, Call::Begin(b'b', true), Answer::Number(2)),
    (0, Call::Begin(b'c', false), Answer::Number(3)),
    (1, Call::Submit(1), Answer::Place(None)),
    (1, Call::Submit(2), Answer::Place(None)),
    (2, Call::Publish, Answer::Other(TxnError::NothingToPublish)),
    (2, Call::Commit(2), Answer::Place(Some(1))),
    (3, Call::Submit(3), Answer::Place(Some(2))),
    (3, Call::Commit(1), Answer::Place(Some(3))),
    (4, Call::Publish, Answer::Number(2)),
    (4, Call::Publish, Answer::Number(3)),
    (4, Call::Publish, Answer::Number(1)),
    (4, Call::Publish, Answer::Other(TxnError::NothingToPublish)),
    (5, Call::Commit(1), Answer::Wrong(TxnState::Visible)),
    (5, Call::Commit(9), Answer::Other(TxnError::NoSuchTxn)),
];

// A load expires 600 seconds after its begin, and 3,600 after a submit without a commit.
const EXPIRED: [Step; 10] = [
    (0, Call::Begin(b'a', false), Answer::Number(1)),
    (0, Call::Begin(b'b', true), Answer::Number(2)),
    (10, Call::Submit(2), Answer::Place(None)),
    (599, Call::Sweep, Answer::Other(TxnError::NothingToSweep)),
    (600, Call::Submit(1), Answer::Expired(0)),
    (600, Call::Sweep, Answer::Swept(1, 0)),
    (601, Call::Begin(b'a', true), Answer::Number(3)),
    (3_610, Call::Commit(2), Answer::Expired(10)),
    (3_610, Call::Sweep, Answer::Swept(2, 0)),
    (3_610, Call::Sweep, Answer::Other(TxnError::NothingToSweep)),
];

// Where table 7 goes, its loads that are not committed are aborted.
const DROPPED: [Step; 11] = [
    (0, Call::Begin(b'a', false), Answer::Number(1)),
    (0, Call::Begin(b'b', false), Answer::Number(2)),
    (0, Call::Begin(b'x', false), Answer::Number(3)),
    (1, Call::Submit(2), Answer::Place(Some(1))),
    (2, Call::DropTable(7), Answer::Done),
    (3, Call::Begin(b'a', false), Answer::Number(4)),
    (
        3,
        Call::Begin(b'b', false),
        Answer::Used(2, TxnState::Committed),
    ),
    (
        3,
        Call::Begin(b'x', false),
        Answer::Used(3, TxnState::Prepare),
    ),
    (4, Call::Publish, Answer::Number(2)),
    (5, Call::Submit(1), Answer::Wrong(TxnState::Aborted)),
    (5, Call::Submit(3), Answer::Place(Some(2))),
];

#[test]
fn a_label_is_free_after_an_abort_and_where_its_load_is_forgotten(
    rt: HostRuntime,
) -> Result<(), Fail> {
    let mut book = TxnBook::new(rt.alloc());
    let played = plays(&mut book, rt.alloc(), &LABELS);
    assert!(rt; played);
    assert!(rt; stands(&book, 4, 1, 0, 3));
    Ok(())
}

#[test]
fn loads_are_published_by_their_places(rt: HostRuntime) -> Result<(), Fail> {
    let mut book = TxnBook::new(rt.alloc());
    let played = plays(&mut book, rt.alloc(), &TWO_PHASES);
    assert!(rt; played);
    assert!(rt; stands(&book, 4, 3, 0, 4));
    Ok(())
}

#[test]
fn a_load_expires_in_its_time(rt: HostRuntime) -> Result<(), Fail> {
    let mut book = TxnBook::new(rt.alloc());
    let played = plays(&mut book, rt.alloc(), &EXPIRED);
    assert!(rt; played);
    assert!(rt; stands(&book, 4, 0, 0, 4));
    Ok(())
}

#[test]
fn a_dropped_table_aborts_its_loads_and_no_others(rt: HostRuntime) -> Result<(), Fail> {
    let mut book = TxnBook::new(rt.alloc());
    let played = plays(&mut book, rt.alloc(), &DROPPED);
    assert!(rt; played);
    assert!(rt; stands(&book, 5, 2, 1, 3));
    Ok(())
}
