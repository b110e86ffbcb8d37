// The fields of ends of two-phase loads.
use super::shown::asked;
use std::alloc::Global;
use std::process::Abort;
use std::test::Fail;

// What an end with these lines of fields asks for.
fn end(alloc: Global, fields: &[u8]) -> Result<Vec<u8>, Fail> {
    let mut head = Vec::from_slice(alloc, b"PUT /api/d/_stream_load_2pc HTTP/1.1\r\n")?;
    head.extend_from_slice(fields)?;
    head.extend_from_slice(b"\r\n")?;
    asked(alloc, head.as_slice(), b"")
}

// Lines of fields, and what an end with them asks for.
type End = (&'static [u8], &'static [u8]);

fn are_asked(rt: &impl Abort, alloc: Global, of: &[End]) -> Result<(), Fail> {
    for (fields, wanted) in of {
        let found = end(alloc, fields)?;
        assert_eq!(rt; found.as_slice(), *wanted);
    }
    Ok(())
}

const ENDS: &[End] = &[
    (b"txn_id: 7\r\ntxn_operation: commit\r\n", b"commit d 7"),
    (b"TXN_ID: 7\r\nTxn_Operation: ABORT\r\n", b"abort d 7"),
    (
        b"txn_operation: Commit\r\nlabel: a1\r\n",
        b"commit d label a1",
    ),
    (b"label:\r\ntxn_operation: abort\r\n", b"abort d label "),
    (
        b"label: a1\r\ntxn_id: 7\r\ntxn_operation: commit\r\n",
        b"commit d 7",
    ),
    (
        b"label: \xff\r\ntxn_id: 7\r\ntxn_operation: commit\r\n",
        b"commit d 7",
    ),
    (
        b"txn_id: 0000000000000000001\r\ntxn_operation: commit\r\n",
        b"commit d 1",
    ),
    (
        b"txn_id: 9999999999999999999\r\ntxn_operation: commit\r\n",
        b"commit d 9999999999999999999",
    ),
    (
        b"txn_id: 7\r\ntxn_id: x\r\ntxn_operation: commit\r\n",
        b"commit d 7",
    ),
    (
        b"label: a\r\nlabel: \xff\r\ntxn_operation: commit\r\n",
        b"commit d label a",
    ),
    (
        b"txn_id: 7\r\ntxn_operation: abort\r\ntxn_operation: commit\r\n",
        b"abort d 7",
    ),
    (
        b"columns: k\r\nstrict_mode: x\r\ntxn_id: 7\r\ntxn_operation: abort\r\n",
        b"abort d 7",
    ),
];

fn ends() -> &'static [End] {
    ENDS
}

#[test]
fn an_end_names_its_load_and_what_is_to_be_done(rt: HostRuntime) -> Result<(), Fail> {
    are_asked(&rt, rt.alloc(), ends())
}

const NO_KEY: &[u8] = b"bad end: BadHeader name=txn_id";

const NO_OPERATION: &[u8] = b"bad end: BadHeader name=txn_operation";

const FAULTS: &[End] = &[
    (b"", NO_KEY),
    (b"txn_operation: commit\r\n", NO_KEY),
    (b"txn_operation: x\r\n", NO_KEY),
    (b"txn_id:\r\ntxn_operation: commit\r\n", NO_KEY),
    (b"txn_id: 1a\r\ntxn_operation: commit\r\n", NO_KEY),
    (b"txn_id: +1\r\ntxn_operation: commit\r\n", NO_KEY),
    (b"txn_id: -1\r\ntxn_operation: commit\r\n", NO_KEY),
    (
        b"txn_id: 00000000000000000001\r\ntxn_operation: commit\r\n",
        NO_KEY,
    ),
    (
        b"txn_id: x\r\nlabel: a\r\ntxn_operation: commit\r\n",
        NO_KEY,
    ),
    (
        b"txn_id: x\r\ntxn_id: 7\r\ntxn_operation: commit\r\n",
        NO_KEY,
    ),
    (b"label: \xff\r\ntxn_operation: commit\r\n", NO_KEY),
    (
        b"label: \xff\r\nlabel: a\r\ntxn_operation: commit\r\n",
        NO_KEY,
    ),
    (b"txn_id: 7\r\n", NO_OPERATION),
    (b"label: a\r\n", NO_OPERATION),
    (b"txn_id: 7\r\ntxn_operation:\r\n", NO_OPERATION),
    (b"txn_id: 7\r\ntxn_operation: rollback\r\n", NO_OPERATION),
    (
        b"txn_id: 7\r\ntxn_operation: x\r\ntxn_operation: commit\r\n",
        NO_OPERATION,
    ),
];

fn faults() -> &'static [End] {
    FAULTS
}

#[test]
fn an_end_without_a_readable_field_is_refused(rt: HostRuntime) -> Result<(), Fail> {
    are_asked(&rt, rt.alloc(), faults())
}
