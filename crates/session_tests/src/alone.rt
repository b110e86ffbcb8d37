// A session over a core that no others share.
ghost use Rattle.std.specs.Prelude.{◌≡◌, ◌<◌};

use super::texts::{
    CONTINUE, CREATE, CREATE_SPREAD, CREATE_TABLE, DONE, LOAD, LOADED, ROWS, SELECT, USED,
};
use dl_outside::{ListClock, MemorySink, MemorySource, Steps};
use dl_values::NoMemory;
use load_server::{SessionEnd, Solo, session};
use std::alloc::Global;
use std::marker::Brand;
use std::process::Abort;
use std::sync::ledger::{Blank, Ledger};
use std::test::Fail;

// How a session over a new core ends, and what it writes.
fn session_alone<L: Ledger>(
    alloc: Global,
    input: Vec<u8>,
    blank: Blank,
) -> Result<(SessionEnd, Vec<u8>), NoMemory>
    requires name { blank.name ≡ L.name }
    requires parts { blank.parts ≡ L.parts }
    requires some { 0 < L.parts }
{
    let mut turns = Solo::new(alloc);
    let mut source = MemorySource::new(input, 100, Vec::new(alloc));
    let mut sink = MemorySink::new(Vec::new(alloc), Vec::new(alloc));
    let mut clock = ListClock::new(Vec::new(alloc));
    let mut steps: Steps<L> = Steps::new(blank);
    let end = session(
        alloc,
        &mut turns,
        &mut source,
        &mut sink,
        &mut clock,
        &mut steps,
    );
    Ok((end, Vec::from_slice(alloc, sink.bytes())?))
}

pub fn alone(alloc: Global, input: Vec<u8>) -> Result<(SessionEnd, Vec<u8>), NoMemory> {
    session_alone::<Brand>(alloc, input, Blank::new(1))
}

fn joined(alloc: Global, parts: &[&[u8]]) -> Result<Vec<u8>, NoMemory> {
    let mut all = Vec::new(alloc);
    for part in parts {
        all.extend_from_slice(part)?;
    }
    Ok(all)
}

// A database, a table, a load, the load again, and a query.
fn are_loaded_once(rt: &impl Abort, alloc: Global, table: &[u8]) -> Result<(), Fail> {
    let input = joined(alloc, &[CREATE, table, LOAD, LOAD, SELECT])?;
    let wanted = joined(alloc, &[DONE, DONE, CONTINUE, LOADED, CONTINUE, USED, ROWS])?;
    let (end, written) = alone(alloc, input)?;
    assert_eq!(rt; end, SessionEnd::Done);
    assert_eq!(rt; written.as_slice(), wanted.as_slice());
    Ok(())
}

#[test]
fn a_core_alone_answers_a_load_and_its_retry(rt: HostRuntime) -> Result<(), Fail> {
    are_loaded_once(&rt, rt.alloc(), CREATE_TABLE)
}

#[test]
fn a_load_over_four_buckets_is_answered_as_one_over_one(rt: HostRuntime) -> Result<(), Fail> {
    are_loaded_once(&rt, rt.alloc(), CREATE_SPREAD)
}
