// Calls of a set of tablets, one after the other, answer what was worked out by hand.
ghost use Rattle.std.specs.Prelude.{◌≡◌, ◌<◌};

mod rows;
mod tables;
mod texts;

use dl_outside::Steps;
use dl_values::{NoMemory, Rows};
use rows::{key_shape, rowset, shape};
use rowsets::Rowset;
use schema_models::Shape;
use std::alloc::Global;
use std::marker::Brand;
use std::process::Abort;
use std::sync::Arc;
use std::sync::ledger::{Blank, Ledger};
use std::test::Fail;
use tables::{At, Call, SCRIPTS};
use tablets::{Compacted, Gone, TabletSet};
use texts::{compacted_text, rows_text};

// A set of tablets, the shape of its base, and what the last compaction was merged to.
#[derive(Drop)]
struct Desk {
    set: TabletSet,
    shape: Shape,
    merged: Option<Compacted>,
}

const YES: &str = "yes";

const NO: &str = "no";

fn told(answer: bool) -> &'static str {
    if answer { YES } else { NO }
}

// Puts a rowset into a tablet, where there is such a tablet and the version and the rowset fit.
fn put(set: &mut TabletSet, at: At, version: u64, rowset: Arc<Rowset>) -> Result<bool, NoMemory> {
    let (index, part, bucket) = at;
    if !set.has(index, part, bucket) {
        return Ok(false);
    }
    set.reserve(index, part, bucket, 1)?;
    if !set.is_past(index, part, bucket, version) {
        return Ok(false);
    }
    if !set.is_shape_of(index, part, bucket, &rowset) {
        return Ok(false);
    }
    set.put(index, part, bucket, version, rowset);
    Ok(true)
}

// Puts a rowset for all up to a version, where there is such a tablet and the rowset fits.
fn install(
    set: &mut TabletSet,
    at: At,
    version: u64,
    rowset: Arc<Rowset>,
) -> Result<bool, NoMemory> {
    let (index, part, bucket) = at;
    if !set.has(index, part, bucket) {
        return Ok(false);
    }
    set.reserve(index, part, bucket, 1)?;
    if !set.is_shape_of(index, part, bucket, &rowset) {
        return Ok(false);
    }
    set.install_history(index, part, bucket, version, rowset);
    Ok(true)
}

// The rows of a tablet at a version.
fn show<L: Ledger>(
    alloc: Global,
    set: &TabletSet,
    at: At,
    version: u64,
    steps: &mut Steps<L>,
) -> Result<Option<Rows>, NoMemory> {
    let (index, part, bucket) = at;
    if !set.has(index, part, bucket) {
        return Ok(None);
    }
    let rows = set.show(alloc, index, part, bucket, version, steps)?;
    Ok(Some(rows))
}

// How many rowsets of a tablet a query at a version reads.
fn snapshot(
    alloc: Global,
    set: &TabletSet,
    at: At,
    version: u64,
) -> Result<Option<usize>, NoMemory> {
    let (index, part, bucket) = at;
    if !set.has(index, part, bucket) {
        return Ok(None);
    }
    let lists = set.snapshot(alloc, index, part, bucket, version)?;
    Ok(Some(lists.len()))
}

// What the rowsets of a tablet are merged to, where there are five or more.
fn take<L: Ledger>(
    alloc: Global,
    set: &TabletSet,
    at: At,
    steps: &mut Steps<L>,
) -> Result<Option<Compacted>, NoMemory> {
    let (index, part, bucket) = at;
    if !set.has(index, part, bucket) {
        return Ok(None);
    }
    match set.take_compaction(alloc, index, part, bucket)? {
        None => Ok(None),
        Some(compaction) => {
            let done = compaction.merge(alloc, steps)?;
            Ok(Some(done))
        }
    }
}

// Gives what was merged to a tablet.
fn give(set: &mut TabletSet, at: At, done: Compacted) -> &'static str {
    let (index, part, bucket) = at;
    if !set.has(index, part, bucket) || !set.is_shape_of(index, part, bucket, &done.merged) {
        return NO;
    }
    match set.give_compaction(index, part, bucket, done) {
        Ok(()) => YES,
        Err(Gone) => "gone",
    }
}

// A shadow of a job more, where it may come.
fn add_shadow(
    alloc: Global,
    set: &mut TabletSet,
    job: u64,
    index: u64,
    replaces: Option<u64>,
    shape: Shape,
) -> Result<bool, NoMemory> {
    if !set.may_come(index, replaces) {
        return Ok(false);
    }
    set.add_shadow(alloc, job, index, replaces, shape)?;
    Ok(true)
}

// What a call that changes a set answers.
fn change(alloc: Global, desk: &mut Desk, call: &Call) -> Result<&'static str, Fail> {
    match call {
        Call::Put(at, version, rows) => {
            let rowset = rowset(alloc, &desk.shape, rows)?;
            Ok(told(put(&mut desk.set, *at, *version, rowset)?))
        }
        Call::PutKeys(at, version, rows) => {
            let rowset = rowset(alloc, &key_shape(alloc)?, rows)?;
            Ok(told(put(&mut desk.set, *at, *version, rowset)?))
        }
        Call::Install(at, version, rows) => {
            let rowset = rowset(alloc, &desk.shape, rows)?;
            Ok(told(install(&mut desk.set, *at, *version, rowset)?))
        }
        Call::Give(at) => match desk.merged.take() {
            None => Ok(NO),
            Some(done) => Ok(give(&mut desk.set, *at, done)),
        },
        Call::AddPart => {
            desk.set.add_part(alloc)?;
            Ok(YES)
        }
        Call::AddShadow(job, index, replaces) => {
            let shape = desk.shape.copy(alloc)?;
            Ok(told(add_shadow(alloc, &mut desk.set, *job, *index, *replaces, shape)?))
        }
        Call::DropShadows(job) => {
            desk.set.drop_shadows(*job);
            Ok(YES)
        }
        Call::Switch(job) => {
            desk.set.switch(*job);
            Ok(YES)
        }
        Call::Has(_) | Call::Show(_, _) | Call::Snapshot(_, _) | Call::Take(_) => Ok(NO),
    }
}

// What a call answers, as a text.
fn answer<L: Ledger>(
    alloc: Global,
    desk: &mut Desk,
    call: &Call,
    steps: &mut Steps<L>,
) -> Result<Vec<u8>, Fail> {
    match call {
        Call::Has((index, part, bucket)) => text(alloc, told(desk.set.has(*index, *part, *bucket))),
        Call::Show(at, version) => match show(alloc, &desk.set, *at, *version, steps)? {
            None => text(alloc, NO),
            Some(rows) => Ok(rows_text(alloc, &rows)?),
        },
        Call::Snapshot(at, version) => match snapshot(alloc, &desk.set, *at, *version)? {
            None => text(alloc, NO),
            Some(count) => {
                let count = format!(in alloc; "{count}")?;
                Ok(Vec::from_slice(alloc, count.as_bytes())?)
            }
        },
        Call::Take(at) => match take(alloc, &desk.set, *at, steps)? {
            None => text(alloc, NO),
            Some(done) => {
                let told = compacted_text(alloc, &done)?;
                desk.merged = Some(done);
                Ok(told)
            }
        },
        _ => text(alloc, change(alloc, desk, call)?),
    }
}

fn text(alloc: Global, text: &str) -> Result<Vec<u8>, Fail> {
    Ok(Vec::from_slice(alloc, text.as_bytes())?)
}

// Makes the calls of a script one after the other, and compares what each answers.
fn compare<L: Ledger>(
    rt: &impl Abort,
    alloc: Global,
    script: &[(Call, &str)],
    blank: Blank,
) -> Result<(), Fail>
    requires name { blank.name ≡ L.name }
    requires parts { blank.parts ≡ L.parts }
    requires some { 0 < L.parts }
{
    let mut steps: Steps<L> = Steps::new(blank);
    let mut desk = Desk {
        set: TabletSet::new(alloc, shape(alloc)?, 2, 4)?,
        shape: shape(alloc)?,
        merged: None,
    };
    for (place, (call, wanted)) in script.iter().enumerate() {
        let seen = answer(alloc, &mut desk, call, &mut steps)?;
        assert_eq!(rt; seen.as_slice(), wanted.as_bytes(), "{wanted} at {place}");
    }
    Ok(())
}

// The same with a ledger of its own for the steps.
fn play(rt: &impl Abort, alloc: Global, script: &[(Call, &str)]) -> Result<(), Fail> {
    compare::<Brand>(rt, alloc, script, Blank::new(1))
}

#[test]
fn calls_answer_what_was_worked_out(rt: HostRuntime) -> Result<(), Fail> {
    for script in SCRIPTS {
        play(&rt, rt.alloc(), script)?;
    }
    Ok(())
}
