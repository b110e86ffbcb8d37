// A front answers tables of commands, and each reply is compared as a text.
ghost use Rattle.std.specs.Prelude.{◌≡◌, ◌<◌};

mod asks;
mod plain;
mod scans;
mod texts;

use asks::{Ask, command};
use dl_outside::Steps;
use dl_values::NoMemory;
use front_core::Front;
use plain::mixed;
use std::alloc::Global;
use std::marker::Brand;
use std::process::Abort;
use std::sync::ledger::{Blank, Ledger};
use std::test::Fail;
use texts::text;

// Commands and the texts of their replies: names and tables are refused in order;
const REFUSALS: &[(Ask, &str)] = &[
    (Ask::Select("t"), "UnknownDb"),
    (Ask::Db("9d"), "BadName"),
    (Ask::Db("d"), "Done"),
    (Ask::Db("d"), "DbExists"),
    (Ask::Table("e", "t"), "UnknownDb"),
    (Ask::Select("t"), "UnknownTable"),
    (Ask::Begin("a", false, 0), "UnknownTable"),
    (Ask::Table("d", "t"), "Done"),
    (Ask::Table("d", "t"), "TableExists"),
    (Ask::HashedBy("x"), "BadTable"),
    (Ask::Select("t"), "Snap 0 0"),
];

// loads become visible in the order of their commits;
const LOADS: &[(Ask, &str)] = &[
    (Ask::Db("d"), "Done"),
    (Ask::Table("d", "t"), "Done"),
    (Ask::Begin("a", false, 0), "Begun 1 1"),
    (Ask::Begin("b", false, 0), "Begun 2 2"),
    (Ask::Submit(2, 599, 70), "Submitted 1 0"),
    (Ask::Submit(1, 600, 5), "Expired 0"),
    (Ask::Submit(1, 599, 5), "Submitted 2 1"),
    (Ask::Submit(1, 599, 5), "WrongState COMMITTED"),
    (Ask::Begin("b", false, 0), "Used 2 COMMITTED"),
    (Ask::Abort("b"), "WrongState COMMITTED"),
    (Ask::Select("t"), "Snap 0 0"),
    (Ask::Publish, "Published 2 1"),
    (Ask::Select("t"), "Snap 1 70"),
    (Ask::Publish, "Published 1 2"),
    (Ask::Publish, "NothingToPublish"),
    (Ask::Select("t"), "Snap 2 75"),
];

// an aborted load gives its label back.
const ABORTS: &[(Ask, &str)] = &[
    (Ask::Db("d"), "Done"),
    (Ask::Table("d", "t"), "Done"),
    (Ask::Begin("a b", false, 0), "BadLabel"),
    (Ask::Begin("c", true, 0), "Begun 1 1"),
    (Ask::Begin("c", true, 0), "Used 1 PREPARE"),
    (Ask::Submit(1, 0, 900), "Submitted"),
    (Ask::Publish, "NothingToPublish"),
    (Ask::AbortId(1), "Aborted 1"),
    (Ask::AbortId(1), "WrongState ABORTED"),
    (Ask::Begin("c", false, 7), "Begun 2 2"),
    (Ask::Nothing(2), "Submitted 1 0"),
    (Ask::Publish, "Published 2 1"),
    (Ask::Begin("c", false, 7), "Used 2 VISIBLE"),
    (Ask::AbortId(77), "NoSuchTxn"),
    (Ask::Unlabelled, "Begun 3 3"),
    (Ask::Abort("auto_3"), "Aborted 3"),
];

// Two-phase loads become visible in the order of their commits, and expire 3,600 seconds after they were submitted.
const TWO_PHASE: &[(Ask, &str)] = &[
    (Ask::Db("d"), "Done"),
    (Ask::Table("d", "t"), "Done"),
    (Ask::Begin("a", true, 0), "Begun 1 1"),
    (Ask::Begin("b", true, 0), "Begun 2 2"),
    (Ask::Submit(1, 10, 5), "Submitted"),
    (Ask::Submit(2, 10, 70), "Submitted"),
    (Ask::Publish, "NothingToPublish"),
    (Ask::Select("t"), "Snap 0 0"),
    (Ask::Commit("b", 20), "Committed 2 1 0"),
    (Ask::Commit("a", 20), "Committed 1 2 1"),
    (Ask::Commit("a", 20), "WrongState COMMITTED"),
    (Ask::Publish, "Published 2 1"),
    (Ask::Select("t"), "Snap 1 70"),
    (Ask::Publish, "Published 1 2"),
    (Ask::Select("t"), "Snap 2 75"),
    (Ask::Commit("z", 20), "NoSuchTxn"),
    (Ask::Begin("e", true, 0), "Begun 3 3"),
    (Ask::Commit("e", 0), "WrongState PREPARE"),
    (Ask::Submit(3, 0, 1), "Submitted"),
    (Ask::Commit("e", 3600), "Expired 0"),
    (Ask::Commit("e", 3599), "Committed 3 3 0"),
];

// A sweep aborts what has expired, and forgets what ended three days ago, with its label; a committed load stays.
const SWEEPS: &[(Ask, &str)] = &[
    (Ask::Db("d"), "Done"),
    (Ask::Table("d", "t"), "Done"),
    (Ask::Sweep(0), "NothingToSweep"),
    (Ask::Begin("a", false, 0), "Begun 1 1"),
    (Ask::Begin("b", true, 0), "Begun 2 2"),
    (Ask::Submit(2, 0, 9), "Submitted"),
    (Ask::Sweep(599), "NothingToSweep"),
    (Ask::Sweep(600), "Swept 1 0"),
    (Ask::Abort("a"), "WrongState ABORTED"),
    (Ask::Sweep(3600), "Swept 1 0"),
    (Ask::Begin("a", false, 3600), "Begun 3 3"),
    (Ask::Submit(3, 3600, 4), "Submitted 1 0"),
    (Ask::Sweep(400000), "Swept 0 2"),
    (Ask::Abort("b"), "NoSuchTxn"),
    (Ask::Publish, "Published 3 1"),
    (Ask::Begin("a", false, 0), "Used 3 VISIBLE"),
    (Ask::Sweep(259199), "NothingToSweep"),
    (Ask::Sweep(259200), "Swept 0 1"),
    (Ask::Begin("a", false, 0), "Begun 4 4"),
];

// With a table its rows go, and what its loads hold; a committed load still becomes visible.
const DROPS: &[(Ask, &str)] = &[
    (Ask::Db("d"), "Done"),
    (Ask::Drop("t", false), "UnknownTable"),
    (Ask::Drop("t", true), "Done"),
    (Ask::Table("d", "t"), "Done"),
    (Ask::Begin("a", false, 0), "Begun 1 1"),
    (Ask::Begin("b", false, 0), "Begun 2 2"),
    (Ask::Submit(2, 0, 8), "Submitted 1 0"),
    (Ask::Drop("t", false), "Done"),
    (Ask::Select("t"), "UnknownTable"),
    (Ask::Submit(1, 0, 8), "WrongState ABORTED"),
    (Ask::Abort("a"), "WrongState ABORTED"),
    (Ask::Publish, "Published 2 1"),
    (Ask::Table("d", "t"), "Done"),
    (Ask::Select("t"), "Snap 0 0"),
    (Ask::Begin("a", false, 0), "Begun 3 3"),
];

// The rows of a load go into each of its buckets.
const WIDE: &[(Ask, &str)] = &[
    (Ask::Db("d"), "Done"),
    (Ask::Wide, "Done"),
    (Ask::Begin("a", false, 0), "Begun 1 1"),
    (Ask::Scatter(1, 30), "Submitted 1 0"),
    (Ask::Begin("b", false, 0), "Begun 2 2"),
    (Ask::Scatter(2, 500), "Submitted 2 1"),
    (Ask::Publish, "Published 1 1"),
    (Ask::Select("t"), "Snap 2 31"),
    (Ask::Publish, "Published 2 2"),
    (Ask::Select("t"), "Snap 4 532"),
];

// The reply to a command, as a text.
fn answered<L: Ledger>(
    alloc: Global,
    front: &mut Front,
    steps: &mut Steps<L>,
    ask: Ask,
) -> Result<String, NoMemory> {
    let command = command(alloc, ask)?;
    let reply = front.step(command, steps);
    text(alloc, &reply, steps)
}

// The replies to commands, one after another.
fn replies<L: Ledger>(alloc: Global, asks: &[Ask], blank: Blank) -> Result<Vec<String>, NoMemory>
    requires name { blank.name ≡ L.name }
    requires parts { blank.parts ≡ L.parts }
    requires some { 0 < L.parts }
{
    let mut front = Front::new(alloc);
    let mut steps: Steps<L> = Steps::new(blank);
    let mut texts = Vec::new(alloc);
    for ask in asks {
        texts.push(answered(alloc, &mut front, &mut steps, *ask)?)?;
    }
    Ok(texts)
}

fn compare(rt: &impl Abort, alloc: Global, table: &[(Ask, &str)]) -> Result<(), Fail> {
    let mut asks = Vec::new(alloc);
    for (ask, _) in table {
        asks.push(*ask)?;
    }
    let texts = replies::<Brand>(alloc, &asks, Blank::new(1))?;
    assert_eq!(rt; texts.len(), table.len());
    for ((_, wanted), text) in table.iter().zip(texts.iter()) {
        assert_eq!(rt; text.as_str(), *wanted);
    }
    Ok(())
}

fn tables() -> [&'static [(Ask, &'static str)]; 7] {
    [REFUSALS, LOADS, ABORTS, TWO_PHASE, SWEEPS, DROPS, WIDE]
}

#[test]
fn commands_are_answered_as_the_tables_say(rt: HostRuntime) -> Result<(), Fail> {
    for table in tables() {
        compare(&rt, rt.alloc(), table)?;
    }
    Ok(())
}

#[test]
fn the_quick_front_and_the_plain_one_agree(rt: HostRuntime) -> Result<(), Fail> {
    let (asks, wanted) = mixed(rt.alloc(), 1)?;
    let texts = replies::<Brand>(rt.alloc(), &asks, Blank::new(1))?;
    assert_eq!(rt; texts.len(), wanted.len());
    for (text, wanted) in texts.iter().zip(wanted.iter()) {
        assert_eq!(rt; text.as_str(), wanted.as_str());
    }
    Ok(())
}
