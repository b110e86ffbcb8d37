// Runs of `dryrun`: words and a body, and how they end.
ghost use Rattle.std.specs.Prelude.{◌≡◌, ◌<◌};

use dl_outside::{ListClock, MemorySink, MemorySource, Steps};
use dl_values::NoMemory;
use service::{Exit, run};
use std::alloc::Global;
use std::marker::Brand;
use std::process::Abort;
use std::sync::ledger::{Blank, Ledger};
use std::test::Fail;

const FORM: &[&str] = &["dryrun", "A", "k:INT:KEY", "v:BIGINT:SUM"];

fn words_of(alloc: Global, texts: &[&str]) -> Result<Vec<String>, NoMemory> {
    let mut words = Vec::new(alloc);
    for text in texts {
        words.push(String::from_str(alloc, text)?)?;
    }
    Ok(words)
}

// How words and a body end a run, and what is written. The chosen reads and writes fail.
fn answer<L: Ledger>(
    alloc: Global,
    words: &[&str],
    body: &[u8],
    reads: &[u64],
    writes: &[u64],
    blank: Blank,
) -> Result<(Exit, Vec<u8>), NoMemory>
    requires name { blank.name ≡ L.name }
    requires parts { blank.parts ≡ L.parts }
    requires some { 0 < L.parts }
{
    let words = words_of(alloc, words)?;
    let reads = Vec::from_slice(alloc, reads)?;
    let writes = Vec::from_slice(alloc, writes)?;
    let mut source = MemorySource::new(Vec::from_slice(alloc, body)?, 3, reads);
    let mut sink = MemorySink::new(Vec::new(alloc), writes);
    let mut steps: Steps<L> = Steps::new(blank);
    let mut clock = ListClock::new(Vec::new(alloc));
    let exit = run(
        alloc,
        &words,
        &mut source,
        &mut sink,
        &mut clock,
        &mut steps,
    );
    Ok((exit, Vec::from_slice(alloc, sink.bytes())?))
}

// Runs with words over a body, and compares how it ends and what it writes.
pub fn compare(
    rt: &impl Abort,
    alloc: Global,
    words: &[&str],
    body: &[u8],
    exit: Exit,
    written: &[u8],
) -> Result<(), Fail> {
    let (end, found) = answer::<Brand>(alloc, words, body, &[], &[], Blank::new(1))?;
    assert_eq!(rt; end, exit);
    assert_eq!(rt; found.as_slice(), written);
    Ok(())
}

// A body, how the run ends, and what is written.
const BODIES: &[(&[u8], Exit, &[u8])] = &[
    (b"2\t5\n1\t7\n2\t-1\n", Exit::Ok, b"1\t7\n2\t4\n"),
    (b"", Exit::Ok, b""),
    (
        b"1\t9223372036854775807\n1\t1\n",
        Exit::Ok,
        b"1\t-9223372036854775808\n",
    ),
    (b"1\t2\n1\n", Exit::TooManyFiltered { line: 2 }, b""),
    (b"1\t2\r\n\r\n3\t4\r5\t6", Exit::Ok, b"1\t2\n3\t4\n5\t6\n"),
    (b"\xef\xbb\xbf1\t2\n", Exit::Ok, b"1\t2\n"),
    (b" 1 \t +2 \n", Exit::Ok, b"1\t2\n"),
    (b"\\N\t\\N\n\\N\t5\n0\t1\n", Exit::Ok, b"\\N\t5\n0\t1\n"),
    (b"2147483647\t1\n", Exit::Ok, b"2147483647\t1\n"),
    (
        b"\n\n2147483648\t1\n",
        Exit::TooManyFiltered { line: 1 },
        b"",
    ),
    (
        b"1\t9223372036854775808\n",
        Exit::TooManyFiltered { line: 1 },
        b"",
    ),
    (b"1\t+\n", Exit::TooManyFiltered { line: 1 }, b""),
    (b"1\t\n", Exit::TooManyFiltered { line: 1 }, b""),
    (b"\"1\"\t2\n", Exit::TooManyFiltered { line: 1 }, b""),
    (b"1,2\n", Exit::TooManyFiltered { line: 1 }, b""),
];

// Words, and how a run with them ends over no body.
const WORDS: &[(&[&str], Exit)] = &[
    (&[], Exit::Usage),
    (&["dryrun"], Exit::Usage),
    (&["dryrun", "A"], Exit::Usage),
    (&["dryrun", "a", "k:INT:KEY"], Exit::Usage),
    (&["dryrun", "d", "k:INT:KEY"], Exit::Usage),
    (&["dryrun", "D", "k:INT:KEY"], Exit::Ok),
    (&["Dryrun", "A", "k:INT:KEY"], Exit::Usage),
    (&["run"], Exit::Ok),
    (&["run", "journal.db"], Exit::Usage),
    (&["dryrun", "A", "k:INT:KEY", "help"], Exit::Usage),
    (&["dryrun", "A", "k:INT:KEY", "--"], Exit::Usage),
    (&["-v", "dryrun", "A", "k:INT:KEY"], Exit::Usage),
    (&["dryrun", "A", "k:INT:KEY"], Exit::Ok),
    (&["dryrun", "A", "v:BIGINT:SUM"], Exit::BadDef { word: 3 }),
    (
        &["dryrun", "A", "k:INT:KEY", "k:INT:SUM"],
        Exit::BadDef { word: 4 },
    ),
    (
        &["dryrun", "A", "k:INT:KEY", "v:INT:SUM"],
        Exit::BadDef { word: 4 },
    ),
    (
        &["dryrun", "A", "k:INT:KEY", "v:BIGINT:SUM", "l:INT:KEY", ""],
        Exit::BadDef { word: 5 },
    ),
    (
        &["dryrun", "A", "k:INT:KEY", "x", "k:INT:KEY"],
        Exit::BadDef { word: 4 },
    ),
    (&["dryrun", "A", "1k:INT:KEY"], Exit::BadDef { word: 3 }),
    (&["dryrun", "A", "k:INT:KEY:"], Exit::BadDef { word: 3 }),
];

// An exit, its status and its text.
const EXITS: &[(Exit, u8, &str)] = &[
    (Exit::Ok, 0, ""),
    (Exit::ReadFault, 3, "labelload: ReadFault\n"),
    (Exit::WriteFault, 4, "labelload: WriteFault\n"),
    (Exit::NoMemory, 8, "labelload: NoMemory\n"),
    (Exit::BadDef { word: 4 }, 9, "labelload: BadDef word=4\n"),
    (
        Exit::TooManyFiltered { line: 2 },
        10,
        "labelload: TooManyFiltered line=2\n",
    ),
    (
        Exit::TooBig { limit: 16_777_216 },
        12,
        "labelload: TooBig limit=16777216\n",
    ),
];

fn bodies() -> &'static [(&'static [u8], Exit, &'static [u8])] {
    BODIES
}

fn words() -> &'static [(&'static [&'static str], Exit)] {
    WORDS
}

fn exits() -> &'static [(Exit, u8, &'static str)] {
    EXITS
}

#[test]
fn bodies_are_folded_or_refused(rt: HostRuntime) -> Result<(), Fail> {
    for (body, exit, written) in bodies() {
        compare(&rt, rt.alloc(), FORM, body, *exit, written)?;
    }
    Ok(())
}

#[test]
fn words_are_judged_in_order(rt: HostRuntime) -> Result<(), Fail> {
    for (words, exit) in words() {
        compare(&rt, rt.alloc(), words, b"", *exit, b"")?;
    }
    Ok(())
}

// How a run ends of which chosen reads and writes fail, and how many bytes it writes.
fn ends_with_faults(
    alloc: Global,
    reads: &[u64],
    writes: &[u64],
) -> Result<(Exit, usize), NoMemory> {
    let body = b"2\t5\n1\t7\n2\t-1\n";
    let (exit, written) = answer::<Brand>(alloc, FORM, body, reads, writes, Blank::new(1))?;
    Ok((exit, written.len()))
}

#[test]
fn a_fault_in_mid_stream_ends_the_run(rt: HostRuntime) -> Result<(), Fail> {
    let alloc = rt.alloc();
    assert_eq!(rt; ends_with_faults(alloc, &[2], &[])?, (Exit::ReadFault, 0));
    assert_eq!(rt; ends_with_faults(alloc, &[], &[0])?, (Exit::WriteFault, 0));
    assert_eq!(rt; ends_with_faults(alloc, &[99], &[99])?, (Exit::Ok, 8));
    Ok(())
}

#[test]
fn the_column_behind_sixty_four_is_at_fault(rt: HostRuntime) -> Result<(), Fail> {
    let alloc = rt.alloc();
    let names = "abcdefghijklmnopqrstuvwxyzABCDEFGHIJKLMNOPQRSTUVWXYZ_";
    let mut texts: Vec<String> = Vec::new(alloc);
    for name in names.chars() {
        texts.push(format!(in alloc; "{name}:INT:KEY")?)?;
    }
    for number in 0..12 {
        texts.push(format!(in alloc; "c{number}:INT:KEY")?)?;
    }
    assert_eq!(rt; texts.len(), 65);
    let mut words: Vec<&str> = Vec::new(alloc);
    words.push("dryrun")?;
    words.push("A")?;
    for text in &texts {
        words.push(text.as_str())?;
    }
    compare(&rt, alloc, &words, b"", Exit::BadDef { word: 67 }, b"")?;
    let _last = words.pop();
    compare(&rt, alloc, &words, b"", Exit::Ok, b"")?;
    Ok(())
}

#[test]
fn exits_say_what_was_wrong(rt: HostRuntime) -> Result<(), Fail> {
    for (exit, status, text) in exits() {
        let said = exit.text(rt.alloc())?;
        assert_eq!(rt; said.as_str(), *text);
        assert_eq!(rt; exit.status(), *status);
    }
    assert_eq!(rt; Exit::Usage.status(), 2);
    Ok(())
}
