//! The program `labelload`: runs the command that its words name, over the standard streams.
#![tactic(auto)]

ghost use Rattle.std.specs.Prelude.{◌≡◌, ◌<◌};

use dl_outside::{Clock, ReaderSource, Sink, Source, Steps, SystemClock, WriterSink};
use dl_values::NoMemory;
use service::{Exit, run};
use std::alloc::Global;
use std::marker::Brand;
use std::process::ExitCode;
use std::sync::ledger::{Blank, Ledger};
use std::{env, io};

// Runs the words with a count of steps of its own, which nobody asks for.
fn run_once<S: Source, K: Sink, C: Clock, L: Ledger>(
    alloc: Global,
    words: &[String],
    source: &mut S,
    sink: &mut K,
    clock: &mut C,
    blank: Blank,
) -> Exit
    requires name { blank.name ≡ L.name }
    requires parts { blank.parts ≡ L.parts }
    requires some { 0 < L.parts }
{
    let mut steps: Steps<L> = Steps::new(blank);
    run(alloc, words, source, sink, clock, &mut steps)
}

// The words behind the program's name.
fn words_of(alloc: Global, all: env::Args) -> Result<Vec<String>, NoMemory> {
    let mut words = Vec::new(alloc);
    for (i, word) in all.enumerate() {
        if i > 0 {
            words.push(word)?;
        }
    }
    Ok(words)
}

// How a run ends whose words cannot be had: a word that is no UTF-8 is of no command form.
fn exit_without_words(error: &io::Error) -> Exit {
    if error.kind() == io::ErrorKind::OutOfMemory {
        Exit::NoMemory
    } else {
        Exit::Usage
    }
}

// Runs the words over the standard streams.
fn run_words(rt: &HostRuntime, all: env::Args) -> Exit {
    let alloc = rt.alloc();
    let Ok(words) = words_of(alloc, all) else {
        return Exit::NoMemory;
    };
    let mut source = ReaderSource::new(rt.reader());
    let mut sink = WriterSink::new(io::writer(rt));
    let mut clock = SystemClock::new(rt);
    let blank = Blank::new(1);
    run_once::<_, _, _, Brand>(alloc, &words, &mut source, &mut sink, &mut clock, blank)
}

fn main(rt: HostRuntime) -> io::Result<ExitCode> {
    let exit = match env::args(&rt) {
        Ok(all) => run_words(&rt, all),
        Err(error) => exit_without_words(&error),
    };
    // Where the text itself finds no memory, the status alone says what was wrong.
    if let Ok(text) = exit.text(rt.alloc()) {
        eprint!(rt; "{text}")?;
    }
    Ok(ExitCode::from(exit.status()))
}
