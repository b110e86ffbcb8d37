// The forms in memory, and reading and writing whole.
ghost use Rattle.std.specs.Prelude.{◌≡◌, ◌<◌};

use dl_outside::{
    Clock, Failed, ListClock, MemorySink, MemorySource, ReadEnd, Source, Steps, read_to_limit,
    write_all,
};
use std::alloc::{AllocError, Global};
use std::marker::Brand;
use std::sync::ledger::{Blank, Ledger};
use std::test::Fail;

const TEXT: &[u8] = b"one\ttwo\n";

// A source of the text in pieces of a length, which fails at one read.
fn source(alloc: Global, piece: usize, fails: &[u64]) -> Result<MemorySource, AllocError> {
    let bytes = TEXT.to_vec(alloc)?;
    Ok(MemorySource::new(bytes, piece.max(1), fails.to_vec(alloc)?))
}

// Whether the text is read whole, and the source is then at its end.
fn is_read(alloc: Global, piece: usize) -> Result<bool, AllocError> {
    let mut source = source(alloc, piece, &[])?;
    let read = read_to_limit(alloc, &mut source, 8);
    let ended = source.read(&mut [0u8; 1]) == Ok(0);
    match &read {
        Ok(read) => Ok(ended && read.as_slice() == TEXT),
        Err(_) => Ok(false),
    }
}

#[test]
fn reads_to_the_end_in_pieces_of_any_length(rt: HostRuntime) -> Result<(), Fail> {
    for piece in [1, 3, 8, 70_000] {
        assert!(rt; is_read(rt.alloc(), piece)?, "in pieces of {piece}");
    }
    Ok(())
}

// How many bytes are read at most, at which read the source fails, and how the reading ends.
type Stop = (usize, u64, ReadEnd);

const STOPS: &[Stop] = &[
    (7, 9, ReadEnd::TooLong),
    (0, 9, ReadEnd::TooLong),
    (8, 0, ReadEnd::Fault),
    (8, 2, ReadEnd::Fault),
    (1, 1, ReadEnd::Fault),
];

fn stops() -> &'static [Stop] {
    STOPS
}

fn end_of(alloc: Global, of: &Stop) -> Result<Option<ReadEnd>, AllocError> {
    let mut source = source(alloc, 1, &[of.1])?;
    Ok(read_to_limit(alloc, &mut source, of.0).err())
}

#[test]
fn stops_at_the_limit_and_at_a_fault(rt: HostRuntime) -> Result<(), Fail> {
    for one in stops() {
        assert!(rt; end_of(rt.alloc(), one)? == Some(one.2), "limit {}", one.0);
    }
    Ok(())
}

// Whether three reads, of which the second fails, give both halves of the text.
fn goes_on(mut source: MemorySource) -> bool {
    let mut room = [0u8; 6];
    let first = source.read(&mut room) == Ok(4);
    let second = source.read(&mut room) == Err(Failed);
    let third = source.read(&mut room) == Ok(4);
    first && second && third && &room[..4] == b"two\n".as_slice()
}

#[test]
fn a_read_after_a_fault_goes_on_where_it_stood(rt: HostRuntime) -> Result<(), Fail> {
    assert!(rt; goes_on(source(rt.alloc(), 4, &[1])?));
    Ok(())
}

// Whether the second of four writes fails, and the sink keeps what the others wrote.
fn keeps_what_it_took(mut sink: MemorySink) -> bool {
    let first = write_all(&mut sink, b"ab") == Ok(());
    let second = write_all(&mut sink, b"cd") == Err(Failed);
    let third = write_all(&mut sink, b"") == Ok(());
    let fourth = write_all(&mut sink, b"ef") == Ok(());
    first && second && third && fourth && sink.bytes() == b"0abef".as_slice()
}

fn sink(alloc: Global) -> Result<MemorySink, AllocError> {
    let bytes = b"0".to_vec(alloc)?;
    Ok(MemorySink::new(bytes, [1].to_vec(alloc)?))
}

#[test]
fn a_sink_in_memory_keeps_what_it_took(rt: HostRuntime) -> Result<(), Fail> {
    assert!(rt; keeps_what_it_took(sink(rt.alloc())?));
    Ok(())
}

fn clock(alloc: Global, moments: &[u64]) -> Result<ListClock, AllocError> {
    Ok(ListClock::new(moments.to_vec(alloc)?))
}

#[test]
fn the_last_moment_of_a_list_repeats(rt: HostRuntime) -> Result<(), Fail> {
    let mut list = clock(rt.alloc(), &[5, 9])?;
    for moment in [5, 9, 9, 9] {
        assert!(rt; list.now() == moment, "{moment}");
    }
    assert!(rt; clock(rt.alloc(), &[])?.now() == 0);
    Ok(())
}

fn takes_two_steps<L: Ledger>(blank: Blank)
    requires name { blank.name ≡ L.name }
    requires parts { blank.parts ≡ L.parts }
    requires some { 0 < L.parts }
{
    let mut steps: Steps<L> = Steps::new(blank);
    steps.tick();
    steps.tick();
}

#[test]
fn steps_are_counted_for_a_picked_ledger() {
    takes_two_steps::<Brand>(Blank::new(1));
}
