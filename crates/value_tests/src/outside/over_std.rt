// The forms over std: the trusted edge.
use super::fakes::{BreaksOff, TakesOne};
use dl_outside::{
    Clock, Failed, ReadEnd, ReaderSource, SystemClock, WriterSink, read_to_limit, write_all,
};
use std::test::Fail;

#[test]
fn a_reader_of_std_is_read_to_its_end(rt: HostRuntime) -> Result<(), Fail> {
    let mut source = ReaderSource::new(b"some bytes".as_slice());
    let read = read_to_limit(rt.alloc(), &mut source, 100);
    assert_eq!(rt;
        read.ok().ok_or("read")?.as_slice(),
        b"some bytes".as_slice()
    );
    Ok(())
}

#[test]
fn an_error_of_a_reader_is_a_fault(rt: HostRuntime) {
    let mut source = ReaderSource::new(BreaksOff { bytes: 3 });
    let read = read_to_limit(rt.alloc(), &mut source, 100);
    assert_eq!(rt; read.err(), Some(ReadEnd::Fault));
}

#[test]
fn a_writer_of_std_takes_all_or_fails(rt: HostRuntime) {
    for (room, wanted) in [(4, Ok(())), (5, Ok(())), (3, Err(Failed)), (0, Err(Failed))] {
        let mut sink = WriterSink::new(TakesOne {
            kept: Vec::new(rt.alloc()),
            room,
        });
        assert_eq!(rt; write_all(&mut sink, b"four"), wanted, "room for {room}");
    }
}

#[test]
fn the_clock_of_the_system_is_past_the_year_2020(rt: HostRuntime) {
    assert!(rt; SystemClock::new(&rt).now() > 1_577_836_800);
}
