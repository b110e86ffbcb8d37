// Input that is cut at each byte, and sinks that fail at each write.
use super::replies::{Told, ran};
use super::texts::{BAD_HEAD, CONTINUE, CUT_BODY, GET, LOAD, LOADED, NOT_FOUND};
use load_server::SessionEnd;
use std::test::Fail;

const LOADED_AT_ONCE: &[Told] = &[Told::Begun(1), Told::Submitted(1, 0), Told::Published(1, 1)];

#[test]
fn a_request_that_is_cut_at_a_byte_is_refused_and_begins_nothing(
    rt: HostRuntime,
) -> Result<(), Fail> {
    let alloc = rt.alloc();
    let head = LOAD.len().saturating_sub(12);
    for length in 1..LOAD.len() {
        let run = ran(alloc, &LOAD[..length], LOADED_AT_ONCE, &[])?;
        assert_eq!(rt; run.end, SessionEnd::Refused { at: 0 });
        assert_eq!(rt; run.asked.len(), 0);
        let mut wanted = Vec::new(alloc);
        if length < head {
            wanted.extend_from_slice(BAD_HEAD)?;
        } else {
            wanted.extend_from_slice(CONTINUE)?;
            wanted.extend_from_slice(CUT_BODY)?;
        }
        assert_eq!(rt; run.written.as_slice(), wanted.as_slice());
    }
    Ok(())
}

#[test]
fn a_sink_that_fails_ends_the_session_with_a_front_of_the_texts(
    rt: HostRuntime,
) -> Result<(), Fail> {
    let alloc = rt.alloc();
    let mut input = Vec::from_slice(alloc, GET)?;
    input.extend_from_slice(LOAD)?;
    let mut all = Vec::from_slice(alloc, NOT_FOUND)?;
    all.extend_from_slice(CONTINUE)?;
    all.extend_from_slice(LOADED)?;
    for write in 0..5u64 {
        let run = ran(alloc, input.as_slice(), LOADED_AT_ONCE, &[write])?;
        assert_eq!(rt; run.end, SessionEnd::WriteFault);
        let length = run.written.len();
        assert!(rt; length < all.len());
        assert_eq!(rt; run.written.as_slice(), &all[..length]);
    }
    let run = ran(alloc, input.as_slice(), LOADED_AT_ONCE, &[5])?;
    assert_eq!(rt; run.end, SessionEnd::Done);
    assert_eq!(rt; run.written.as_slice(), all.as_slice());
    Ok(())
}
