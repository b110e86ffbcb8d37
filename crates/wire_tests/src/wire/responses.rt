// The bytes of responses, and writes that fail.
use dl_outside::{Failed, MemorySink};
use http_wire::{write_continue, write_response};
use std::alloc::{AllocError, Global};
use std::process::Abort;
use std::test::Fail;

fn writes(
    rt: &impl Abort,
    alloc: Global,
    status: u16,
    close: bool,
    body: &[u8],
    wanted: &[u8],
) -> Result<(), AllocError> {
    let mut sink = MemorySink::new(Vec::new(alloc), Vec::new(alloc));
    assert_eq!(rt; write_response(&mut sink, status, close, body), Ok(()));
    assert_eq!(rt; sink.bytes(), wanted);
    Ok(())
}

// A status, whether the connection closes, a body, and the bytes of the response.
type Response = (u16, bool, &'static [u8], &'static [u8]);

const RESPONSES: &[Response] = &[
    (
        200,
        false,
        b"{}",
        b"HTTP/1.1 200 OK\r\nContent-Type: application/json\r\nContent-Length: 2\r\n\r\n{}",
    ),
    (
        400,
        true,
        b"{\"error\":\"CutBody\"}",
        b"HTTP/1.1 400 Bad Request\r\nContent-Type: application/json\r\nContent-Length: 19\r\nConnection: close\r\n\r\n{\"error\":\"CutBody\"}",
    ),
    (
        404,
        false,
        b"",
        b"HTTP/1.1 404 Not Found\r\nContent-Type: application/json\r\nContent-Length: 0\r\n\r\n",
    ),
    (
        503,
        false,
        b"0123456789",
        b"HTTP/1.1 503 Service Unavailable\r\nContent-Type: application/json\r\nContent-Length: 10\r\n\r\n0123456789",
    ),
];

fn responses() -> &'static [Response] {
    RESPONSES
}

#[test]
fn writes_the_bytes_of_a_response(rt: HostRuntime) -> Result<(), AllocError> {
    for (status, close, body, wanted) in responses() {
        writes(&rt, rt.alloc(), *status, *close, body, wanted)?;
    }
    Ok(())
}

// What stands in the sink where the write with this number, counted from 0, fails.
fn written_until(alloc: Global, fails: u64) -> Result<MemorySink, AllocError> {
    let mut sink = MemorySink::new(Vec::new(alloc), [fails].to_vec(alloc)?);
    let _ = write_response(&mut sink, 200, false, b"{}");
    Ok(sink)
}

const HEAD: &[u8] =
    b"HTTP/1.1 200 OK\r\nContent-Type: application/json\r\nContent-Length: 2\r\n\r\n";

// Whether all that is written until then are these bytes, and so many others.
fn is_written(alloc: Global, fails: u64, front: &[u8], more: usize) -> Result<bool, AllocError> {
    let sink = written_until(alloc, fails)?;
    match sink.bytes().strip_prefix(front) {
        Some(rest) => Ok(rest.len() == more),
        None => Ok(false),
    }
}

#[test]
fn writes_the_head_at_once_and_the_body_at_once(rt: HostRuntime) -> Result<(), Fail> {
    assert!(rt; is_written(rt.alloc(), 0, b"", 0)?);
    assert!(rt; is_written(rt.alloc(), 1, HEAD, 0)?);
    assert!(rt; is_written(rt.alloc(), 2, HEAD, 2)?);
    Ok(())
}

#[test]
fn writes_the_interim_response(rt: HostRuntime) -> Result<(), Fail> {
    let mut sink = MemorySink::new(Vec::new(rt.alloc()), [1].to_vec(rt.alloc())?);
    assert_eq!(rt; write_continue(&mut sink), Ok(()));
    assert_eq!(rt; write_continue(&mut sink), Err(Failed));
    assert_eq!(rt; sink.bytes(), b"HTTP/1.1 100 Continue\r\n\r\n".as_slice());
    Ok(())
}
