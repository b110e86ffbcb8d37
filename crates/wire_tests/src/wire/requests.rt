// Whole requests: valid and hostile, in pieces of each length.
use super::sources::{CURL_POST, CURL_PUT, CURL_PUT_HEAD, failing, requests_of, source};
use http_wire::WireError::{self, BadHead, BadLength, BodyTooLong, CutBody, ReadFault};
use std::alloc::{AllocError, Global};
use std::process::Abort;

// The bytes are so many requests, whatever pieces they come in.
fn agrees(
    rt: &impl Abort,
    alloc: Global,
    bytes: &[u8],
    answer: (u64, Option<WireError>),
) -> Result<(), AllocError> {
    for piece in [1, 7, 4096, 100_000] {
        let read = requests_of(alloc, &mut source(alloc, bytes, piece)?);
        assert_eq!(rt; read.0, answer.0, "{bytes:?} in pieces of {piece}");
        assert_eq!(rt; read.1, answer.1, "{bytes:?} in pieces of {piece}");
    }
    Ok(())
}

// The same, and wherever the bytes are cut, the answer to what is left does not depend on the pieces either.
fn reads(
    rt: &impl Abort,
    alloc: Global,
    bytes: &[u8],
    count: u64,
    end: Option<WireError>,
) -> Result<(), AllocError> {
    agrees(rt, alloc, bytes, (count, end))?;
    for cut in 0..bytes.len() {
        let front = &bytes[..cut];
        let at_once = requests_of(alloc, &mut source(alloc, front, 100_000)?);
        assert!(rt; at_once.0 <= count, "{front:?}");
        agrees(rt, alloc, front, at_once)?;
    }
    Ok(())
}

// Bytes, how many requests they are, and why there is no further one.
type Requests = (&'static [u8], u64, Option<WireError>);

fn are_read(rt: &impl Abort, alloc: Global, of: &[Requests]) -> Result<(), AllocError> {
    for (bytes, count, end) in of {
        reads(rt, alloc, bytes, *count, *end)?;
    }
    Ok(())
}

const VALID: &[Requests] = &[
    (b"", 0, None),
    (b"GET / HTTP/1.1\r\n\r\n", 1, None),
    (b"GET / HTTP/1.0\n\n", 1, None),
    (
        b"\r\n\nGET / HTTP/1.1\r\n\r\nGET /b HTTP/1.1\r\n\r\n",
        2,
        None,
    ),
    (
        b"PUT / HTTP/1.1\r\nContent-Length: 3\r\n\r\nabcGET / HTTP/1.1\r\n\r\n",
        2,
        None,
    ),
    (
        b"PUT / HTTP/1.1\r\ncontent-LENGTH: 3\r\nContent-Length: 03\r\n\r\nabc",
        1,
        None,
    ),
    (
        b"PUT / HTTP/1.1\r\nContent-Length: 0000000000000000003\r\n\r\nabc",
        1,
        None,
    ),
    (b"PUT / HTTP/1.1\r\nContent-Length: 0\r\n\r\n", 1, None),
];

fn valid() -> &'static [Requests] {
    VALID
}

#[test]
fn reads_valid_requests(rt: HostRuntime) -> Result<(), AllocError> {
    are_read(&rt, rt.alloc(), valid())
}

const NO_HEADS: &[Requests] = &[
    (b"\r\n", 0, Some(BadHead { at: 0 })),
    (b"x", 0, Some(BadHead { at: 0 })),
    (b"GET / HTTP/1.1\r\n", 0, Some(BadHead { at: 0 })),
    (b"GET / HTTP/2.0\r\n\r\n", 0, Some(BadHead { at: 0 })),
    (b"GET /\x01 HTTP/1.1\r\n\r\n", 0, Some(BadHead { at: 0 })),
    (
        b"GET / HTTP/1.1\r\na b: c\r\n\r\n",
        0,
        Some(BadHead { at: 0 }),
    ),
    (b"GET / HTTP/1.1\r\n\r\n\x00", 1, Some(BadHead { at: 18 })),
];

fn no_heads() -> &'static [Requests] {
    NO_HEADS
}

#[test]
fn refuses_what_is_no_head(rt: HostRuntime) -> Result<(), AllocError> {
    are_read(&rt, rt.alloc(), no_heads())
}

const LENGTHS: &[Requests] = &[
    (
        b"PUT / HTTP/1.1\r\nContent-Length:\r\n\r\n",
        0,
        Some(BadLength { at: 0 }),
    ),
    (
        b"PUT / HTTP/1.1\r\nContent-Length: +3\r\n\r\nabc",
        0,
        Some(BadLength { at: 0 }),
    ),
    (
        b"PUT / HTTP/1.1\r\nContent-Length: 3, 3\r\n\r\nabc",
        0,
        Some(BadLength { at: 0 }),
    ),
    (
        b"PUT / HTTP/1.1\r\nContent-Length: 0x3\r\n\r\nabc",
        0,
        Some(BadLength { at: 0 }),
    ),
    (
        b"PUT / HTTP/1.1\r\nContent-Length: 00000000000000000003\r\n\r\nabc",
        0,
        Some(BadLength { at: 0 }),
    ),
    (
        b"PUT / HTTP/1.1\r\nContent-Length: 3\r\nContent-Length: 4\r\n\r\nabcd",
        0,
        Some(BadLength { at: 0 }),
    ),
    (
        b"PUT / HTTP/1.1\r\nTransfer-Encoding: chunked\r\n\r\n0\r\n\r\n",
        0,
        Some(BadLength { at: 0 }),
    ),
    (
        b"GET / HTTP/1.1\r\n\r\n\r\nPUT / HTTP/1.1\r\nContent-Length: a\r\n\r\n",
        1,
        Some(BadLength { at: 18 }),
    ),
    (
        b"GET /a? HTTP/1.1\r\n\r\nPUT / HTTP/1.1\r\nContent-Length: a\r\n\r\n",
        1,
        Some(BadLength { at: 20 }),
    ),
];

fn lengths() -> &'static [Requests] {
    LENGTHS
}

#[test]
fn refuses_bad_lengths(rt: HostRuntime) -> Result<(), AllocError> {
    are_read(&rt, rt.alloc(), lengths())
}

const BODIES: &[Requests] = &[
    (
        b"PUT / HTTP/1.1\r\nContent-Length: 16777217\r\n\r\nabc",
        0,
        Some(BodyTooLong { at: 0 }),
    ),
    (
        b"PUT / HTTP/1.1\r\nContent-Length: 9999999999999999999\r\n\r\nabc",
        0,
        Some(BodyTooLong { at: 0 }),
    ),
    (
        b"PUT / HTTP/1.1\r\nContent-Length: 16777216\r\n\r\nabc",
        0,
        Some(CutBody {
            at: 0,
            got: 3,
            wanted: 16777216,
        }),
    ),
    (
        b"GET / HTTP/1.1\r\n\r\nPUT / HTTP/1.1\r\nContent-Length: 5\r\n\r\n",
        1,
        Some(CutBody {
            at: 18,
            got: 0,
            wanted: 5,
        }),
    ),
];

fn bodies() -> &'static [Requests] {
    BODIES
}

#[test]
fn refuses_long_and_cut_bodies(rt: HostRuntime) -> Result<(), AllocError> {
    are_read(&rt, rt.alloc(), bodies())
}

const TWO: &[u8] = b"PUT / HTTP/1.1\r\nContent-Length: 3\r\n\r\nabcGET / HTTP/1.1\r\n\r\n";

// How many of these two requests stand before a cut, and why no further one does: the first has its head in 37 bytes, and 40 of its own.
fn answer_at(cut: usize) -> (u64, Option<WireError>) {
    let wanted = 3;
    match cut {
        0..=36 => (0, Some(BadHead { at: 0 })),
        37 => (
            0,
            Some(CutBody {
                at: 0,
                got: 0,
                wanted,
            }),
        ),
        38 => (
            0,
            Some(CutBody {
                at: 0,
                got: 1,
                wanted,
            }),
        ),
        39 => (
            0,
            Some(CutBody {
                at: 0,
                got: 2,
                wanted,
            }),
        ),
        40 => (1, None),
        _ => (1, Some(BadHead { at: 40 })),
    }
}

#[test]
fn a_cut_text_has_the_requests_before_the_cut(rt: HostRuntime) -> Result<(), AllocError> {
    for cut in 1..TWO.len() {
        agrees(&rt, rt.alloc(), &TWO[..cut], answer_at(cut))?;
    }
    Ok(())
}

const OF_CURL: &[Requests] = &[(CURL_PUT, 1, None), (CURL_POST, 1, None)];

fn of_curl() -> &'static [Requests] {
    OF_CURL
}

#[test]
fn reads_what_curl_sends(rt: HostRuntime) -> Result<(), AllocError> {
    are_read(&rt, rt.alloc(), of_curl())
}

#[test]
fn a_request_cut_at_any_byte_is_refused(rt: HostRuntime) -> Result<(), AllocError> {
    for cut in 1..CURL_PUT.len() {
        let end = if cut < CURL_PUT_HEAD {
            BadHead { at: 0 }
        } else {
            let got = (cut - CURL_PUT_HEAD) as u64;
            CutBody {
                at: 0,
                got,
                wanted: 8,
            }
        };
        agrees(&rt, rt.alloc(), &CURL_PUT[..cut], (0, Some(end)))?;
    }
    Ok(())
}

#[test]
fn a_read_that_fails_is_told(rt: HostRuntime) -> Result<(), AllocError> {
    // 200 bytes in pieces of 20: 10 reads, and one that finds the end.
    for read in 0..11 {
        let mut source = failing(rt.alloc(), CURL_PUT, 20, read)?;
        let end = requests_of(rt.alloc(), &mut source).1;
        assert_eq!(rt; end, Some(ReadFault), "read {read}");
    }
    Ok(())
}
