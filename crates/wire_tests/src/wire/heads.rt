// The parts of a head, and its limits.
use super::sources::{CURL_PUT, requests_of, source};
use http_wire::{BodyLength, Head, HttpReader, MAX_FIELDS, MAX_HEAD, WireError};
use std::alloc::{AllocError, Global};
use std::test::Fail;

fn head_of(alloc: Global, bytes: &[u8]) -> Result<Option<Head>, WireError> {
    let Ok(mut source) = source(alloc, bytes, 50) else {
        return Err(WireError::NoMemory);
    };
    HttpReader::new().next_head(alloc, &mut source)
}

// Whether a head is what curl sends before a body of 8 bytes.
fn is_of_curl(head: &Head) -> bool {
    head.method.as_str() == "PUT"
        && head.target.as_bytes() == b"/api/shop/clicks/_stream_load".as_slice()
        && head.minor == 1
        && head.at == 0
        && head.body == BodyLength::Fixed(8)
}

fn has_fields_of_curl(head: &Head) -> bool {
    if head.fields.len() != 7 || head.fields.is_empty() {
        return false;
    }
    let (name, value) = head.fields.get(4);
    name == b"label".as_slice()
        && value == b"load-1".as_slice()
        && head.fields.has(b"AUTHORIZATION", b"basic cm9vdDo=")
}

#[test]
fn hands_out_the_parts_of_a_head(rt: HostRuntime) -> Result<(), Fail> {
    let head = head_of(rt.alloc(), CURL_PUT)?.ok_or("a head")?;
    assert!(rt; is_of_curl(&head));
    assert!(rt; has_fields_of_curl(&head));
    Ok(())
}

// Whether a head is one that expects an interim response, and whether it closes the connection.
fn asks(alloc: Global, bytes: &[u8]) -> Result<Option<(bool, bool)>, WireError> {
    match &head_of(alloc, bytes)? {
        Some(head) => Ok(Some((head.expects_continue(), head.closes()))),
        None => Ok(None),
    }
}

// A head, whether it expects an interim response, and whether it closes the connection.
type Asking = (&'static [u8], bool, bool);

const ASKING: &[Asking] = &[
    (CURL_PUT, true, false),
    (
        b"PUT / HTTP/1.0\r\nExpect: 100-continue\r\nContent-Length: 1\r\n\r\n",
        false,
        true,
    ),
    (
        b"PUT / HTTP/1.1\r\nconnection: Close\r\nExpect: 100-continue\r\n\r\n",
        false,
        true,
    ),
];

fn asking() -> &'static [Asking] {
    ASKING
}

#[test]
fn tells_what_a_head_asks_of_the_connection(rt: HostRuntime) -> Result<(), Fail> {
    for (bytes, expects, closes) in asking() {
        assert!(rt; asks(rt.alloc(), bytes)? == Some((*expects, *closes)));
    }
    Ok(())
}

// A head with so many fields.
fn head_with(alloc: Global, fields: usize) -> Result<Vec<u8>, AllocError> {
    let mut bytes = b"GET / HTTP/1.1\r\n".to_vec(alloc)?;
    for _ in 0..fields {
        bytes.extend_from_slice(b"a: b\r\n")?;
    }
    bytes.extend_from_slice(b"\r\n")?;
    Ok(bytes)
}

// A head of so many bytes.
fn head_of_length(alloc: Global, length: usize) -> Result<Vec<u8>, AllocError> {
    let mut bytes = b"GET / HTTP/1.1\r\na: ".to_vec(alloc)?;
    let filled = length.saturating_sub(bytes.len()).saturating_sub(4);
    for _ in 0..filled {
        bytes.push(b'x')?;
    }
    bytes.extend_from_slice(b"\r\n\r\n")?;
    Ok(bytes)
}

// Why no further request was read of these bytes.
fn end_of(alloc: Global, bytes: &[u8], piece: usize) -> Result<Option<WireError>, AllocError> {
    let mut source = source(alloc, bytes, piece)?;
    Ok(requests_of(alloc, &mut source).1)
}

// Why no further request was read of so many fields more than a head may have, and of so many bytes more.
fn end_of_many(alloc: Global, more: usize, piece: usize) -> Result<Option<WireError>, AllocError> {
    let bytes = head_with(alloc, MAX_FIELDS.saturating_add(more))?;
    end_of(alloc, &bytes, piece)
}

fn end_of_long(alloc: Global, more: usize, piece: usize) -> Result<Option<WireError>, AllocError> {
    let bytes = head_of_length(alloc, MAX_HEAD.saturating_add(more))?;
    if bytes.len() != MAX_HEAD.saturating_add(more) {
        return Ok(Some(WireError::CutBody {
            at: 0,
            got: 0,
            wanted: 0,
        }));
    }
    end_of(alloc, &bytes, piece)
}

#[test]
fn takes_64_fields_and_16384_bytes_and_no_more(rt: HostRuntime) -> Result<(), Fail> {
    for (more, end) in [(0, None), (1, Some(WireError::BadHead { at: 0 }))] {
        for piece in [1000, 100_000] {
            assert!(rt; end_of_many(rt.alloc(), more, piece)? == end);
            assert!(rt; end_of_long(rt.alloc(), more, piece)? == end);
        }
    }
    Ok(())
}
