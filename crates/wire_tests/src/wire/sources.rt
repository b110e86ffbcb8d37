// Sources for the tests, and reading all requests of one.
use dl_outside::{MemorySource, Source};
use http_wire::{HttpReader, WireError};
use std::alloc::{AllocError, Global};

/// What curl 7.88.1 sent for `curl -u root: -H label:load-1 -H Expect:100-continue -T rows.tsv URL`, captured as bytes.
pub const CURL_PUT: &[u8] =
    b"PUT /api/shop/clicks/_stream_load HTTP/1.1\r\nHost: 127.0.0.1:18030\r\nAuthorization: Basic cm9vdDo=\r\nUser-Agent: curl/7.88.1\r\nAccept: */*\r\nlabel:load-1\r\nExpect:100-continue\r\nContent-Length: 8\r\n\r\n1\t5\n2\t7\n";

/// How many of these bytes are the head.
pub const CURL_PUT_HEAD: usize = 192;

/// What it sent for `curl -X POST -H 'Content-Type: application/json' -d '{"stmt":"SHOW TABLES"}' URL`.
pub const CURL_POST: &[u8] =
    b"POST /api/query/internal/shop HTTP/1.1\r\nHost: 127.0.0.1:18030\r\nUser-Agent: curl/7.88.1\r\nAccept: */*\r\nContent-Type: application/json\r\nContent-Length: 22\r\n\r\n{\"stmt\":\"SHOW TABLES\"}";

/// A source of these bytes, in pieces of this length.
pub fn source(alloc: Global, bytes: &[u8], piece: usize) -> Result<MemorySource, AllocError> {
    let bytes = bytes.to_vec(alloc)?;
    Ok(MemorySource::new(bytes, piece.max(1), Vec::new(alloc)))
}

/// The same, where the read with this number, counted from 0, fails.
pub fn failing(
    alloc: Global,
    bytes: &[u8],
    piece: usize,
    read: u64,
) -> Result<MemorySource, AllocError> {
    let bytes = bytes.to_vec(alloc)?;
    let fails = [read].to_vec(alloc)?;
    Ok(MemorySource::new(bytes, piece.max(1), fails))
}

/// How many whole requests the source has, and why no further one was read.
pub fn requests_of<S: Source>(alloc: Global, source: &mut S) -> (u64, Option<WireError>) {
    let mut reader = HttpReader::new();
    for count in 0..u64::MAX {
        match read_request(&mut reader, alloc, source) {
            Ok(true) => {}
            Ok(false) => return (count, None),
            Err(error) => return (count, Some(error)),
        }
    }
    (u64::MAX, None)
}

fn read_request<S: Source>(
    reader: &mut HttpReader,
    alloc: Global,
    source: &mut S,
) -> Result<bool, WireError> {
    match reader.next_head(alloc, source)? {
        Some(head) => {
            reader.read_body(alloc, source, &head)?;
            Ok(true)
        }
        None => Ok(false),
    }
}
