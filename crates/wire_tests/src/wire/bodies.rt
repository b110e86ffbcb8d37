// Bodies, byte for byte.
use super::sources::source;
use http_wire::HttpReader;
use std::alloc::{AllocError, Global};
use std::test::Fail;

const BODY: usize = 150_000;

// A request with a body of many bytes, and another request behind it.
fn long_request(alloc: Global) -> Result<Vec<u8>, AllocError> {
    let mut bytes = b"PUT / HTTP/1.1\r\nContent-Length: 150000\r\n\r\n".to_vec(alloc)?;
    for i in 0..BODY {
        bytes.push((i % 251) as u8)?;
    }
    bytes.extend_from_slice(b"GET /next HTTP/1.1\r\n\r\n")?;
    Ok(bytes)
}

#[test]
fn a_body_is_read_byte_for_byte_and_the_next_request_stays(rt: HostRuntime) -> Result<(), Fail> {
    let alloc = rt.alloc();
    let bytes = long_request(alloc)?;
    for piece in [13, 1000, 65_536, 200_000] {
        let mut source = source(alloc, &bytes, piece)?;
        let mut reader = HttpReader::new();
        let head = reader.next_head(alloc, &mut source)?.ok_or("a head")?;
        let body = reader.read_body(alloc, &mut source, &head)?;
        assert_eq!(rt; body.len(), BODY);
        for i in 0..body.len() {
            assert_eq!(rt; body[i], (i % 251) as u8, "byte {i}");
        }
        let next = reader.next_head(alloc, &mut source)?.ok_or("a head")?;
        assert_eq!(rt; next.target.as_str(), "/next");
        assert_eq!(rt; next.at, 150_042);
    }
    Ok(())
}
