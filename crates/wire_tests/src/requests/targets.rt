// Which targets are served.
use super::shown::asked;
use std::alloc::Global;
use std::test::Fail;

const TARGETS: &[(&str, &str)] = &[
    ("PUT /api/d/t/_stream_load", "load d t cut \t"),
    ("PUT /api/d/t/_stream_load?x=1", "load d t cut \t"),
    ("PUT /api/d/t/_stream_load?/a/b?c", "load d t cut \t"),
    ("PUT /api/d%20/t/_stream_load", "load d%20 t cut \t"),
    ("PUT /api/d?/t/_stream_load", "unknown"),
    ("put /api/d/t/_stream_load", "unknown"),
    ("POST /api/d/t/_stream_load", "unknown"),
    ("GET /api/d/t/_stream_load", "unknown"),
    ("PUT /api/d/t/_stream_load/", "unknown"),
    ("PUT /api/d/t/x/_stream_load", "unknown"),
    ("PUT api/d/t/_stream_load", "unknown"),
    ("PUT /API/d/t/_stream_load", "unknown"),
    ("PUT /api/d/t/_Stream_load", "unknown"),
    ("PUT /api//t/_stream_load", "unknown"),
    ("PUT /api/d//_stream_load", "unknown"),
    ("PUT /api/d/_stream_load", "unknown"),
    (
        "PUT /api/d/_stream_load_2pc",
        "bad end: BadHeader name=txn_id",
    ),
    (
        "PUT /api/d/t/_stream_load_2pc?x",
        "bad end: BadHeader name=txn_id",
    ),
    ("PUT /api//_stream_load_2pc", "unknown"),
    ("PUT /api//t/_stream_load_2pc", "unknown"),
    ("PUT /api/d//_stream_load_2pc", "unknown"),
    ("PUT /api/d/t/x/_stream_load_2pc", "unknown"),
    ("POST /api/d/_stream_load_2pc", "unknown"),
    ("PUT /", "unknown"),
    ("PUT ?", "unknown"),
    ("POST /api/query/internal/d", "bad statement: BadJson"),
    ("POST /api/query/internal/d?x", "bad statement: BadJson"),
    ("POST /api/query/internal/", "unknown"),
    ("PUT /api/query/internal/d", "unknown"),
];

fn targets() -> &'static [(&'static str, &'static str)] {
    TARGETS
}

fn asked_by(alloc: Global, line: &str) -> Result<Vec<u8>, Fail> {
    let mut head = Vec::from_slice(alloc, line.as_bytes())?;
    head.extend_from_slice(b" HTTP/1.1\r\n\r\n")?;
    asked(alloc, head.as_slice(), b"")
}

#[test]
fn a_target_is_served_by_its_method_and_its_parts(rt: HostRuntime) -> Result<(), Fail> {
    for (line, wanted) in targets() {
        let found = asked_by(rt.alloc(), line)?;
        assert_eq!(rt; found.as_slice(), wanted.as_bytes());
    }
    Ok(())
}
