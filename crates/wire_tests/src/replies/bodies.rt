// Bodies that hold a statement, and bodies that hold none.
use reply_json::{BodyError, read_stmt_body};
use std::alloc::Global;
use std::test::Fail;

const STATEMENTS: &[(&[u8], &str)] = &[
    (br#"{"stmt":"SHOW TABLES"}"#, "SHOW TABLES"),
    (b" {\n\"stmt\" : \"\" }\r\n\t", ""),
    (br#"{"a":[1,{"stmt":2}],"stmt":"x","z":null}"#, "x"),
    (br#"{"stmt":1,"stmt":"the last"}"#, "the last"),
    (br#"{"\u0073tmt":"\u0000\"\\\n\ud83d\ude00"}"#, "\0\"\\\n😀"),
    (b"{\"stmt\":\"\xc3\xa9\"}", "é"),
];

fn statements() -> &'static [(&'static [u8], &'static str)] {
    STATEMENTS
}

fn holds(alloc: Global, body: &[u8], wanted: &str) -> bool {
    match &read_stmt_body(alloc, body) {
        Ok(stmt) => stmt.as_str() == wanted,
        Err(_) => false,
    }
}

#[test]
fn statements_are_read(rt: HostRuntime) {
    for (body, wanted) in statements() {
        assert!(rt; holds(rt.alloc(), body, wanted));
    }
}

const OTHERS: &[&[u8]] = &[
    b"",
    b" ",
    b"null",
    b"\"stmt\"",
    br#"["stmt","x"]"#,
    br#"[{"stmt":"x"}]"#,
    b"{}",
    br#"{"Stmt":"x"}"#,
    br#"{"stmt":7}"#,
    br#"{"stmt":null}"#,
    br#"{"stmt":["x"]}"#,
    br#"{"stmt":"x","stmt":7}"#,
    br#"{"stmt":"x"}}"#,
    br#"{"stmt":"x",}"#,
    br#"{"stmt":"x""#,
    br#"{"stmt":"\ud800"}"#,
    b"{\"stmt\":\"\n\"}",
    b"{\"stmt\":\"\xff\"}",
    b"\xef\xbb\xbf{\"stmt\":\"x\"}",
    br#"{"stmt":"x","n":1e999}"#,
];

fn others() -> &'static [&'static [u8]] {
    OTHERS
}

fn is_bad(alloc: Global, body: &[u8]) -> bool {
    matches!(&read_stmt_body(alloc, body), Err(BodyError::BadJson))
}

#[test]
fn other_bodies_are_refused(rt: HostRuntime) {
    for body in others() {
        assert!(rt; is_bad(rt.alloc(), body));
    }
}

// A body with a list that nests this deep, in its object.
fn nested(alloc: Global, depth: usize) -> Result<Vec<u8>, Fail> {
    let mut body = Vec::from_slice(alloc, br#"{"stmt":"x","n":"#)?;
    for _ in 0..depth {
        body.push(b'[')?;
    }
    for _ in 0..depth {
        body.push(b']')?;
    }
    body.push(b'}')?;
    Ok(body)
}

// Whether a body with a list that nests this deep has a statement, and is refused where it has none.
fn is_nested(alloc: Global, depth: usize, taken: bool) -> Result<bool, Fail> {
    let body = nested(alloc, depth)?;
    match taken {
        true => Ok(holds(alloc, body.as_slice(), "x")),
        false => Ok(is_bad(alloc, body.as_slice())),
    }
}

#[test]
fn values_nest_at_most_127_deep(rt: HostRuntime) -> Result<(), Fail> {
    assert!(rt; is_nested(rt.alloc(), 126, true)?);
    assert!(rt; is_nested(rt.alloc(), 127, false)?);
    Ok(())
}
