// The statements that are served, and the bodies that hold them.
use super::shown::asked;
use dl_values::NoMemory;
use std::alloc::Global;
use std::process::Abort;
use std::test::Fail;

const TABLE: &[&str] = &[
    "CREATE",
    "TABLE",
    "t",
    "(",
    "k",
    "INT",
    ",",
    "v",
    "BIGINT",
    ")",
    "DUPLICATE",
    "KEY",
    "(",
    "k",
    ")",
    "DISTRIBUTED",
    "BY",
    "HASH",
    "(",
    "k",
    ")",
    "BUCKETS",
    "1",
];

fn sent(alloc: Global, body: &[u8]) -> Result<Vec<u8>, Fail> {
    asked(alloc, b"POST /api/query/internal/d HTTP/1.1\r\n\r\n", body)
}

// What a text asks for; it has no quote and no backslash.
fn stated(alloc: Global, text: &[u8]) -> Result<Vec<u8>, Fail> {
    let mut body = Vec::from_slice(alloc, b"{\"stmt\":\"")?;
    body.extend_from_slice(text)?;
    body.extend_from_slice(b"\"}")?;
    sent(alloc, body.as_slice())
}

// A body or a text of one, and what it asks for.
type Asked = (&'static str, &'static str);

const BODIES: &[Asked] = &[
    (r#"{"stmt":"SELECT * FROM t"}"#, "select d t"),
    (r#"{"a":[1],"stmt":"SELECT\n*\tFROM\r\nt ;"}"#, "select d t"),
    (
        r#"{"stmt":"SELECT * FROM t","stmt":"SELECT * FROM u"}"#,
        "select d u",
    ),
    (r#"{"stmt":1}"#, "bad statement: BadJson"),
    (r#"{"sql":"SELECT * FROM t"}"#, "bad statement: BadJson"),
    (r#"["stmt"]"#, "bad statement: BadJson"),
    ("SELECT * FROM t", "bad statement: BadJson"),
    ("", "bad statement: BadJson"),
    (r#"{"stmt":""}"#, "bad statement: Unsupported name=stmt"),
];

fn bodies() -> &'static [Asked] {
    BODIES
}

#[test]
fn a_body_is_a_json_object_with_a_statement(rt: HostRuntime) -> Result<(), Fail> {
    for (body, wanted) in bodies() {
        let found = sent(rt.alloc(), body.as_bytes())?;
        assert_eq!(rt; found.as_slice(), wanted.as_bytes());
    }
    Ok(())
}

const STATEMENTS: &[Asked] = &[
    ("CREATE DATABASE d1", "database d1"),
    ("create DataBase _x ;", "database _x"),
    ("CREATE DATABASE`a b`", "database a b"),
    ("CREATE DATABASE `select`", "database select"),
    ("CREATE DATABASE int", "database int"),
    ("SELECT*FROM t;", "select d t"),
    ("select * from `t`  ", "select d t"),
    (
        "CREATE TABLE t (k INT, v BIGINT) DUPLICATE KEY(k) DISTRIBUTED BY HASH(k) BUCKETS 1",
        "table d t k INT v BIGINT key k hash k buckets 1",
    ),
    (
        "create table t(`k 1`int)duplicate key(`k 1`)distributed by hash(`k 1`,b)buckets 001;",
        "table d t k 1 INT key k 1 hash k 1 b buckets 1",
    ),
    (
        "CREATE TABLE t (k INT, v BIGINT) DUPLICATE KEY(v, k) DISTRIBUTED BY HASH(v, k) BUCKETS 1",
        "table d t k INT v BIGINT key v k hash v k buckets 1",
    ),
    (
        "CREATE TABLE t (k INT) DUPLICATE KEY(k) DISTRIBUTED BY HASH(k) BUCKETS 0",
        "table d t k INT key k hash k buckets 0",
    ),
    (
        "CREATE TABLE t (k INT) DUPLICATE KEY(k) DISTRIBUTED BY HASH(k) BUCKETS 9999999999999999999",
        "table d t k INT key k hash k buckets 9999999999999999999",
    ),
    (
        "CREATE TABLE t (k INT, v BIGINT) DUPLICATE KEY(k) DISTRIBUTED BY HASH(k) BUCKETS1",
        "bad statement: Unsupported name=stmt",
    ),
    (
        "CREATE TABLE t (k INT) DUPLICATE KEY(k) DISTRIBUTED BY HASH(k) BUCKETS -1",
        "bad statement: Unsupported name=stmt",
    ),
    ("CREATE DATABASE 1d", "bad statement: Unsupported name=stmt"),
    ("CREATE DATABASE ``", "bad statement: Unsupported name=stmt"),
    ("CREATE DATABASE `d", "bad statement: Unsupported name=stmt"),
    (
        "CREATE DATABASE 'd'",
        "bad statement: Unsupported name=stmt",
    ),
];

fn statements() -> &'static [Asked] {
    STATEMENTS
}

fn are_stated(rt: &impl Abort, alloc: Global, of: &[Asked]) -> Result<(), Fail> {
    for (text, wanted) in of {
        let found = stated(alloc, text.as_bytes())?;
        assert_eq!(rt; found.as_slice(), wanted.as_bytes());
    }
    Ok(())
}

#[test]
fn a_statement_is_read_by_its_tokens(rt: HostRuntime) -> Result<(), Fail> {
    are_stated(&rt, rt.alloc(), statements())
}

const REFUSED: &str = "bad statement: Unsupported name=stmt";

const OTHERS: &[Asked] = &[
    (" ", REFUSED),
    (";", REFUSED),
    ("SELECT * FROM t;;", REFUSED),
    ("SELECT * FROM t; SELECT * FROM t", REFUSED),
    ("SELECT * FROM t LIMIT 1", REFUSED),
    ("SELECT * FROM", REFUSED),
    ("SELECT FROM t", REFUSED),
    ("SELECT k FROM t", REFUSED),
    ("* FROM t", REFUSED),
    ("SELECT `*` FROM t", REFUSED),
    ("SELECT * `FROM` t", REFUSED),
    ("CREATE DATABASE", REFUSED),
    ("CREATE DATABASE d d", REFUSED),
    ("CREATE DATABASE table", REFUSED),
    ("CREATE DATABASE Select", REFUSED),
    ("CREATE DATABASE IF NOT EXISTS d", REFUSED),
    ("DROP TABLE t", REFUSED),
    (
        "CREATE TABLE t () DUPLICATE KEY(k) DISTRIBUTED BY HASH(k) BUCKETS 1",
        REFUSED,
    ),
    (
        "CREATE TABLE t (k INT,) DUPLICATE KEY(k) DISTRIBUTED BY HASH(k) BUCKETS 1",
        REFUSED,
    ),
    (
        "CREATE TABLE t (k DATE) DUPLICATE KEY(k) DISTRIBUTED BY HASH(k) BUCKETS 1",
        REFUSED,
    ),
    (
        "CREATE TABLE t (k INT) DUPLICATE KEY(k) DISTRIBUTED BY HASH(k) BUCKETS 12345678901234567890",
        REFUSED,
    ),
    (
        "CREATE TABLE t (k INT NOT NULL) DUPLICATE KEY(k) DISTRIBUTED BY HASH(k) BUCKETS 1",
        REFUSED,
    ),
];

fn others() -> &'static [Asked] {
    OTHERS
}

#[test]
fn other_texts_are_no_statement(rt: HostRuntime) -> Result<(), Fail> {
    are_stated(&rt, rt.alloc(), others())
}

// The words of the table, but for one of them.
fn without(alloc: Global, left_out: usize) -> Result<Vec<u8>, NoMemory> {
    let mut text = Vec::new(alloc);
    for (place, word) in TABLE.iter().enumerate() {
        if place != left_out {
            text.extend_from_slice(word.as_bytes())?;
            text.push(b' ')?;
        }
    }
    Ok(text)
}

fn stated_without(alloc: Global, left_out: usize) -> Result<Vec<u8>, Fail> {
    let text = without(alloc, left_out)?;
    stated(alloc, text.as_slice())
}

#[test]
fn a_table_without_one_of_its_words_is_no_statement(rt: HostRuntime) -> Result<(), Fail> {
    for left_out in 0..TABLE.len() + 1 {
        let found = stated_without(rt.alloc(), left_out)?;
        let wanted: &str = if left_out < TABLE.len() {
            "bad statement: Unsupported name=stmt"
        } else {
            "table d t k INT v BIGINT key k hash k buckets 1"
        };
        assert_eq!(rt; found.as_slice(), wanted.as_bytes());
    }
    Ok(())
}
