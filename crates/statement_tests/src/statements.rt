// Statements and faults as tables.
mod parts;

use sql_text::{SqlError, SqlKind, parse_stmt};
use sql_tokens::tokens;
use std::alloc::Global;
use std::test::Fail;

// One of each alternative, with its optional parts and without.
const STATEMENTS: &[&str] = &[
    "CREATE DATABASE d",
    "create Database If Not Exists `d`;",
    "CREATE TABLE t (k INT) DISTRIBUTED BY HASH(k)",
    "CREATE TABLE IF NOT EXISTS t (k INT) DISTRIBUTED BY HASH(k);",
    "CREATE TABLE t (a TINYINT, b SMALLINT, c INT, d BIGINT, e DATE, f VARCHAR(16)) DISTRIBUTED BY HASH(a, b) BUCKETS 4",
    "CREATE TABLE t (k INT NOT NULL, v BIGINT SUM NULL DEFAULT 0 COMMENT 'v') AGGREGATE KEY(k) DISTRIBUTED BY HASH(k)",
    "CREATE TABLE t (k INT, a INT MIN, b INT MAX, c INT REPLACE, d INT REPLACE_IF_NOT_NULL) AGGREGATE KEY(k) DISTRIBUTED BY HASH(k)",
    "CREATE TABLE t (k INT DEFAULT NULL, d DATE DEFAULT '2024-01-01') DUPLICATE KEY(k, d) DISTRIBUTED BY HASH(k)",
    "CREATE TABLE t (k INT DEFAULT -1) ENGINE = olap UNIQUE KEY(k) COMMENT \"t\" DISTRIBUTED BY HASH(k) BUCKETS 1 PROPERTIES ('a' = 'b')",
    "CREATE TABLE t (k INT COMMENT '') COMMENT 'x' DISTRIBUTED BY HASH(k) PROPERTIES (\"a\" = \"b\", 'c' = '')",
    "CREATE TABLE t (k INT) PARTITION BY RANGE(k) (PARTITION p VALUES LESS THAN MAXVALUE) DISTRIBUTED BY HASH(k)",
    "CREATE TABLE t (k INT) PARTITION BY RANGE(k) (PARTITION p VALUES LESS THAN (5), PARTITION q VALUES LESS THAN (MAXVALUE)) DISTRIBUTED BY HASH(k)",
    "CREATE TABLE t (k DATE) PARTITION BY RANGE(k) (PARTITION p VALUES [('2024-01-01'), ('2024-02-01'))) DISTRIBUTED BY HASH(k)",
    "DROP TABLE t",
    "DROP TABLE IF EXISTS t;",
    "ALTER TABLE t ADD PARTITION p VALUES LESS THAN (-5)",
    "ALTER TABLE t ADD PARTITION p VALUES [(1), (2))",
    "ALTER TABLE t ADD ROLLUP r (k)",
    "ALTER TABLE t ADD ROLLUP `r` (k, v)",
    "ALTER TABLE t ADD COLUMN c INT",
    "ALTER TABLE t ADD COLUMN c INT KEY NOT NULL DEFAULT 1 COMMENT 'c' FIRST",
    "ALTER TABLE t ADD COLUMN c BIGINT SUM DEFAULT NULL AFTER v, ADD COLUMN d INT KEY SUM NULL",
    "ALTER TABLE t DROP COLUMN c",
    "ALTER TABLE t DROP COLUMN c, ADD COLUMN d DATE, MODIFY COLUMN e VARCHAR(9) KEY, ORDER BY (a, b)",
    "ALTER TABLE t MODIFY COLUMN c BIGINT MAX NOT NULL",
    "ALTER TABLE t ORDER BY (a)",
    "CANCEL ALTER TABLE COLUMN FROM t",
    "CANCEL ALTER TABLE ROLLUP FROM t",
    "SHOW TABLES",
    "SHOW PARTITIONS FROM t",
    "DESC t ALL",
    "desc all all;",
    "SHOW ALTER TABLE COLUMN",
    "SHOW ALTER TABLE ROLLUP",
    "SHOW TRANSACTION WHERE ID = 5",
    "SHOW TRANSACTION WHERE LABEL = 'l'",
    "SELECT * FROM t",
    "SELECT k FROM t",
    "SELECT k, SUM(v), min(v), Max(v), COUNT(v), COUNT(*) FROM t",
    "SELECT sum, min, max, count FROM t",
    "SELECT `sum`, `FROM` FROM `t`",
    "SELECT k FROM t WHERE k = 1",
    "SELECT k FROM t WHERE a = 1 AND b <> 'x' AND c != -2 AND d < 3 AND e <= 4 AND f > 5 AND g >= 6",
    "SELECT k FROM t WHERE a IS NULL AND b IS NOT NULL",
    "SELECT k, SUM(v) FROM t GROUP BY k",
    "SELECT k, SUM(v) FROM t GROUP BY k, l",
    "SELECT k FROM t ORDER BY k",
    "SELECT k FROM t ORDER BY k ASC, SUM(v) DESC, COUNT(*), 2, -1 DESC, count ASC",
    "SELECT k FROM t LIMIT 5",
    "SELECT * FROM t WHERE k = '' GROUP BY k ORDER BY 1 LIMIT 0;",
    "ADMIN PUBLISH",
    "ADMIN ADVANCE",
    "ADMIN CONVERT",
    "ADMIN SWEEP",
    "ADMIN COMPACT",
    "ADMIN CHECKPOINT",
    "ADMIN RESTART",
    "ADMIN AUDIT DROP 0",
    "\tDROP\r\nTABLE  t ; ",
    "CREATE DATABASE `é`",
    "SELECT k FROM t LIMIT 9223372036854775807",
    "SELECT k FROM t WHERE k = -9223372036854775808",
    // Reserved words as names, and words that are not reserved.
    "DROP TABLE `ADD`",
    "DROP TABLE `ALTER`",
    "DROP TABLE `AND`",
    "DROP TABLE `ASC`",
    "DROP TABLE `BY`",
    "DROP TABLE `COLUMN`",
    "DROP TABLE `CREATE`",
    "DROP TABLE `DATABASE`",
    "DROP TABLE `DEFAULT`",
    "DROP TABLE `DESC`",
    "DROP TABLE `DISTRIBUTED`",
    "DROP TABLE `DROP`",
    "DROP TABLE `EXISTS`",
    "DROP TABLE `FROM`",
    "DROP TABLE `GROUP`",
    "DROP TABLE `IS`",
    "DROP TABLE `KEY`",
    "DROP TABLE `LESS`",
    "DROP TABLE `LIMIT`",
    "DROP TABLE `MODIFY`",
    "DROP TABLE `NOT`",
    "DROP TABLE `NULL`",
    "DROP TABLE `ORDER`",
    "DROP TABLE `PARTITION`",
    "DROP TABLE `PROPERTIES`",
    "DROP TABLE `RANGE`",
    "DROP TABLE `SELECT`",
    "DROP TABLE `SHOW`",
    "DROP TABLE `TABLE`",
    "DROP TABLE `THAN`",
    "DROP TABLE `VALUES`",
    "DROP TABLE `WHERE`",
    "DROP TABLE `IF`",
    "DROP TABLE rollup",
    "DROP TABLE maxvalue",
    "DROP TABLE hash",
    "DROP TABLE all",
    "DROP TABLE sum",
    "DROP TABLE tables",
    "DROP TABLE engine",
    "DROP TABLE first",
    "DROP TABLE int",
    "DROP TABLE admin",
];

// Texts, the places of their faults and what is wrong there.
const FAULTS: &[(&str, u64, SqlKind)] = &[
    ("SELECT k FROM t EXTRA", 16, SqlKind::Syntax),
    ("", 0, SqlKind::Syntax),
    (" ", 1, SqlKind::Syntax),
    (";", 0, SqlKind::Syntax),
    ("SELECT", 6, SqlKind::Syntax),
    ("SELECT k FROM t;;", 16, SqlKind::Syntax),
    ("SELECT k, FROM t", 10, SqlKind::Syntax),
    ("SELECT * , k FROM t", 9, SqlKind::Syntax),
    ("SELECT SUM(*) FROM t", 11, SqlKind::Syntax),
    ("SELECT COUNT(*, k) FROM t", 14, SqlKind::Syntax),
    ("SELECT `sum`(v) FROM t", 12, SqlKind::Syntax),
    ("SELECT k FROM t WHERE k = NULL", 26, SqlKind::Syntax),
    ("SELECT k FROM t WHERE k = 1 OR k = 2", 28, SqlKind::Syntax),
    ("SELECT k FROM t ORDER BY k GROUP BY k", 27, SqlKind::Syntax),
    ("CREATE MATERIALIZED x", 7, SqlKind::Syntax),
    ("CREATE TABLE t ()", 16, SqlKind::Syntax),
    (
        "CREATE TABLE t (k INT) DISTRIBUTED BY HASH(k) PROPERTIES ()",
        58,
        SqlKind::Syntax,
    ),
    ("CREATE TABLE t (k INT) BUCKETS 4", 23, SqlKind::Syntax),
    (
        "ALTER TABLE t ADD PARTITION p VALUES LESS THAN ('a', 'b')",
        51,
        SqlKind::Syntax,
    ),
    (
        "ALTER TABLE t ADD ROLLUP r (k), DROP COLUMN c",
        30,
        SqlKind::Syntax,
    ),
    (
        "ALTER TABLE t DROP COLUMN c, ADD ROLLUP r (k)",
        33,
        SqlKind::Syntax,
    ),
    ("ALTER TABLE t ADD k INT", 18, SqlKind::Syntax),
    ("SHOW ALTER TABLE t", 17, SqlKind::Syntax),
    ("SHOW TRANSACTION WHERE ID = 'l'", 28, SqlKind::Syntax),
    ("ADMIN AUDIT DROP", 16, SqlKind::Syntax),
    ("'a''b", 0, SqlKind::Syntax),
    ("SELECT k FROM t WHERE k = 'a''b", 29, SqlKind::Lex),
    ("SELECT k FROM t WHERE k = '", 26, SqlKind::Lex),
    ("SELECT k FROM t\0", 15, SqlKind::Lex),
    ("SELECT é FROM t", 7, SqlKind::Lex),
    ("é", 0, SqlKind::Lex),
    ("SELECT k FROM t WHERE k ! 1", 24, SqlKind::Lex),
    ("SELECT k FROM t LIMIT -1", 22, SqlKind::Range),
    (
        "SELECT k FROM t LIMIT -9223372036854775808",
        22,
        SqlKind::Range,
    ),
    (
        "SELECT k FROM t LIMIT 9223372036854775808",
        22,
        SqlKind::Range,
    ),
    (
        "SELECT k FROM t LIMIT -9223372036854775809",
        22,
        SqlKind::Range,
    ),
    (
        "CREATE TABLE t (k INT) DISTRIBUTED BY HASH(k) BUCKETS -4",
        54,
        SqlKind::Range,
    ),
    (
        "CREATE TABLE t (k VARCHAR(-1)) DISTRIBUTED BY HASH(k)",
        26,
        SqlKind::Range,
    ),
    ("SHOW TRANSACTION WHERE ID = -1", 28, SqlKind::Range),
    ("ADMIN AUDIT DROP -1", 17, SqlKind::Range),
    (
        "SELECT k FROM t WHERE k = 9223372036854775808",
        26,
        SqlKind::Range,
    ),
    ("DROP TABLE 9223372036854775808", 11, SqlKind::Range),
    ("DROP TABLE -1", 11, SqlKind::Syntax),
    ("SELECT -1 FROM t", 7, SqlKind::Syntax),
    ("SELECT k FROM t -1", 16, SqlKind::Syntax),
    // Reserved words outside backquotes.
    ("DROP TABLE ADD", 11, SqlKind::Syntax),
    ("DROP TABLE ALTER", 11, SqlKind::Syntax),
    ("DROP TABLE AND", 11, SqlKind::Syntax),
    ("DROP TABLE ASC", 11, SqlKind::Syntax),
    ("DROP TABLE BY", 11, SqlKind::Syntax),
    ("DROP TABLE COLUMN", 11, SqlKind::Syntax),
    ("DROP TABLE CREATE", 11, SqlKind::Syntax),
    ("DROP TABLE DATABASE", 11, SqlKind::Syntax),
    ("DROP TABLE DEFAULT", 11, SqlKind::Syntax),
    ("DROP TABLE DESC", 11, SqlKind::Syntax),
    ("DROP TABLE DISTRIBUTED", 11, SqlKind::Syntax),
    ("DROP TABLE DROP", 11, SqlKind::Syntax),
    ("DROP TABLE EXISTS", 11, SqlKind::Syntax),
    ("DROP TABLE FROM", 11, SqlKind::Syntax),
    ("DROP TABLE GROUP", 11, SqlKind::Syntax),
    ("DROP TABLE IS", 11, SqlKind::Syntax),
    ("DROP TABLE KEY", 11, SqlKind::Syntax),
    ("DROP TABLE LESS", 11, SqlKind::Syntax),
    ("DROP TABLE LIMIT", 11, SqlKind::Syntax),
    ("DROP TABLE MODIFY", 11, SqlKind::Syntax),
    ("DROP TABLE NOT", 11, SqlKind::Syntax),
    ("DROP TABLE NULL", 11, SqlKind::Syntax),
    ("DROP TABLE ORDER", 11, SqlKind::Syntax),
    ("DROP TABLE PARTITION", 11, SqlKind::Syntax),
    ("DROP TABLE PROPERTIES", 11, SqlKind::Syntax),
    ("DROP TABLE RANGE", 11, SqlKind::Syntax),
    ("DROP TABLE SELECT", 11, SqlKind::Syntax),
    ("DROP TABLE SHOW", 11, SqlKind::Syntax),
    ("DROP TABLE TABLE", 11, SqlKind::Syntax),
    ("DROP TABLE THAN", 11, SqlKind::Syntax),
    ("DROP TABLE VALUES", 11, SqlKind::Syntax),
    ("DROP TABLE WHERE", 11, SqlKind::Syntax),
    ("DROP TABLE IF", 13, SqlKind::Syntax),
];

// The tables as slices, so that the functions that go over them are proved without their members.
fn statements() -> &'static [&'static str] {
    STATEMENTS
}

fn faults() -> &'static [(&'static str, u64, SqlKind)] {
    FAULTS
}

// Why a text is no statement.
fn fault_of(alloc: Global, text: &str) -> Option<SqlError> {
    parse_stmt(alloc, text).err()
}

#[test]
fn each_alternative_is_read(rt: HostRuntime) -> Result<(), Fail> {
    for text in statements() {
        assert_eq!(rt; fault_of(rt.alloc(), text), None, "{text}");
    }
    Ok(())
}

#[test]
fn the_first_token_that_no_statement_has_is_the_fault(rt: HostRuntime) -> Result<(), Fail> {
    for (text, at, kind) in faults() {
        let fault = Some(SqlError::SqlFault {
            at: *at,
            kind: *kind,
        });
        assert_eq!(rt; fault_of(rt.alloc(), text), fault, "{text}");
    }
    Ok(())
}

// Whether each front of a text that ends before a token is a statement, or has its fault at its end.
fn fronts_end_at_faults(alloc: Global, text: &str) -> bool {
    let Ok(found) = tokens(alloc, text) else {
        return false;
    };
    for token in found.as_slice() {
        let Some(front) = text.get(..token.at as usize) else {
            return false;
        };
        if !is_whole_or_cut(fault_of(alloc, front), token.at) {
            return false;
        }
    }
    true
}

fn is_whole_or_cut(fault: Option<SqlError>, end: u64) -> bool {
    let kind = SqlKind::Syntax;
    fault == None || fault == Some(SqlError::SqlFault { at: end, kind })
}

#[test]
fn a_text_that_is_cut_has_its_fault_at_its_end(rt: HostRuntime) -> Result<(), Fail> {
    for text in statements() {
        assert!(rt; fronts_end_at_faults(rt.alloc(), text), "{text}");
    }
    Ok(())
}

#[test]
fn a_fault_is_told_as_it_is_answered(rt: HostRuntime) -> Result<(), Fail> {
    let fault = SqlError::SqlFault {
        at: 16,
        kind: SqlKind::Syntax,
    };
    let text = format!(in rt.alloc(); "{fault}")?;
    assert_eq!(rt; text.as_str(), "SqlFault at=16 kind=Syntax");
    Ok(())
}
