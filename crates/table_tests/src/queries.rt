// Queries over a few rows as tables: the text of each, and its answer as a text.
use super::shapes::{Column, shape};
use super::texts::read;
use dl_values::{AggKind, Cell, ColType, NoMemory, ResultSet, Row, Rows, Text, write_cell};
use schema_models::{Model, Role, Shape};
use select_defs::{SelectError, eval};
use sql_text::{Query, Stmt};
use std::alloc::Global;
use std::process::Abort;
use std::test::Fail;

// `t (k INT, v INT) DUPLICATE KEY(k)` with the rows (1,5), (1,6), (2,7).
const PAIRS: &[(&str, &str)] = &[
    (
        "SELECT k, COUNT(*) FROM t GROUP BY k ORDER BY 2 DESC LIMIT 1",
        "k INT,count(*) BIGINT;1,2;",
    ),
    ("SELECT SUM(v) FROM t WHERE k = 9", "sum(v) BIGINT;\\N;"),
    ("SELECT v FROM t GROUP BY k", "NotGrouped column=v"),
    ("SELECT x FROM t", "NoColumn column=x"),
    ("SELECT * FROM t", "k INT,v INT;1,5;1,6;2,7;"),
    (
        "SELECT * FROM t ORDER BY v DESC",
        "k INT,v INT;2,7;1,6;1,5;",
    ),
    (
        "SELECT * FROM t ORDER BY k DESC",
        "k INT,v INT;2,7;1,5;1,6;",
    ),
    (
        "SELECT * FROM t ORDER BY 1 DESC, 2 DESC",
        "k INT,v INT;2,7;1,6;1,5;",
    ),
    ("SELECT * FROM t LIMIT 0", "k INT,v INT;"),
    ("SELECT * FROM t LIMIT 2", "k INT,v INT;1,5;1,6;"),
    (
        "SELECT * FROM t LIMIT 9223372036854775807",
        "k INT,v INT;1,5;1,6;2,7;",
    ),
    (
        "SELECT * FROM t ORDER BY v DESC LIMIT 1",
        "k INT,v INT;2,7;",
    ),
    ("SELECT v, v FROM t WHERE k < 2", "v INT,v INT;5,5;6,6;"),
    ("SELECT k FROM t", "k INT;1;1;2;"),
    ("SELECT k FROM t GROUP BY k", "k INT;1;2;"),
    ("SELECT k FROM t GROUP BY k, v", "k INT;1;1;2;"),
    (
        "SELECT v, k FROM t GROUP BY k, v ORDER BY k DESC, v",
        "v INT,k INT;7,2;5,1;6,1;",
    ),
    ("SELECT COUNT(*) FROM t WHERE k <= 1", "count(*) BIGINT;2;"),
    ("SELECT COUNT(*) FROM t WHERE k < 1", "count(*) BIGINT;0;"),
    (
        "SELECT k, MIN(v), MAX(v), SUM(v), COUNT(v) FROM t GROUP BY k",
        "k INT,min(v) INT,max(v) INT,sum(v) BIGINT,count(v) BIGINT;1,5,6,11,2;2,7,7,7,1;",
    ),
    ("SELECT * FROM t GROUP BY k", "NotGrouped column=v"),
    ("SELECT * FROM t GROUP BY k, v", "k INT,v INT;1,5;1,6;2,7;"),
    ("SELECT k, SUM(v) FROM t", "NotGrouped column=k"),
    ("SELECT k FROM t ORDER BY SUM(v)", "NoColumn column=sum(v)"),
    ("SELECT k FROM t ORDER BY v", "NoColumn column=v"),
    ("SELECT k FROM t ORDER BY 2", "NoColumn column=2"),
    ("SELECT k FROM t ORDER BY 0", "NoColumn column=0"),
    ("SELECT k FROM t ORDER BY -7", "NoColumn column=-7"),
    (
        "SELECT * FROM t ORDER BY COUNT(*)",
        "NoColumn column=count(*)",
    ),
    ("SELECT K FROM t", "NoColumn column=K"),
    ("SELECT k, SUM(x) FROM t WHERE y = 1", "NoColumn column=x"),
    (
        "SELECT k FROM t WHERE y = 1 GROUP BY z",
        "NoColumn column=y",
    ),
    ("SELECT k FROM t GROUP BY z ORDER BY w", "NoColumn column=z"),
    (
        "SELECT k FROM t WHERE k = 'x' ORDER BY w",
        "NoColumn column=w",
    ),
    (
        "SELECT v FROM t WHERE k = 'x' GROUP BY k",
        "BadCompare column=k",
    ),
];

// `t (i TINYINT, d DATE, s VARCHAR(4))` with nulls in every place.
const TYPES: &[(&str, &str)] = &[
    (
        "SELECT * FROM t",
        "i TINYINT,d DATE,s VARCHAR(4);\\N,2024-01-05,b;1,\\N,a;2,2024-02-10,\\N;3,2024-01-05,\u{e9};",
    ),
    (
        "SELECT MIN(s), MAX(s), MIN(d), MAX(d) FROM t",
        "min(s) VARCHAR(4),max(s) VARCHAR(4),min(d) DATE,max(d) DATE;a,\u{e9},2024-01-05,2024-02-10;",
    ),
    (
        "SELECT COUNT(i), COUNT(d), COUNT(s), COUNT(*) FROM t",
        "count(i) BIGINT,count(d) BIGINT,count(s) BIGINT,count(*) BIGINT;3,3,3,4;",
    ),
    (
        "SELECT d, SUM(i) FROM t GROUP BY d",
        "d DATE,sum(i) BIGINT;\\N,1;2024-01-05,3;2024-02-10,2;",
    ),
    (
        "SELECT d, SUM(i) FROM t GROUP BY d ORDER BY SUM(i) DESC",
        "d DATE,sum(i) BIGINT;2024-01-05,3;2024-02-10,2;\\N,1;",
    ),
    (
        "SELECT s FROM t ORDER BY s DESC",
        "s VARCHAR(4);\u{e9};b;a;\\N;",
    ),
    ("SELECT i FROM t WHERE i = 2", "i TINYINT;2;"),
    ("SELECT i FROM t WHERE i <> 2", "i TINYINT;1;3;"),
    ("SELECT i FROM t WHERE i != 200", "i TINYINT;1;2;3;"),
    ("SELECT i FROM t WHERE i < '2'", "i TINYINT;1;"),
    ("SELECT i FROM t WHERE i <= ' +2 '", "i TINYINT;1;2;"),
    ("SELECT i FROM t WHERE i > 1 AND i < 3", "i TINYINT;2;"),
    ("SELECT i FROM t WHERE i >= 2", "i TINYINT;2;3;"),
    (
        "SELECT i FROM t WHERE i > -9223372036854775808",
        "i TINYINT;1;2;3;",
    ),
    ("SELECT i FROM t WHERE d = '2024-01-05'", "i TINYINT;\\N;3;"),
    ("SELECT i FROM t WHERE d <> '2024-01-05'", "i TINYINT;2;"),
    (
        "SELECT i FROM t WHERE d < ' 2024-02-10'",
        "i TINYINT;\\N;3;",
    ),
    ("SELECT i FROM t WHERE d >= '2024-01-06'", "i TINYINT;2;"),
    ("SELECT i FROM t WHERE s = 'a'", "i TINYINT;1;"),
    ("SELECT i FROM t WHERE s <= 'b'", "i TINYINT;\\N;1;"),
    (
        "SELECT i FROM t WHERE s > 'a longer text'",
        "i TINYINT;\\N;3;",
    ),
    ("SELECT i FROM t WHERE s <> ''", "i TINYINT;\\N;1;3;"),
    ("SELECT i FROM t WHERE i IS NULL", "i TINYINT;\\N;"),
    (
        "SELECT i FROM t WHERE d IS NOT NULL AND s IS NOT NULL",
        "i TINYINT;\\N;3;",
    ),
    ("SELECT i FROM t WHERE i = 'x'", "BadCompare column=i"),
    (
        "SELECT i FROM t WHERE i = '9223372036854775808'",
        "BadCompare column=i",
    ),
    (
        "SELECT i FROM t WHERE d = '2023-02-29'",
        "BadCompare column=d",
    ),
    ("SELECT i FROM t WHERE d < 20240105", "BadCompare column=d"),
    ("SELECT i FROM t WHERE s = 1", "BadCompare column=s"),
    ("SELECT SUM(d) FROM t", "BadCompare column=d"),
    ("SELECT SUM(s) FROM t WHERE d = 1", "BadCompare column=s"),
];

// An empty table.
const EMPTY: &[(&str, &str)] = &[
    ("SELECT * FROM t", "k INT,v INT;"),
    ("SELECT k FROM t WHERE k = 1 ORDER BY k LIMIT 3", "k INT;"),
    ("SELECT COUNT(*) FROM t", "count(*) BIGINT;0;"),
    (
        "SELECT COUNT(v), SUM(v), MIN(v), MAX(k) FROM t",
        "count(v) BIGINT,sum(v) BIGINT,min(v) INT,max(k) INT;0,\\N,\\N,\\N;",
    ),
    ("SELECT k, SUM(v) FROM t GROUP BY k", "k INT,sum(v) BIGINT;"),
    ("SELECT COUNT(*) FROM t GROUP BY k", "count(*) BIGINT;"),
    ("SELECT COUNT(*) FROM t LIMIT 0", "count(*) BIGINT;"),
];

// `sales (city VARCHAR(16), day DATE, items BIGINT SUM) AGGREGATE KEY(city, day)`.
const SALES: &[(&str, &str)] = &[
    (
        "SELECT city, SUM(items) FROM sales GROUP BY city",
        "city VARCHAR(16),sum(items) BIGINT;Oslo,8;Rome,5;",
    ),
    (
        "SELECT city FROM sales WHERE day >= '2024-02-01'",
        "city VARCHAR(16);Oslo;",
    ),
    ("SELECT MAX(day) FROM sales", "max(day) DATE;2024-02-10;"),
];

const PAIRS_COLUMNS: &[Column] = &[
    ("k", ColType::Int, Role::Key),
    ("v", ColType::Int, Role::Plain),
];

const TYPES_COLUMNS: &[Column] = &[
    ("i", ColType::TinyInt, Role::Key),
    ("d", ColType::Date, Role::Plain),
    ("s", ColType::Varchar(4), Role::Plain),
];

const SALES_COLUMNS: &[Column] = &[
    ("city", ColType::Varchar(16), Role::Key),
    ("day", ColType::Date, Role::Key),
    ("items", ColType::BigInt, Role::Agg(AggKind::Sum)),
];

fn cell(alloc: Global, kind: ColType, text: &str) -> Result<Cell, Fail> {
    if text == "\\N" {
        return Ok(Cell::Null);
    }
    match kind.read(alloc, text.as_bytes()) {
        Ok(cell) => Ok(cell),
        Err(_) => Err("no cell".into()),
    }
}

fn row(alloc: Global, shape: &Shape, line: &str) -> Result<Row, Fail> {
    let mut row = Row::new(alloc);
    for (column, text) in shape.columns().iter().zip(line.split(',')) {
        row.push(cell(alloc, column.kind, text)?)?;
    }
    Ok(row)
}

fn rows(alloc: Global, shape: &Shape, text: &str) -> Result<Rows, Fail> {
    let mut rows = Rows::new(alloc);
    for line in text.lines() {
        rows.push(row(alloc, shape, line)?)?;
    }
    Ok(rows)
}

fn add_header(out: &mut Vec<u8>, names: &[Text], types: &[Text]) -> Result<(), NoMemory> {
    for (place, (name, kind)) in names.iter().zip(types.iter()).enumerate() {
        if place > 0 {
            out.push(b',')?;
        }
        out.extend_from_slice(name.bytes())?;
        out.push(b' ')?;
        out.extend_from_slice(kind.bytes())?;
    }
    out.push(b';')?;
    Ok(())
}

fn add_row(out: &mut Vec<u8>, row: &[Cell]) -> Result<(), NoMemory> {
    for (place, cell) in row.iter().enumerate() {
        if place > 0 {
            out.push(b',')?;
        }
        write_cell(cell, out)?;
    }
    out.push(b';')?;
    Ok(())
}

fn shown(alloc: Global, set: &ResultSet) -> Result<Vec<u8>, NoMemory> {
    let mut out = Vec::new(alloc);
    add_header(&mut out, set.names.as_slice(), set.types.as_slice())?;
    for place in 0..set.rows.len() {
        add_row(&mut out, set.rows.row(place))?;
    }
    Ok(out)
}

fn refused(alloc: Global, error: &SelectError) -> Result<Vec<u8>, Fail> {
    Ok(format!(in alloc; "{error}")?.into_bytes())
}

fn evaluated(alloc: Global, shape: &Shape, rows: &Rows, query: &Query) -> Result<Vec<u8>, Fail> {
    match &eval(alloc, shape, shape, query, rows) {
        Ok(set) => Ok(shown(alloc, set)?),
        Err(error) => refused(alloc, error),
    }
}

fn selected(stmt: &Stmt) -> Option<&Query> {
    match stmt {
        Stmt::Select(query) => Some(query),
        _ => None,
    }
}

fn answered(alloc: Global, shape: &Shape, rows: &Rows, text: &str) -> Result<Vec<u8>, Fail> {
    let given = read(alloc, text)?;
    match selected(&given.stmt) {
        Some(query) => evaluated(alloc, shape, rows, query),
        None => Err("no query".into()),
    }
}

// A table: its model, its columns, its rows as lines, and its queries, each with its answer.
struct Table {
    model: Model,
    columns: &'static [Column],
    rows: &'static str,
    queries: &'static [(&'static str, &'static str)],
}

fn answers(
    rt: &impl Abort,
    alloc: Global,
    shape: &Shape,
    rows: &Rows,
    queries: &[(&str, &str)],
) -> Result<(), Fail> {
    for (text, wanted) in queries {
        let answer = answered(alloc, shape, rows, text)?;
        assert_eq!(rt; answer.as_slice(), wanted.as_bytes(), "{text}");
    }
    Ok(())
}

fn answers_of(rt: &impl Abort, alloc: Global, table: &Table) -> Result<(), Fail> {
    let shape = shape(alloc, table.model, table.columns)?;
    let list = rows(alloc, &shape, table.rows)?;
    answers(rt, alloc, &shape, &list, table.queries)
}

const PAIRS_TABLE: &Table = &Table {
    model: Model::Duplicate,
    columns: PAIRS_COLUMNS,
    rows: "1,5\n1,6\n2,7",
    queries: PAIRS,
};

fn pairs() -> &'static Table {
    PAIRS_TABLE
}

#[test]
fn pairs_are_queried(rt: HostRuntime) -> Result<(), Fail> {
    answers_of(&rt, rt.alloc(), pairs())
}

const TYPES_TABLE: &Table = &Table {
    model: Model::Duplicate,
    columns: TYPES_COLUMNS,
    rows: "1,\\N,a\n3,2024-01-05,\u{e9}\n\\N,2024-01-05,b\n2,2024-02-10,\\N",
    queries: TYPES,
};

fn types() -> &'static Table {
    TYPES_TABLE
}

#[test]
fn each_type_is_compared(rt: HostRuntime) -> Result<(), Fail> {
    answers_of(&rt, rt.alloc(), types())
}

const EMPTY_TABLE: &Table = &Table {
    model: Model::Duplicate,
    columns: PAIRS_COLUMNS,
    rows: "",
    queries: EMPTY,
};

fn empty() -> &'static Table {
    EMPTY_TABLE
}

#[test]
fn an_empty_table_is_queried(rt: HostRuntime) -> Result<(), Fail> {
    answers_of(&rt, rt.alloc(), empty())
}

const SALES_TABLE: &Table = &Table {
    model: Model::Aggregate,
    columns: SALES_COLUMNS,
    rows: "Oslo,2024-01-05,3\nOslo,2024-01-06,1\nOslo,2024-02-10,4\nRome,2024-01-05,5",
    queries: SALES,
};

fn sales() -> &'static Table {
    SALES_TABLE
}

#[test]
fn sales_are_summed_by_city(rt: HostRuntime) -> Result<(), Fail> {
    answers_of(&rt, rt.alloc(), sales())
}
