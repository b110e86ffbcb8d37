// Queries over lists, with their answers or refusals as texts, worked out by hand.
use dl_values::AggKind;
use schema_models::{Model, Role};

// The rows of three lists, the oldest first. Of two keys there are rows in two lists, and one key is null.
const LISTS: &[&str] = &["\\N,3\n1,5\n2,7", "", "1,6\n2,\\N\n3,\\N"];

// A model with the role of its second column, its lists, how many rising keys stand in one list more, queries over them, and how often
// a row is looked at for each.
pub struct Case {
    pub model: Model,
    pub role: Role,
    pub lists: &'static [&'static str],
    pub rising: i64,
    pub queries: &'static [(&'static str, &'static str)],
    pub looks: usize,
}

// The rows are (null,3), (1,5), (1,6), (2,null), (2,7), (3,null).
const DUPLICATE: &[(&str, &str)] = &[
    (
        "SELECT * FROM t",
        "k INT,v BIGINT;\\N,3;1,5;1,6;2,\\N;2,7;3,\\N;",
    ),
    ("SELECT v FROM t WHERE k = 1", "v BIGINT;5;6;"),
    ("SELECT k FROM t WHERE v <> 5", "k INT;\\N;1;2;"),
    (
        "SELECT * FROM t ORDER BY k DESC LIMIT 3",
        "k INT,v BIGINT;3,\\N;2,\\N;2,7;",
    ),
    ("SELECT k FROM t ORDER BY k", "k INT;\\N;1;1;2;2;3;"),
    (
        "SELECT * FROM t ORDER BY 2 DESC LIMIT 2",
        "k INT,v BIGINT;2,7;1,6;",
    ),
    ("SELECT * FROM t LIMIT 0", "k INT,v BIGINT;"),
    (
        "SELECT k, COUNT(v), COUNT(*) FROM t GROUP BY k",
        "k INT,count(v) BIGINT,count(*) BIGINT;\\N,1,1;1,2,2;2,1,2;3,0,1;",
    ),
    (
        "SELECT SUM(v), k, MIN(v), MAX(v) FROM t GROUP BY k ORDER BY k DESC",
        "sum(v) BIGINT,k INT,min(v) BIGINT,max(v) BIGINT;\\N,3,\\N,\\N;7,2,7,7;11,1,5,6;3,\\N,3,3;",
    ),
    ("SELECT k FROM t GROUP BY k, v", "k INT;\\N;1;1;2;2;3;"),
];

const REFUSED: &[(&str, &str)] = &[
    (
        "SELECT v, k FROM t GROUP BY k, v ORDER BY COUNT(*)",
        "NoColumn column=count(*)",
    ),
    ("SELECT v FROM t GROUP BY k", "NotGrouped column=v"),
    ("SELECT x FROM t", "NoColumn column=x"),
    ("SELECT k FROM t WHERE k = 'x'", "BadCompare column=k"),
];

// The rows are (null,3), (1,6), (2,null), (3,null).
const UNIQUE: &[(&str, &str)] = &[
    ("SELECT * FROM t", "k INT,v BIGINT;\\N,3;1,6;2,\\N;3,\\N;"),
    ("SELECT k FROM t WHERE v IS NOT NULL", "k INT;\\N;1;"),
    (
        "SELECT v, COUNT(*) FROM t GROUP BY v",
        "v BIGINT,count(*) BIGINT;\\N,2;3,1;6,1;",
    ),
    ("SELECT v FROM t ORDER BY v DESC LIMIT 1", "v BIGINT;6;"),
];

// The rows are (null,3), (1,11), (2,7), (3,null).
const AGGREGATE: &[(&str, &str)] = &[
    ("SELECT * FROM t", "k INT,v BIGINT;\\N,3;1,11;2,7;3,\\N;"),
    ("SELECT k FROM t WHERE v = 11", "k INT;1;"),
    (
        "SELECT SUM(v), MAX(k), COUNT(k), MIN(v) FROM t",
        "sum(v) BIGINT,max(k) INT,count(k) BIGINT,min(v) BIGINT;21,3,3,3;",
    ),
    ("SELECT v FROM t WHERE k >= 2", "v BIGINT;\\N;7;"),
];

// No row is stored.
const EMPTY: &[(&str, &str)] = &[
    ("SELECT * FROM t", "k INT,v BIGINT;"),
    (
        "SELECT COUNT(*), MIN(v) FROM t",
        "count(*) BIGINT,min(v) BIGINT;0,\\N;",
    ),
    ("SELECT COUNT(*) FROM t GROUP BY k", "count(*) BIGINT;"),
    ("SELECT COUNT(*) FROM t LIMIT 0", "count(*) BIGINT;"),
];

// Two lists of 24 and of 21 rows: k and 100 - k for k from 1 to 24, and k and k for k from 11 to 31. Beneath a limit more rows
// pass than are kept.
const MANY_ROWS: &[&str] = &[
    "1,99\n2,98\n3,97\n4,96\n5,95\n6,94\n7,93\n8,92\n9,91\n10,90\n11,89\n12,88\n13,87\n14,86\n15,85\n16,84\n17,83\n18,82\n19,81\n20,80\n21,79\n22,78\n23,77\n24,76",
    "11,11\n12,12\n13,13\n14,14\n15,15\n16,16\n17,17\n18,18\n19,19\n20,20\n21,21\n22,22\n23,23\n24,24\n25,25\n26,26\n27,27\n28,28\n29,29\n30,30\n31,31",
];

const LIMITED: &[(&str, &str)] = &[
    ("SELECT * FROM t LIMIT 1", "k INT,v BIGINT;1,99;"),
    ("SELECT * FROM t LIMIT 0", "k INT,v BIGINT;"),
    (
        "SELECT k FROM t ORDER BY k DESC LIMIT 4",
        "k INT;31;30;29;28;",
    ),
    (
        "SELECT * FROM t ORDER BY v LIMIT 3",
        "k INT,v BIGINT;11,11;12,12;13,13;",
    ),
    (
        "SELECT * FROM t WHERE k > 10 ORDER BY 2 DESC LIMIT 2",
        "k INT,v BIGINT;11,89;12,88;",
    ),
    ("SELECT k FROM t WHERE k >= 11 LIMIT 3", "k INT;11;11;12;"),
    ("SELECT COUNT(*) FROM t LIMIT 1", "count(*) BIGINT;45;"),
    (
        "SELECT k, SUM(v) FROM t GROUP BY k ORDER BY k DESC LIMIT 2",
        "k INT,sum(v) BIGINT;31,31;30,30;",
    ),
];

// No row of the first list has a null value.
const ONE_LIST: &[(&str, &str)] = &[("SELECT k FROM t WHERE v IS NULL", "k INT;2;3;")];

// A key is null in the first list alone.
const NULL_KEY: &[(&str, &str)] = &[("SELECT * FROM t WHERE k IS NULL", "k INT,v BIGINT;\\N,3;")];

const NO_LIST: &[(&str, &str)] = &[(
    "SELECT COUNT(*), SUM(v) FROM t WHERE k = 9",
    "count(*) BIGINT,sum(v) BIGINT;0,\\N;",
)];

// The keys 1 to 3,000 stand in blocks of 1,024, so that key 2,049 is the first of the third.
const LAST_BLOCK: &[(&str, &str)] = &[(
    "SELECT COUNT(*), MIN(k) FROM t WHERE k >= 2049",
    "count(*) BIGINT,min(k) INT;952,2049;",
)];

const NO_KEY: &[(&str, &str)] = &[(
    "SELECT COUNT(*), MIN(k) FROM t WHERE v >= 2049",
    "count(*) BIGINT,min(k) INT;952,2049;",
)];

const DUPLICATE_CASE: Case = Case {
    model: Model::Duplicate,
    role: Role::Plain,
    lists: LISTS,
    rising: 0,
    queries: DUPLICATE,
    looks: 6,
};

const CASES: &[Case] = &[
    DUPLICATE_CASE,
    Case {
        queries: ONE_LIST,
        looks: 3,
        ..DUPLICATE_CASE
    },
    Case {
        queries: NO_LIST,
        looks: 0,
        ..DUPLICATE_CASE
    },
    Case {
        queries: REFUSED,
        looks: 0,
        ..DUPLICATE_CASE
    },
    Case {
        model: Model::Unique,
        queries: UNIQUE,
        ..DUPLICATE_CASE
    },
    Case {
        model: Model::Aggregate,
        role: Role::Agg(AggKind::Sum),
        queries: AGGREGATE,
        ..DUPLICATE_CASE
    },
    Case {
        lists: &["", ""],
        queries: EMPTY,
        looks: 0,
        ..DUPLICATE_CASE
    },
    Case {
        lists: MANY_ROWS,
        queries: LIMITED,
        looks: 45,
        ..DUPLICATE_CASE
    },
    Case {
        model: Model::Unique,
        lists: &[],
        queries: EMPTY,
        looks: 0,
        ..DUPLICATE_CASE
    },
    Case {
        model: Model::Unique,
        queries: NULL_KEY,
        looks: 3,
        ..DUPLICATE_CASE
    },
    Case {
        lists: &[],
        rising: 3000,
        queries: LAST_BLOCK,
        looks: 952,
        ..DUPLICATE_CASE
    },
    Case {
        model: Model::Aggregate,
        role: Role::Agg(AggKind::Sum),
        lists: &[],
        rising: 3000,
        queries: NO_KEY,
        looks: 3000,
    },
];

pub fn cases() -> &'static [Case] {
    CASES
}
