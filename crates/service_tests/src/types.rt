// Tables of types, roles and models of `dryrun`.
use super::runs::compare;
use service::Exit;
use std::test::Fail;

const FILTERED: Exit = Exit::TooManyFiltered { line: 1 };

const BAD: Exit = Exit::BadDef { word: 4 };

// A column of a table of its own, a body, how the run ends, and what is written.
const ENDS: &[(&str, &[u8], Exit, &[u8])] = &[
    ("k:TINYINT:KEY", b"127\n-128\n", Exit::Ok, b"-128\n127\n"),
    ("k:TINYINT:KEY", b"128\n", FILTERED, b""),
    ("k:TINYINT:KEY", b"-129\n", FILTERED, b""),
    (
        "k:SMALLINT:KEY",
        b"32767\n-32768\n",
        Exit::Ok,
        b"-32768\n32767\n",
    ),
    ("k:SMALLINT:KEY", b"32768\n", FILTERED, b""),
    ("k:SMALLINT:KEY", b"-32769\n", FILTERED, b""),
    (
        "k:INT:KEY",
        b"2147483647\n-2147483648\n",
        Exit::Ok,
        b"-2147483648\n2147483647\n",
    ),
    ("k:INT:KEY", b"2147483648\n", FILTERED, b""),
    ("k:INT:KEY", b"-2147483649\n", FILTERED, b""),
    (
        "k:BIGINT:KEY",
        b"9223372036854775807\n-9223372036854775807\n-9223372036854775808\n9223372036854775806\n",
        Exit::Ok,
        b"-9223372036854775808\n-9223372036854775807\n9223372036854775806\n9223372036854775807\n",
    ),
    ("k:BIGINT:KEY", b"9223372036854775808\n", FILTERED, b""),
    ("k:BIGINT:KEY", b"-9223372036854775809\n", FILTERED, b""),
    ("k:INT:KEY", b" +007 \n-0\n", Exit::Ok, b"0\n7\n"),
    ("k:INT:KEY", b"10\n9\n", Exit::Ok, b"9\n10\n"),
    ("k:INT:KEY", b"+-7\n", FILTERED, b""),
    ("k:INT:KEY", b"7.0\n", FILTERED, b""),
    ("k:INT:KEY", b"- 7\n", FILTERED, b""),
    (
        "k:DATE:KEY",
        b"9999-12-31\n0000-01-01\n",
        Exit::Ok,
        b"0000-01-01\n9999-12-31\n",
    ),
    (
        "k:DATE:KEY",
        b" 2000-02-29 \n2024-02-29\n",
        Exit::Ok,
        b"2000-02-29\n2024-02-29\n",
    ),
    (
        "k:DATE:KEY",
        b"2024-03-01\n2024-02-29\n2023-12-30\n",
        Exit::Ok,
        b"2023-12-30\n2024-02-29\n2024-03-01\n",
    ),
    ("k:DATE:KEY", b"1900-02-29\n", FILTERED, b""),
    ("k:DATE:KEY", b"2023-02-29\n", FILTERED, b""),
    ("k:DATE:KEY", b"2024-04-31\n", FILTERED, b""),
    ("k:DATE:KEY", b"2024-00-01\n", FILTERED, b""),
    ("k:DATE:KEY", b"2024-01-00\n", FILTERED, b""),
    ("k:DATE:KEY", b"2024-1-1\n", FILTERED, b""),
    ("k:DATE:KEY", b"10000-01-01\n", FILTERED, b""),
    ("k:DATE:KEY", b"20240229\n", FILTERED, b""),
    ("k:VARCHAR(4):KEY", b"abcd\nab\n", Exit::Ok, b"ab\nabcd\n"),
    ("k:VARCHAR(4):KEY", b"abcde\n", FILTERED, b""),
    (
        "k:VARCHAR(4):KEY",
        b"\xc3\xa9\xc3\xa9\n",
        Exit::Ok,
        b"\xc3\xa9\xc3\xa9\n",
    ),
    (
        "k:VARCHAR(4):KEY",
        b"\xc3\xa9\xc3\xa9\xc3\xa9\n",
        FILTERED,
        b"",
    ),
    ("k:VARCHAR(4):KEY", b"\xc3\n", FILTERED, b""),
    ("k:VARCHAR(4):KEY", b" b \n a\n", Exit::Ok, b" a\n b \n"),
    ("k:VARCHAR(1):KEY", b"\\N\nB\na\n", Exit::Ok, b"\\N\nB\na\n"),
    ("k:VARCHAR(4):KEY", b"10\n9\n", Exit::Ok, b"10\n9\n"),
    (
        "k:VARCHAR(65533):KEY",
        b"a text of more than fifteen bytes\n",
        Exit::Ok,
        b"a text of more than fifteen bytes\n",
    ),
    (
        "k:INT:KEY",
        b"\\N\n\\n\n",
        Exit::TooManyFiltered { line: 2 },
        b"",
    ),
];

// The words of a run, a body, how it ends, and what is written.
const FOLDS: &[(&[&str], &[u8], Exit, &[u8])] = &[
    (
        &["dryrun", "A", "d:DATE:KEY", "v:TINYINT:MAX"],
        b"2024-02-29\t127\n2023-02-29\t1\n",
        Exit::TooManyFiltered { line: 2 },
        b"",
    ),
    (
        &["dryrun", "A", "d:DATE:KEY", "v:TINYINT:MAX"],
        b"2024-02-29\t 7 \n2024-02-29\t\\N\n",
        Exit::Ok,
        b"2024-02-29\t7\n",
    ),
    (
        &[
            "dryrun",
            "A",
            "k:INT:KEY",
            "a:VARCHAR(4):REPLACE",
            "b:VARCHAR(4):REPLACE_IF_NOT_NULL",
        ],
        b"1\tx\tx\n1\t\\N\t\\N\n",
        Exit::Ok,
        b"1\t\\N\tx\n",
    ),
    (
        &["dryrun", "D", "k:INT:KEY", "v:INT:VALUE"],
        b"2\t1\n1\t9\n\n1\t9\r\n",
        Exit::Ok,
        b"1\t9\n1\t9\n2\t1\n",
    ),
    (
        &["dryrun", "U", "k:INT:KEY", "v:INT:VALUE"],
        b"1\t5\n1\t\\N\n",
        Exit::Ok,
        b"1\t\\N\n",
    ),
    (
        &["dryrun", "U", "k:INT:KEY", "v:INT:VALUE"],
        b"1\t5\n2\t7\n1\t6\n",
        Exit::Ok,
        b"1\t6\n2\t7\n",
    ),
    (
        &["dryrun", "A", "k:INT:KEY", "v:INT:MIN"],
        b"1\t5\n1\t\\N\n1\t-6\n2\t\\N\n",
        Exit::Ok,
        b"1\t-6\n2\t\\N\n",
    ),
    (
        &["dryrun", "A", "k:INT:KEY", "v:DATE:MAX", "w:DATE:MIN"],
        b"1\t2024-01-02\t2024-01-02\n1\t2023-12-31\t2023-12-31\n",
        Exit::Ok,
        b"1\t2024-01-02\t2023-12-31\n",
    ),
    (
        &[
            "dryrun",
            "A",
            "k:VARCHAR(3):KEY",
            "l:INT:KEY",
            "v:BIGINT:SUM",
        ],
        b"b\t1\t1\na\t2\t2\nb\t1\t3\na\t1\t4\n",
        Exit::Ok,
        b"a\t1\t4\na\t2\t2\nb\t1\t4\n",
    ),
    (
        &["dryrun", "A", "k:INT:KEY", "v:BIGINT:SUM"],
        b"1\t9223372036854775807\n1\t1\n2\t-9223372036854775808\n2\t-1\n",
        Exit::Ok,
        b"1\t-9223372036854775808\n2\t9223372036854775807\n",
    ),
];

// A model, a column behind `k:INT:KEY`, and how a run without rows ends.
const WORDS: &[(&str, &str, Exit)] = &[
    ("A", "v:INT:SUM", BAD),
    ("A", "v:BIGINT:SUM", Exit::Ok),
    ("A", "v:TINYINT:MIN", Exit::Ok),
    ("A", "v:SMALLINT:MAX", Exit::Ok),
    ("A", "v:DATE:MAX", Exit::Ok),
    ("A", "v:VARCHAR(5):MIN", Exit::Ok),
    ("A", "v:VARCHAR(5):REPLACE", Exit::Ok),
    ("A", "v:INT:REPLACE_IF_NOT_NULL", Exit::Ok),
    ("A", "v:INT:KEY", Exit::Ok),
    ("A", "v:INT:VALUE", BAD),
    ("D", "v:INT:VALUE", Exit::Ok),
    ("U", "v:INT:VALUE", Exit::Ok),
    ("D", "v:INT:KEY", Exit::Ok),
    ("D", "v:BIGINT:SUM", BAD),
    ("U", "v:INT:REPLACE", BAD),
    ("U", "v:VARCHAR(1):VALUE", Exit::Ok),
    ("U", "v:VARCHAR(65533):VALUE", Exit::Ok),
    ("U", "v:VARCHAR(0000000000000065533):VALUE", Exit::Ok),
    ("U", "v:VARCHAR(00000000000000065533):VALUE", BAD),
    ("U", "v:VARCHAR(0):VALUE", BAD),
    ("U", "v:VARCHAR(65534):VALUE", BAD),
    ("U", "v:VARCHAR(4294967297):VALUE", BAD),
    ("U", "v:VARCHAR(9999999999999999999):VALUE", BAD),
    ("U", "v:VARCHAR():VALUE", BAD),
    ("U", "v:VARCHAR:VALUE", BAD),
    ("U", "v:VARCHAR(5:VALUE", BAD),
    ("U", "v:VARCHAR5):VALUE", BAD),
    ("U", "v:VARCHAR(5)):VALUE", BAD),
    ("U", "v:VARCHAR(+5):VALUE", BAD),
    ("U", "v:VARCHAR( 5):VALUE", BAD),
    ("U", "v:VARCHAR(5) :VALUE", BAD),
    ("U", "v:varchar(5):VALUE", BAD),
    ("U", "v:int:VALUE", BAD),
    ("U", "v:INT:value", BAD),
    ("U", "v:INT: VALUE", BAD),
    ("U", "v:INTEGER:VALUE", BAD),
    ("U", "v:DATETIME:VALUE", BAD),
    ("A", "v:INT:REPLACE_IF_NOT_NULLS", BAD),
];

fn ends() -> &'static [(&'static str, &'static [u8], Exit, &'static [u8])] {
    ENDS
}

fn folds() -> &'static [(&'static [&'static str], &'static [u8], Exit, &'static [u8])] {
    FOLDS
}

fn words() -> &'static [(&'static str, &'static str, Exit)] {
    WORDS
}

#[test]
fn each_type_is_read_at_its_ends_and_not_beyond(rt: HostRuntime) -> Result<(), Fail> {
    for (column, body, exit, written) in ends() {
        compare(
            &rt,
            rt.alloc(),
            &["dryrun", "U", column],
            body,
            *exit,
            written,
        )?;
    }
    Ok(())
}

#[test]
fn rows_fold_by_their_model_and_roles(rt: HostRuntime) -> Result<(), Fail> {
    for (words, body, exit, written) in folds() {
        compare(&rt, rt.alloc(), words, body, *exit, written)?;
    }
    Ok(())
}

#[test]
fn column_words_name_a_type_and_a_role_exactly(rt: HostRuntime) -> Result<(), Fail> {
    for (model, column, exit) in words() {
        let words = ["dryrun", model, "k:INT:KEY", column];
        compare(&rt, rt.alloc(), &words, b"", *exit, b"")?;
    }
    Ok(())
}
