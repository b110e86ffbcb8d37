// Tables of options and of bodies.
use csv_load::{BodyFault, Inside, MAX_RECORDS, OptionError, Options, Parsed, fails, read_body};
use dl_values::{ColType, Name, NoMemory, Row, Rows, write_cell};
use schema_models::{ColumnDef, Model, Role, Shape};
use std::alloc::Global;
use std::process::Abort;
use std::test::Fail;

// A body, the text of its rows, how many records it has, how many are filtered, and the first of those.
#[derive(Clone, Copy)]
struct Case {
    body: &'static [u8],
    rows: &'static [u8],
    counts: (u64, u64),
    first_bad: Option<u64>,
}

// A column without a default.
fn column(
    alloc: Global,
    name: &[u8],
    kind: ColType,
    nullable: bool,
    role: Role,
) -> Result<ColumnDef, NoMemory> {
    let name = Name::new(alloc, name)?;
    Ok(ColumnDef {
        name,
        kind,
        nullable,
        role,
        default: None,
    })
}

// The columns `k INT` and `v BIGINT`.
fn pairs(alloc: Global, nullable: bool) -> Result<Shape, Fail> {
    let key = column(alloc, b"k", ColType::Int, nullable, Role::Key)?;
    let value = column(alloc, b"v", ColType::BigInt, nullable, Role::Plain)?;
    Ok(Shape::build(Model::Duplicate, vec![in alloc; key, value]?)?)
}

// The text of rows: a comma behind each cell, and a semicolon behind each row.
fn text_of(alloc: Global, rows: &Rows) -> Result<Vec<u8>, NoMemory> {
    let mut out = Vec::new(alloc);
    for place in 0..rows.len() {
        for cell in rows.row(place) {
            write_cell(cell, &mut out)?;
            out.push(b',')?;
        }
        out.push(b';')?;
    }
    Ok(out)
}

// Reads a body, and compares what it gives.
fn compare<I: Inside>(
    rt: &impl Abort,
    alloc: Global,
    shape: &Shape,
    inside: Option<&I>,
    options: &Options,
    case: &Case,
) -> Result<(), Fail> {
    let parsed = read_body(alloc, shape, inside, options, case.body)?;
    let text = text_of(alloc, &parsed.rows)?;
    assert_eq!(rt; text.as_slice(), case.rows);
    assert_eq!(rt; (parsed.total, parsed.filtered), case.counts);
    assert_eq!(rt; parsed.first_bad, case.first_bad);
    Ok(())
}

// Reads bodies of two columns.
fn compare_all(
    rt: &impl Abort,
    alloc: Global,
    nullable: bool,
    strict: bool,
    cases: &[Case],
) -> Result<(), Fail> {
    let shape = pairs(alloc, nullable)?;
    let options = Options::build(None, None, strict)?;
    for case in cases {
        compare(rt, alloc, &shape, None::<&()>, &options, case)?;
    }
    Ok(())
}

#[test]
fn lines_end_by_lf_crlf_or_cr(rt: HostRuntime) -> Result<(), Fail> {
    let rows = b"1,2,;3,4,;".as_slice();
    for body in [
        b"1\t2\n3\t4\n".as_slice(),
        b"1\t2\r\n3\t4\r\n",
        b"1\t2\r3\t4\r",
        b"1\t2\n3\t4",
        b"\n\r\n1\t2\n\n\r\r\n3\t4\n\n",
        b"\xEF\xBB\xBF1\t2\n3\t4\n",
    ] {
        let case = Case {
            body,
            rows,
            counts: (2, 0),
            first_bad: None,
        };
        compare_all(&rt, rt.alloc(), true, true, &[case])?;
    }
    Ok(())
}

#[test]
fn strict_mode_filters_what_cannot_be_read(rt: HostRuntime) -> Result<(), Fail> {
    let cases = [
        Case {
            body: b"",
            rows: b"",
            counts: (0, 0),
            first_bad: None,
        },
        Case {
            body: b" 1 \t 2\n\\N\t\\N\n",
            rows: b"1,2,;\\N,\\N,;",
            counts: (2, 0),
            first_bad: None,
        },
        Case {
            body: b"1\t9223372036854775807\n2147483648\t1\n1\t-9223372036854775809\n",
            rows: b"1,9223372036854775807,;",
            counts: (3, 2),
            first_bad: Some(2),
        },
        Case {
            body: b"1\n\n1\t2\n1\t2\t3\n\"1\"\t2\n1\t\n",
            rows: b"1,2,;",
            counts: (5, 4),
            first_bad: Some(1),
        },
        Case {
            body: b"\xEF\xBB\xBF\xEF\xBB\xBF1\t2\n1\t2\n",
            rows: b"1,2,;",
            counts: (2, 1),
            first_bad: Some(1),
        },
    ];
    compare_all(&rt, rt.alloc(), true, true, &cases)
}

#[test]
fn without_strict_mode_a_value_becomes_null(rt: HostRuntime) -> Result<(), Fail> {
    let case = Case {
        body: b"1\tx\n2147483648\t1\n1\n\t\n",
        rows: b"1,\\N,;\\N,1,;\\N,\\N,;",
        counts: (4, 1),
        first_bad: Some(3),
    };
    compare_all(&rt, rt.alloc(), true, false, &[case])
}

#[test]
fn a_column_that_is_not_nullable_takes_no_null(rt: HostRuntime) -> Result<(), Fail> {
    let case = Case {
        body: b"1\t2\n1\t\\N\n1\tx\n3\t4\n",
        rows: b"1,2,;3,4,;",
        counts: (4, 2),
        first_bad: Some(2),
    };
    compare_all(&rt, rt.alloc(), false, false, &[case])
}

// Holds no row.
#[derive(Clone, Copy)]
struct Nowhere;

impl Inside for Nowhere {
    ghost use Rattle.std.specs.Prelude.{false};

    ghost inside = { λ _ _. false };

    fn holds(&self, _row: &Row) -> bool {
        false
    }
}

#[test]
fn a_row_outside_is_filtered(rt: HostRuntime) -> Result<(), Fail> {
    let shape = pairs(rt.alloc(), true)?;
    let options = Options::build(Some(b","), None, true)?;
    let mut case = Case {
        body: b"1,2\n3,4\n",
        rows: b"1,2,;3,4,;",
        counts: (2, 0),
        first_bad: None,
    };
    compare(&rt, rt.alloc(), &shape, Some(&()), &options, &case)?;
    case.rows = b"";
    case.counts = (2, 2);
    case.first_bad = Some(1);
    compare(&rt, rt.alloc(), &shape, Some(&Nowhere), &options, &case)
}

#[test]
fn separators(rt: HostRuntime) {
    for (text, want) in [
        (b",".as_slice(), Some(b',')),
        (b"\\t", Some(b'\t')),
        (b"\\x01", Some(1)),
        (b"\\xfF", Some(255)),
        (b"!", Some(b'!')),
        (b"~", Some(b'~')),
        (b"\"", Some(b'"')),
        (b"", None),
        (b"\\", None),
        (b" ", None),
        (b"\x7F", None),
        (b"\t", None),
        (b"||", None),
        (b"\\n", None),
        (b"\\x0a", None),
        (b"\\x0D", None),
        (b"\\x5c", None),
        (b"\\x1", None),
        (b"\\x1g", None),
        (b"\\X01", None),
        (b"\\x001", None),
    ] {
        match Options::build(Some(text), None, false) {
            Ok(options) => assert_eq!(rt; Some(options.separator), want),
            Err(error) => {
                assert_eq!(rt; error, OptionError::BadSeparator);
                assert_eq!(rt; want, None);
            }
        }
    }
}

#[test]
fn ratios(rt: HostRuntime) {
    for (text, want) in [
        (b"0".as_slice(), Some(0)),
        (b"0.25", Some(2_500)),
        (b"0.0001", Some(1)),
        (b"0.9999", Some(9_999)),
        (b"1", Some(10_000)),
        (b"1.0", Some(10_000)),
        (b"1.0001", None),
        (b"0.12345", None),
        (b"", None),
        (b"0.", None),
        (b".5", None),
        (b"00", None),
        (b"2", None),
        (b"0,5", None),
        (b"0.5x", None),
        (b"-0", None),
    ] {
        match Options::build(None, Some(text), true) {
            Ok(options) => assert_eq!(rt; Some(options.ratio), want),
            Err(error) => {
                assert_eq!(rt; error, OptionError::BadRatio);
                assert_eq!(rt; want, None);
            }
        }
    }
    assert_eq!(rt;
        Options::build(Some(b""), Some(b""), true).err(),
        Some(OptionError::BadSeparator)
    );
}

#[test]
fn a_load_fails_above_its_ratio(rt: HostRuntime) {
    for (filtered, total, ratio, want) in [
        (0, 0, 0, false),
        (1, 4, 2_500, false),
        (2, 4, 2_500, true),
        (1, 1_000_000, 0, true),
        (7, 7, 10_000, false),
        (u64::MAX, u64::MAX, 9_999, true),
    ] {
        assert_eq!(rt; fails(filtered, total, ratio), want);
    }
}

// So many records that give no row.
fn many(alloc: Global, count: u64) -> Result<Vec<u8>, NoMemory> {
    let mut body = Vec::new(alloc);
    for _ in 0..count {
        body.extend_from_slice(b"x\n")?;
    }
    Ok(body)
}

#[test]
fn a_million_records_and_no_more(rt: HostRuntime) -> Result<(), Fail> {
    let shape = pairs(rt.alloc(), true)?;
    let options = Options::build(None, None, true)?;
    let mut body = many(rt.alloc(), MAX_RECORDS)?;
    let parsed = read_body(rt.alloc(), &shape, None::<&()>, &options, &body)?;
    assert_eq!(rt; parsed.filtered, MAX_RECORDS);
    body.extend_from_slice(b"x")?;
    match read_body(rt.alloc(), &shape, None::<&()>, &options, &body) {
        Ok(_) => assert!(rt; false, "a body above the limit"),
        Err(fault) => assert_eq!(rt; fault, BodyFault::TooManyRows { limit: MAX_RECORDS }),
    }
    Ok(())
}
