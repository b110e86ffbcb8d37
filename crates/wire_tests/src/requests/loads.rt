// The fields of loads.
use super::shown::asked;
use std::alloc::Global;
use std::process::Abort;
use std::test::Fail;

// What a load with these lines of fields asks for.
fn load(alloc: Global, fields: &[u8]) -> Result<Vec<u8>, Fail> {
    let mut head = Vec::from_slice(alloc, b"PUT /api/d/t/_stream_load HTTP/1.1\r\n")?;
    head.extend_from_slice(fields)?;
    head.extend_from_slice(b"\r\n")?;
    asked(alloc, head.as_slice(), b"")
}

// Lines of fields, and what a load with them asks for.
type Load = (&'static [u8], &'static [u8]);

fn are_asked(rt: &impl Abort, alloc: Global, of: &[Load]) -> Result<(), Fail> {
    for (fields, wanted) in of {
        let found = load(alloc, fields)?;
        assert_eq!(rt; found.as_slice(), *wanted);
    }
    Ok(())
}

const LABELS: &[Load] = &[
    (b"", b"load d t cut \t"),
    (
        b"label: a1\r\ncolumn_separator:,\r\n",
        b"load d t label a1 cut ,",
    ),
    (
        b"LABEL: a1\r\nColumn_Separator: \\x41\r\n",
        b"load d t label a1 cut A",
    ),
    (b"label:\r\n", b"load d t label  cut \t"),
    (b"column_separator: \\t\r\n", b"load d t cut \t"),
    (
        b"format: CSV\r\nline_delimiter: \\n\r\n",
        b"load d t cut \t",
    ),
    (
        b"Authorization: Basic cm9vdDo=\r\nHost: h\r\nhost: h\r\n",
        b"load d t cut \t",
    ),
    (b"column_separator: ,,\r\n", b"bad load: BadSeparator"),
    (b"column_separator: \\\r\n", b"bad load: BadSeparator"),
    (b"column_separator: \\x0a\r\n", b"bad load: BadSeparator"),
    (b"column_separator:\r\n", b"bad load: BadSeparator"),
    (b"label: \xff\r\n", b"bad load: BadHeader name=label"),
];

fn labels() -> &'static [Load] {
    LABELS
}

#[test]
fn a_label_and_a_separator_are_read(rt: HostRuntime) -> Result<(), Fail> {
    are_asked(&rt, rt.alloc(), labels())
}

const VALUES: &[Load] = &[
    (b"max_filter_ratio: 0\r\n", b"load d t cut \t"),
    (b"max_filter_ratio: 0.25\r\n", b"load d t cut \t ratio 2500"),
    (b"Max_Filter_Ratio: 0.0001\r\n", b"load d t cut \t ratio 1"),
    (
        b"max_filter_ratio: 1.0000\r\n",
        b"load d t cut \t ratio 10000",
    ),
    (b"strict_mode: TRUE\r\n", b"load d t cut \t strict"),
    (b"strict_mode: False\r\n", b"load d t cut \t"),
    (b"Two_Phase_Commit: True\r\n", b"load d t cut \t two-phase"),
    (b"two_phase_commit: false\r\n", b"load d t cut \t"),
    (
        b"two_phase_commit: true\r\nstrict_mode: true\r\nmax_filter_ratio: 1\r\nlabel: a\r\n",
        b"load d t label a cut \t ratio 10000 strict two-phase",
    ),
    (b"max_filter_ratio: 1.00005\r\n", b"bad load: BadRatio"),
    (b"max_filter_ratio: 1.0001\r\n", b"bad load: BadRatio"),
    (b"max_filter_ratio: 0.\r\n", b"bad load: BadRatio"),
    (b"max_filter_ratio: .5\r\n", b"bad load: BadRatio"),
    (b"max_filter_ratio: 00\r\n", b"bad load: BadRatio"),
    (b"max_filter_ratio: 0,5\r\n", b"bad load: BadRatio"),
    (b"max_filter_ratio:\r\n", b"bad load: BadRatio"),
    (
        b"strict_mode: 1\r\n",
        b"bad load: BadHeader name=strict_mode",
    ),
    (b"strict_mode:\r\n", b"bad load: BadHeader name=strict_mode"),
    (
        b"two_phase_commit: yes\r\n",
        b"bad load: BadHeader name=two_phase_commit",
    ),
];

fn values() -> &'static [Load] {
    VALUES
}

#[test]
fn a_ratio_a_mode_and_the_phases_are_read(rt: HostRuntime) -> Result<(), Fail> {
    are_asked(&rt, rt.alloc(), values())
}

const FAULTS: &[Load] = &[
    (
        b"label: a\r\nlabel: a\r\n",
        b"bad load: BadHeader name=label",
    ),
    (
        b"label: a\r\nLABEL: \xff\r\ncolumns: k\r\n",
        b"bad load: BadHeader name=label",
    ),
    (
        b"columns: k\r\nlabel: a\r\nlabel: b\r\n",
        b"bad load: Unsupported name=columns",
    ),
    (
        b"label: a\r\ncolumns: k\r\n",
        b"bad load: Unsupported name=columns label a",
    ),
    (
        b"Columns: k\r\nlabel: a\r\n",
        b"bad load: Unsupported name=columns label a",
    ),
    (
        b"format: json\r\ncolumn_separator: ,,\r\n",
        b"bad load: Unsupported name=format",
    ),
    (
        b"column_separator: ,,\r\nformat: json\r\n",
        b"bad load: BadSeparator",
    ),
    (
        b"column_separator: ,\r\ncolumn_separator: ;\r\n",
        b"bad load: BadHeader name=column_separator",
    ),
    (
        b"format: csv\r\nformat: json\r\n",
        b"bad load: Unsupported name=format",
    ),
    (
        b"line_delimiter: \\r\r\nlabel: a\r\n",
        b"bad load: Unsupported name=line_delimiter label a",
    ),
    (
        b"strict_mode: x\r\nmax_filter_ratio: 2\r\n",
        b"bad load: BadHeader name=strict_mode",
    ),
    (
        b"max_filter_ratio: 2\r\nstrict_mode: x\r\n",
        b"bad load: BadRatio",
    ),
    (
        b"max_filter_ratio: 0.1\r\nMax_Filter_Ratio: 2\r\n",
        b"bad load: BadHeader name=max_filter_ratio",
    ),
    (
        b"strict_mode: true\r\nstrict_mode: true\r\n",
        b"bad load: BadHeader name=strict_mode",
    ),
    (
        b"label: a\r\ntwo_phase_commit: false\r\ntwo_phase_commit: x\r\n",
        b"bad load: BadHeader name=two_phase_commit label a",
    ),
];

fn faults() -> &'static [Load] {
    FAULTS
}

#[test]
fn the_first_field_at_fault_decides_in_every_order(rt: HostRuntime) -> Result<(), Fail> {
    are_asked(&rt, rt.alloc(), faults())
}

const NAMES: &[&[u8]] = &[
    b"columns",
    b"where",
    b"partitions",
    b"temporary_partitions",
    b"jsonpaths",
    b"json_root",
    b"strip_outer_array",
    b"merge_type",
    b"delete",
    b"negative",
    b"compress_type",
    b"content-encoding",
    b"enclose",
    b"escape",
    b"skip_lines",
    b"trim_double_quotes",
    b"hidden_columns",
    b"partial_columns",
    b"function_column.sequence_col",
];

fn names() -> &'static [&'static [u8]] {
    NAMES
}

// Whether a load with this field is refused by the field's name.
fn is_refused(alloc: Global, name: &[u8]) -> Result<bool, Fail> {
    let mut field = Vec::from_slice(alloc, name)?;
    field.extend_from_slice(b": 1\r\n")?;
    let found = load(alloc, field.as_slice())?;
    Ok(
        found
            .as_slice()
            .strip_prefix(b"bad load: Unsupported name=".as_slice())
            == Some(name),
    )
}

#[test]
fn a_field_that_no_load_may_have_is_named(rt: HostRuntime) -> Result<(), Fail> {
    for name in names() {
        assert!(rt; is_refused(rt.alloc(), name)?, "{name:?}");
    }
    Ok(())
}
