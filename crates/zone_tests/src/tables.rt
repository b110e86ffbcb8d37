// Which tests cells may match by their ends, and which of them a cell passes: worked out by hand.
use dl_values::{Cell, ColType};
use std::alloc::Global;
use std::process::Abort;
use std::test::Fail;
use zones::{Op, Test, Zone};

const OPS: [Op; 8] = [
    Op::Eq,
    Op::Ne,
    Op::Lt,
    Op::Le,
    Op::Gt,
    Op::Ge,
    Op::IsNull,
    Op::IsNotNull,
];

// Cells and a literal, and for each operator in the order of `OPS` whether their ends may match it, and whether a cell passes.
const CASES: &[(&str, &str, &str, &str)] = &[
    ("5,3,9", "4", "yyyyyyny", "nyyyyyny"),
    ("5,3,9", "3", "yynyyyny", "yynyyyny"),
    ("5,3,9", "9", "yyyynyny", "yyyynyny"),
    ("5,3,9", "2", "nynnyyny", "nynnyyny"),
    ("5,3,9", "10", "nyyynnny", "nyyynnny"),
    ("7", "7", "ynnynyny", "ynnynyny"),
    ("7,7", "7", "ynnynyny", "ynnynyny"),
    // Between a null and 7 there might be a cell below 7.
    ("\\N,7", "7", "yyyynyyy", "ynnynyyy"),
    ("7,\\N", "8", "nyyynnyy", "nyyynnyy"),
    ("\\N,\\N", "7", "nnnnnnyn", "nnnnnnyn"),
    ("3,5", "\\N", "nnnnnnny", "nnnnnnny"),
    // Of no cells both ends are null.
    ("", "7", "nnnnnnyn", "nnnnnnnn"),
    (
        "-9223372036854775808,9223372036854775807",
        "9223372036854775807",
        "yyyynyny",
        "yyyynyny",
    ),
    (
        "-9223372036854775808,9223372036854775807",
        "-9223372036854775808",
        "yynyyyny",
        "yynyyyny",
    ),
];

fn cell(alloc: Global, text: &str) -> Result<Cell, Fail> {
    if text == "\\N" {
        return Ok(Cell::Null);
    }
    match ColType::BigInt.read(alloc, text.as_bytes()) {
        Ok(cell) => Ok(cell),
        Err(_) => Err("no cell".into()),
    }
}

fn cells(alloc: Global, text: &str) -> Result<Vec<Cell>, Fail> {
    let mut cells = Vec::new(alloc);
    if text.is_empty() {
        return Ok(cells);
    }
    for text in text.split(',') {
        cells.push(cell(alloc, text)?)?;
    }
    Ok(cells)
}

fn letter(answer: bool) -> u8 {
    if answer { b'y' } else { b'n' }
}

// For each operator whether the ends may match it, and whether a cell passes.
fn answers(alloc: Global, cells: &[Cell], literal: &str) -> Result<(Vec<u8>, Vec<u8>), Fail> {
    let zone = Zone::of(alloc, cells)?;
    let mut may = Vec::new(alloc);
    let mut passes = Vec::new(alloc);
    for op in OPS {
        let test = Test {
            column: 0,
            op,
            literal: cell(alloc, literal)?,
        };
        may.push(letter(zone.may_match(&test)))?;
        passes.push(letter(cells.iter().any(|cell| test.passes(cell))))?;
    }
    Ok((may, passes))
}

#[test]
fn ends_tell_which_tests_may_be_matched(rt: HostRuntime) -> Result<(), Fail> {
    for (texts, literal, wanted_may, wanted_passes) in CASES {
        let cells = cells(rt.alloc(), texts)?;
        let (may, passes) = answers(rt.alloc(), cells.as_slice(), literal)?;
        assert_eq!(&rt;
            may.as_slice(),
            wanted_may.as_bytes(),
            "ends of {texts} beside {literal}"
        );
        assert_eq!(&rt;
            passes.as_slice(),
            wanted_passes.as_bytes(),
            "{texts} beside {literal}"
        );
    }
    Ok(())
}
