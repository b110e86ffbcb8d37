// What each type reads and writes, how values are ordered, and rows in one list of cells.
use super::tables::cell;
use dl_values::{
    Cell, ColType, Name, NoMemory, Row, RowView, Rows, Text, compare_rows, copy_row, write_cell,
};
use std::alloc::Global;
use std::cmp::Ordering;
use std::collections::HashMap;
use std::process::Abort;
use std::test::Fail;

// The text of the cell that a text is read as; nothing where the type has no such cell.
fn read_back(alloc: Global, kind: ColType, text: &[u8]) -> Result<Vec<u8>, NoMemory> {
    let mut out = Vec::new(alloc);
    match kind.read(alloc, text) {
        Ok(cell) => write_cell(&cell, &mut out)?,
        Err(_) => out.extend_from_slice(b"none")?,
    }
    Ok(out)
}

// A type, a text, and what is written of the cell that it is read as.
type Reading = (ColType, &'static [u8], &'static [u8]);

fn are_read(rt: &impl Abort, alloc: Global, of: &[Reading]) -> Result<(), Fail> {
    for (kind, text, wanted) in of {
        let found = read_back(alloc, *kind, text)?;
        assert_eq!(rt; found.as_slice(), *wanted);
    }
    Ok(())
}

const INTEGERS: &[Reading] = &[
    (ColType::TinyInt, b"127", b"127"),
    (ColType::TinyInt, b"128", b"none"),
    (ColType::TinyInt, b"-128", b"-128"),
    (ColType::TinyInt, b"-129", b"none"),
    (ColType::SmallInt, b"32767", b"32767"),
    (ColType::SmallInt, b"32768", b"none"),
    (ColType::Int, b"2147483647", b"2147483647"),
    (ColType::Int, b"2147483648", b"none"),
    (ColType::Int, b"-2147483648", b"-2147483648"),
    (ColType::Int, b"-2147483649", b"none"),
    (
        ColType::BigInt,
        b"9223372036854775807",
        b"9223372036854775807",
    ),
    (ColType::BigInt, b"9223372036854775808", b"none"),
    (
        ColType::BigInt,
        b"-9223372036854775808",
        b"-9223372036854775808",
    ),
    (ColType::BigInt, b"-9223372036854775809", b"none"),
    (ColType::BigInt, b"99999999999999999999999999", b"none"),
    (ColType::BigInt, b"000000000000000000000000000007", b"7"),
    (ColType::Int, b" 7 ", b"7"),
    (ColType::Int, b"+7", b"7"),
    (ColType::Int, b"-0", b"0"),
    (ColType::Int, b"+ 7", b"none"),
    (ColType::Int, b"+", b"none"),
    (ColType::Int, b"-", b"none"),
    (ColType::Int, b"", b"none"),
    (ColType::Int, b"1a", b"none"),
    (ColType::Int, b"1 2", b"none"),
    (ColType::Int, b"\t7", b"none"),
];

fn integers() -> &'static [Reading] {
    INTEGERS
}

#[test]
fn integers_are_read_by_their_type(rt: HostRuntime) -> Result<(), Fail> {
    are_read(&rt, rt.alloc(), integers())
}

const DATES: &[Reading] = &[
    (ColType::Date, b"2024-02-29", b"2024-02-29"),
    (ColType::Date, b"2023-02-29", b"none"),
    (ColType::Date, b"1900-02-29", b"none"),
    (ColType::Date, b"2000-02-29", b"2000-02-29"),
    (ColType::Date, b"0000-01-01", b"0000-01-01"),
    (ColType::Date, b"9999-12-31", b"9999-12-31"),
    (ColType::Date, b" 2024-04-30 ", b"2024-04-30"),
    (ColType::Date, b"2024-04-31", b"none"),
    (ColType::Date, b"2024-13-01", b"none"),
    (ColType::Date, b"2024-1-01", b"none"),
    (ColType::Date, b"2024/01/01", b"none"),
    (ColType::Varchar(4), b" ab ", b" ab "),
    (ColType::Varchar(4), b"abcde", b"none"),
    (ColType::Varchar(4), b"\xc3\xa9 \xc3\xa9", b"none"),
    (ColType::Varchar(4), b"\xff", b"none"),
    (
        ColType::Varchar(30),
        b"a text of more than 22 bytes",
        b"a text of more than 22 bytes",
    ),
];

fn dates() -> &'static [Reading] {
    DATES
}

#[test]
fn dates_and_texts_are_read_by_their_type(rt: HostRuntime) -> Result<(), Fail> {
    are_read(&rt, rt.alloc(), dates())
}

fn row(alloc: Global, of: &[Option<i64>]) -> Result<Row, NoMemory> {
    let mut row = Row::with_room(alloc, of.len())?;
    for one in of {
        row.push(cell(*one))?;
    }
    Ok(row)
}

fn order(alloc: Global, a: &[Option<i64>], b: &[Option<i64>]) -> Result<Ordering, NoMemory> {
    let a = row(alloc, a)?;
    let b = row(alloc, b)?;
    Ok(compare_rows(&a, &b))
}

fn order_of_copy(alloc: Global, of: &[Option<i64>]) -> Result<Ordering, NoMemory> {
    let row = row(alloc, of)?;
    let copy = copy_row(alloc, &row)?;
    Ok(compare_rows(&row, &copy))
}

#[test]
fn rows_are_ordered_by_their_first_difference(rt: HostRuntime) -> Result<(), Fail> {
    let low = [None, Some(9)];
    let high = [Some(-5)];
    assert!(rt; order(rt.alloc(), &low, &high)? == Ordering::Less);
    assert!(rt; order(rt.alloc(), &high, &low)? == Ordering::Greater);
    assert!(rt; order_of_copy(rt.alloc(), &low)? == Ordering::Equal);
    Ok(())
}

// The row of a text and a day.
fn second(alloc: Global) -> Result<Row, NoMemory> {
    let mut row = Row::new(alloc);
    row.push(Cell::Text(Text::new(alloc, b"of the second row")?))?;
    row.push(Cell::Day(20_240_229))?;
    Ok(row)
}

// Appends a row, and tells whether no cell is left in it.
fn is_appended(rows: &mut Rows, mut row: Row) -> Result<bool, NoMemory> {
    rows.append(&mut row)?;
    Ok(row.cells().is_empty())
}

// Rows of no cell, of two cells and of one; none where a row that was appended has cells left.
fn three(alloc: Global) -> Result<Rows, NoMemory> {
    let mut rows = Rows::new(alloc);
    if !is_appended(&mut rows, Row::new(alloc))? || !is_appended(&mut rows, second(alloc)?)? {
        return Ok(Rows::new(alloc));
    }
    let third = row(alloc, &[Some(3)])?;
    rows.push_copy(alloc, third.cells())?;
    Ok(rows)
}

fn are_of_widths(rows: &Rows) -> bool {
    rows.len() == 3 && rows.row(0).is_empty() && rows.row(1).len() == 2 && rows.row(2).len() == 1
}

fn text_of_second(alloc: Global, rows: &Rows) -> Result<Vec<u8>, NoMemory> {
    let mut text = Vec::new(alloc);
    if rows.len() > 1 {
        for cell in rows.row(1) {
            write_cell(cell, &mut text)?;
        }
    }
    Ok(text)
}

#[test]
fn rows_of_any_width_stand_side_by_side(rt: HostRuntime) -> Result<(), Fail> {
    let rows = three(rt.alloc())?;
    assert!(rt; are_of_widths(&rows));
    let text = text_of_second(rt.alloc(), &rows)?;
    assert!(rt; text.as_slice() == b"of the second row2024-02-29".as_slice());
    Ok(())
}

fn is_name_of(alloc: Global, one: &[u8], other: &[u8]) -> Result<bool, NoMemory> {
    let one = Name::new(alloc, one)?;
    let other = Name::new(alloc, other)?;
    Ok(one == other)
}

fn is_its_copy(alloc: Global, of: &[u8]) -> Result<bool, NoMemory> {
    let name = Name::new(alloc, of)?;
    let copy = name.copy(alloc)?;
    Ok(name == copy)
}

#[test]
fn names_are_compared_exactly(rt: HostRuntime) -> Result<(), Fail> {
    assert!(rt; is_its_copy(rt.alloc(), b"Orders")?);
    assert!(rt; !is_name_of(rt.alloc(), b"Orders", b"orders")?);
    Ok(())
}

// The text of the cells of a row, each with a comma behind it.
fn text_of(alloc: Global, row: &RowView) -> Result<Vec<u8>, NoMemory> {
    let mut text = Vec::new(alloc);
    for column in 0..row.len() {
        write_cell(row.cell(column), &mut text)?;
        text.push(b',')?;
    }
    Ok(text)
}

fn is_written(alloc: Global, view: &RowView, wanted: &[u8]) -> Result<bool, NoMemory> {
    let text = text_of(alloc, view)?;
    Ok(text.as_slice() == wanted)
}

// In how many rows the numbers from 1 to 6 stand column after column, which of them is looked at, and its text.
type Look = (usize, usize, &'static [u8]);

const LOOKS: &[Look] = &[
    (1, 0, b"1,2,3,4,5,6,"),
    (2, 0, b"1,3,5,"),
    (2, 1, b"2,4,6,"),
    (3, 1, b"2,5,"),
    (6, 0, b"1,"),
    (6, 5, b"6,"),
];

fn looks() -> &'static [Look] {
    LOOKS
}

fn numbers(alloc: Global) -> Result<Row, NoMemory> {
    let mut row = Row::new(alloc);
    for number in 1..7 {
        row.push(Cell::Int(number))?;
    }
    Ok(row)
}

fn is_across(alloc: Global, row: &Row, of: &Look) -> Result<bool, NoMemory> {
    let (rows, at, wanted) = of;
    if *rows == 0 || *at >= *rows || row.cells().len() % *rows != 0 {
        return Ok(false);
    }
    is_written(alloc, &RowView::across(row.cells(), *rows, *at), wanted)
}

#[test]
fn a_row_is_looked_at_side_by_side_and_column_after_column(rt: HostRuntime) -> Result<(), Fail> {
    let row = numbers(rt.alloc())?;
    assert!(rt; is_written(rt.alloc(), &RowView::of(&row), b"1,2,3,4,5,6,")?);
    for look in looks() {
        assert!(rt;
            is_across(rt.alloc(), &row, look)?,
            "{} of {}",
            look.1,
            look.0
        );
    }
    assert!(rt; RowView::across(&[], 4, 3).len() == 0);
    Ok(())
}

// Whether a row that was cleared has no cells, and then what it takes.
fn is_cleared(alloc: Global, mut row: Row, wanted: &[u8]) -> Result<bool, NoMemory> {
    row.clear();
    let none = row.cells().is_empty();
    row.push(Cell::Int(2))?;
    Ok(none && is_written(alloc, &RowView::of(&row), wanted)?)
}

#[test]
fn a_row_that_was_cleared_takes_other_cells(rt: HostRuntime) -> Result<(), Fail> {
    let row = row(rt.alloc(), &[Some(1)])?;
    assert!(rt; is_cleared(rt.alloc(), row, b"2,")?);
    Ok(())
}

// The number of a name where `orders` has 1 and `Orders` has 2.
fn number_of(alloc: Global, name: &[u8]) -> Result<Option<u32>, NoMemory> {
    let mut numbers = HashMap::new(alloc);
    let _ = numbers.insert(Name::new(alloc, b"orders")?, 1)?;
    let _ = numbers.insert(Name::new(alloc, b"Orders")?, 2)?;
    let name = Name::new(alloc, name)?;
    Ok(numbers.get(&name).copied())
}

#[test]
fn a_name_is_found_by_its_hash(rt: HostRuntime) -> Result<(), Fail> {
    assert!(rt; number_of(rt.alloc(), b"orders")? == Some(1));
    assert!(rt; number_of(rt.alloc(), b"order")? == None);
    Ok(())
}

// A type, digits, and the number that they are read as at once.
type Digits = (ColType, &'static [u8], Option<i64>);

const DIGITS: &[Digits] = &[
    (ColType::TinyInt, b"127", Some(127)),
    (ColType::TinyInt, b"128", None),
    (ColType::SmallInt, b"32767", Some(32_767)),
    (ColType::SmallInt, b"32768", None),
    (ColType::Int, b"0", Some(0)),
    (ColType::Int, b"007", Some(7)),
    (ColType::Int, b"2147483647", Some(2_147_483_647)),
    (ColType::Int, b"2147483648", None),
    (
        ColType::BigInt,
        b"999999999999999999",
        Some(999_999_999_999_999_999),
    ),
    (ColType::BigInt, b"1000000000000000000", None),
    (ColType::Int, b"-7", None),
    (ColType::Int, b"", None),
    (ColType::Int, b"7a", None),
    (ColType::Int, b" 7", None),
    (ColType::Date, b"20240229", None),
    (ColType::Varchar(9), b"7", None),
];

fn digits() -> &'static [Digits] {
    DIGITS
}

#[test]
fn digits_alone_are_read_as_by_the_type(rt: HostRuntime) {
    for (place, (kind, text, wanted)) in digits().iter().enumerate() {
        assert!(rt; kind.plain_int(text) == *wanted, "case {place}");
    }
}
