// The bodies that answer statements which were taken.
use dl_values::{Cell, NoMemory, ResultSet, Row, Rows, Text};
use reply_json::{render_done, render_result};
use std::alloc::Global;
use std::test::Fail;

// A result without rows, of these columns.
fn columns(alloc: Global, table: [(&[u8], &[u8]); 4]) -> Result<ResultSet, NoMemory> {
    let mut names = Vec::new(alloc);
    let mut types = Vec::new(alloc);
    for (name, kind) in table {
        names.push(Text::new(alloc, name)?)?;
        types.push(Text::new(alloc, kind)?)?;
    }
    Ok(ResultSet {
        names,
        types,
        rows: Rows::new(alloc),
    })
}

// A row of one cell of each kind.
fn row(alloc: Global, number: i64, day: u32, text: &[u8]) -> Result<Row, NoMemory> {
    let mut row = Row::new(alloc);
    row.push(Cell::Int(number))?;
    row.push(Cell::Null)?;
    row.push(Cell::Day(day))?;
    row.push(Cell::Text(Text::new(alloc, text)?))?;
    Ok(row)
}

#[test]
fn cells_are_numbers_strings_or_null(rt: HostRuntime) -> Result<(), Fail> {
    let alloc = rt.alloc();
    let mut set = columns(
        alloc,
        [
            (b"k", b"BIGINT"),
            (b"sum(v)", b"BIGINT"),
            (b"d", b"DATE"),
            (b"t", b"VARCHAR"),
        ],
    )?;
    let empty = render_result(alloc, &set)?;
    let wanted =
        r#"{"code":0,"data":{"data":[],"meta":[{"name":"k","type":"BIGINT"},{"name":"sum(v)","type":"BIGINT"},{"name":"d","type":"DATE"},{"name":"t","type":"VARCHAR"}],"type":"result_set"},"msg":"success"}"#;
    assert_eq!(rt; empty.as_slice(), wanted.as_bytes());
    set.rows.push(row(alloc, 9_223_372_036_854_775_807, 20_240_229, b"a\"b")?)?;
    set.rows
        .push(row(alloc, -9_223_372_036_854_775_808, 101, b"null")?)?;
    set.rows.push(Row::new(alloc))?;
    let bytes = render_result(alloc, &set)?;
    let wanted =
        r#"{"code":0,"data":{"data":[[9223372036854775807,null,"2024-02-29","a\"b"],[-9223372036854775808,null,"0000-01-01","null"],[]],"meta":[{"name":"k","type":"BIGINT"},{"name":"sum(v)","type":"BIGINT"},{"name":"d","type":"DATE"},{"name":"t","type":"VARCHAR"}],"type":"result_set"},"msg":"success"}"#;
    assert_eq!(rt; bytes.as_slice(), wanted.as_bytes());
    Ok(())
}

#[test]
fn done_is_56_bytes(rt: HostRuntime) -> Result<(), Fail> {
    let bytes = render_done(rt.alloc())?;
    let wanted = r#"{"code":0,"data":{"type":"exec_status"},"msg":"success"}"#;
    assert_eq!(rt; bytes.as_slice(), wanted.as_bytes());
    assert_eq!(rt; bytes.as_slice().len(), 56);
    Ok(())
}
