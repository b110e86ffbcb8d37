// Rows and shapes of a key and a value in few words.
use dl_values::{Cell, ColType, Name, NoMemory, Row, Rows, Text, compare_slices};
use schema_models::{ColumnDef, Model, Role, Shape};
use std::alloc::Global;
use std::cmp::Ordering;
use std::test::Fail;

/// A key and a value; none is null.
pub type Pair = (Option<i64>, Option<i64>);

/// A text as a key, where none is null, and a value.
pub type TextPair = (Option<&'static [u8]>, i64);

/// The cell of a number; none is null.
pub fn cell(value: Option<i64>) -> Cell {
    match value {
        Some(value) => Cell::Int(value),
        None => Cell::Null,
    }
}

fn column(alloc: Global, name: &[u8], kind: ColType, role: Role) -> Result<ColumnDef, NoMemory> {
    Ok(ColumnDef {
        name: Name::new(alloc, name)?,
        kind,
        nullable: true,
        role,
        default: None,
    })
}

fn columns(alloc: Global, key: ColType, role: Role) -> Result<Vec<ColumnDef>, NoMemory> {
    let mut columns = Vec::new(alloc);
    for (name, kind, role) in [(b"k", key, Role::Key), (b"v", ColType::BigInt, role)] {
        columns.push(column(alloc, name, kind, role)?)?;
    }
    Ok(columns)
}

/// A shape of a key `k` of a type and a BIGINT value `v`.
pub fn shape(alloc: Global, model: Model, key: ColType, role: Role) -> Result<Shape, Fail> {
    match Shape::build(model, columns(alloc, key, role)?) {
        Ok(shape) => Ok(shape),
        Err(_) => Err("no shape".into()),
    }
}

fn row_of(alloc: Global, key: Cell, value: Option<i64>) -> Result<Row, NoMemory> {
    let mut row = Row::new(alloc);
    row.push(key)?;
    row.push(cell(value))?;
    Ok(row)
}

/// A row of a key and a value.
pub fn row(alloc: Global, of: &Pair) -> Result<Row, NoMemory> {
    row_of(alloc, cell(of.0), of.1)
}

/// Rows of a key and a value each.
pub fn rows(alloc: Global, of: &[Pair]) -> Result<Rows, NoMemory> {
    let mut rows = Rows::new(alloc);
    for one in of {
        rows.push(row(alloc, one)?)?;
    }
    Ok(rows)
}

fn text_cell(alloc: Global, text: Option<&[u8]>) -> Result<Cell, NoMemory> {
    match text {
        Some(text) => Ok(Cell::Text(Text::new(alloc, text)?)),
        None => Ok(Cell::Null),
    }
}

/// Rows of a text and a value each.
pub fn rows_of_texts(alloc: Global, of: &[TextPair]) -> Result<Rows, NoMemory> {
    let mut rows = Rows::new(alloc);
    for (text, value) in of {
        rows.push(row_of(alloc, text_cell(alloc, *text)?, Some(*value))?)?;
    }
    Ok(rows)
}

/// Whether both have the same rows.
pub fn are_same(a: &Rows, b: &Rows) -> bool {
    if a.len() != b.len() {
        return false;
    }
    for place in 0..a.len() {
        if compare_slices(a.row(place), b.row(place)) != Ordering::Equal {
            return false;
        }
    }
    true
}
