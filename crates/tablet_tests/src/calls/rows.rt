// Shapes, and rowsets of rows that are given as text.
use columnar::are_of_shape;
use dl_values::{AggKind, Cell, ColType, Name, NoMemory, Row, Rows};
use rowsets::Rowset;
use schema_models::{ColumnDef, Model, Role, Shape};
use std::alloc::Global;
use std::sync::Arc;
use std::test::Fail;

fn column(alloc: Global, name: &str, kind: ColType, role: Role) -> Result<ColumnDef, NoMemory> {
    Ok(ColumnDef {
        name: Name::new(alloc, name.as_bytes())?,
        kind,
        nullable: true,
        role,
        default: None,
    })
}

fn shape_of(columns: Vec<ColumnDef>) -> Result<Shape, Fail> {
    match Shape::build(Model::Aggregate, columns) {
        Ok(shape) => Ok(shape),
        Err(_) => Err("no shape".into()),
    }
}

// `k INT KEY`.
pub fn key_shape(alloc: Global) -> Result<Shape, Fail> {
    let mut columns = Vec::new(alloc);
    columns.push(column(alloc, "k", ColType::Int, Role::Key)?)?;
    shape_of(columns)
}

// `k INT KEY, v BIGINT SUM`.
pub fn shape(alloc: Global) -> Result<Shape, Fail> {
    let mut columns = Vec::new(alloc);
    columns.push(column(alloc, "k", ColType::Int, Role::Key)?)?;
    columns.push(column(alloc, "v", ColType::BigInt, Role::Agg(AggKind::Sum))?)?;
    shape_of(columns)
}

fn cell(alloc: Global, kind: ColType, text: &str) -> Result<Cell, Fail> {
    match kind.read(alloc, text.as_bytes()) {
        Ok(cell) => Ok(cell),
        Err(_) => Err("no cell".into()),
    }
}

fn row(alloc: Global, shape: &Shape, line: &str) -> Result<Row, Fail> {
    let mut row = Row::new(alloc);
    for (column, text) in shape.columns().iter().zip(line.split(',')) {
        row.push(cell(alloc, column.kind, text)?)?;
    }
    Ok(row)
}

// A rowset of a line a row, cells apart by commas.
pub fn rowset(alloc: Global, shape: &Shape, text: &str) -> Result<Arc<Rowset>, Fail> {
    let mut rows = Rows::new(alloc);
    for line in text.lines() {
        rows.push(row(alloc, shape, line)?)?;
    }
    if !are_of_shape(shape, &rows) {
        return Err("no rows of the shape".into());
    }
    Ok(Rowset::build(alloc, shape, rows)?)
}
