// Shapes of a table in few words.
use dl_values::{ColType, Name, NoMemory};
use schema_models::{ColumnDef, Model, Role, Shape};
use std::alloc::Global;
use std::test::Fail;

/// A column by its name, its type and its role; it may be null and has no default.
pub type Column = (&'static str, ColType, Role);

fn column(alloc: Global, of: &Column) -> Result<ColumnDef, NoMemory> {
    let (name, kind, role) = of;
    Ok(ColumnDef {
        name: Name::new(alloc, name.as_bytes())?,
        kind: *kind,
        nullable: true,
        role: *role,
        default: None,
    })
}

fn columns(alloc: Global, of: &[Column]) -> Result<Vec<ColumnDef>, NoMemory> {
    let mut columns = Vec::new(alloc);
    for one in of {
        columns.push(column(alloc, one)?)?;
    }
    Ok(columns)
}

/// The shape of a model and columns that are one.
pub fn shape(alloc: Global, model: Model, of: &[Column]) -> Result<Shape, Fail> {
    match Shape::build(model, columns(alloc, of)?) {
        Ok(shape) => Ok(shape),
        Err(_) => Err("no shape".into()),
    }
}
