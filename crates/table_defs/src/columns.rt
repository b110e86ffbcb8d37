// The columns of a definition.
ghost use Rattle.std.specs.Prelude.{◌≡◌, IfOk};
ghost use Rattle.table_defs.specs.Columns as columns;

use crate::literals::value_cell;
use dl_values::{AggKind, Cell, ColType, NoMemory};
use schema_models::{ColumnDef, Model, Role};
use sql_text::{ColumnText, ColumnType, DefaultText, KeyClause};
use std::alloc::Global;

// The model of a key clause.
pub fn model_of(key: &Option<KeyClause>) -> Model
    ensures { result ≡ columns.model_of key.now }
{
    match key {
        None => Model::Duplicate,
        Some(key) => key.model,
    }
}

// How many of the first columns are keys.
pub fn keys_of(key: &Option<KeyClause>) -> usize
    ensures { result ≡ columns.keys_of key.now }
{
    match key {
        None => 1,
        Some(key) => key.names.as_slice().len(),
    }
}

fn kind_of(written: ColumnType) -> ColType
    ensures { result ≡ columns.kind_of written }
{
    match written {
        ColumnType::TinyInt => ColType::TinyInt,
        ColumnType::SmallInt => ColType::SmallInt,
        ColumnType::Int => ColType::Int,
        ColumnType::BigInt => ColType::BigInt,
        ColumnType::Date => ColType::Date,
        ColumnType::Varchar(most) => ColType::Varchar(most.min(4294967295) as u32),
    }
}

fn value_role(kind: Option<AggKind>) -> Role
    ensures { result ≡ columns.value_role kind }
{
    match kind {
        None => Role::Plain,
        Some(kind) => Role::Agg(kind),
    }
}

fn default_of(
    alloc: Global,
    kind: ColType,
    default: &Option<DefaultText>,
) -> Result<Option<Cell>, NoMemory>
    ensures { IfOk result (λ c. c ≡ columns.default_of kind default.now) }
{
    match default {
        None => Ok(None),
        Some(DefaultText::Null) => Ok(Some(Cell::Null)),
        Some(DefaultText::Value(literal)) => Ok(Some(value_cell(alloc, kind, literal)?)),
    }
}

fn column_as(alloc: Global, role: Role, column: &ColumnText) -> Result<ColumnDef, NoMemory>
    ensures { IfOk result (λ c. c ≡ columns.column_as role column.now) }
{
    let kind = kind_of(column.kind);
    let name = column.name.copy(alloc)?;
    let default = default_of(alloc, kind, &column.default)?;
    Ok(ColumnDef {
        name,
        kind,
        nullable: column.nullable,
        role,
        default,
    })
}

// The part of a column before which so many keys are still to come.
fn role_of(keys: usize, column: &ColumnText) -> Role
    ensures { result ≡ columns.role_of keys column.now }
{
    if keys > 0 {
        return Role::Key;
    }
    value_role(column.agg)
}

// The columns of a definition, of which so many are keys.
pub fn columns_of(
    alloc: Global,
    keys: usize,
    list: &[ColumnText],
) -> Result<Vec<ColumnDef>, NoMemory>
    ensures { IfOk result (λ v. v.items ≡ columns.columns_of keys list.now) }
{
    let mut all = Vec::with_capacity(alloc, list.len())?;
    let mut left = keys;
    for column in list {
        all.push(column_as(alloc, role_of(left, column), column)?)?;
        left = left.saturating_sub(1);
    }
    Ok(all)
}
