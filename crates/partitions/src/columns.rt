// Columns by their names.
ghost use Rattle.std.specs.Prelude.{◌≡◌, IfOk};
ghost use Rattle.schema_models.specs.CellsByName as by_name;
ghost use Rattle.partitions.specs.Columns as columns;

use dl_values::{ColType, Name, NoMemory};
use schema_models::{ColumnDef, Role};
use sqlite_items::Items;
use std::alloc::Global;

// The names of columns, in their order.
pub fn names_of(alloc: Global, defs: &[ColumnDef]) -> Result<Items<Name>, NoMemory>
    ensures { IfOk result (λ v. v ≡ by_name.names_of defs.now) }
{
    let mut all = Items::new(alloc);
    for column in defs {
        all.push(column.name.copy(alloc)?)?;
    }
    Ok(all)
}

// The type of the column with this name.
pub fn type_under(defs: &[ColumnDef], name: &Name) -> Option<ColType>
    ensures { result ≡ columns.type_under defs.now name.now }
{
    for column in defs {
        if column.name == *name {
            return Some(column.kind);
        }
    }
    None
}

// The type of the column with this name, where there is a name.
pub fn type_of(defs: &[ColumnDef], name: &Option<Name>) -> Option<ColType>
    ensures { result ≡ columns.type_of defs.now name.now }
{
    match name {
        None => None,
        Some(name) => type_under(defs, name),
    }
}

// Names of their own.
pub fn copy_names(alloc: Global, names: &[Name]) -> Result<Items<Name>, NoMemory>
    ensures { IfOk result (λ v. v ≡ names.now) }
{
    let mut all = Items::new(alloc);
    for name in names {
        all.push(name.copy(alloc)?)?;
    }
    Ok(all)
}

// A name of its own, where there is one.
pub fn copy_name(alloc: Global, name: &Option<Name>) -> Result<Option<Name>, NoMemory>
    ensures { IfOk result (λ c. c ≡ name.now) }
{
    match name {
        None => Ok(None),
        Some(name) => Ok(Some(name.copy(alloc)?)),
    }
}

// Whether one of these columns has the name.
pub fn is_column_name(defs: &[ColumnDef], name: &Name) -> bool
    ensures { result ≡ columns.is_column_name defs.now name.now }
{
    defs.iter().any(|column| column.name == *name)
}

// Whether one of the first columns, which are keys, has the name.
pub fn is_key_name(defs: &[ColumnDef], name: &Name) -> bool
    ensures { result ≡ columns.is_key_name defs.now name.now }
{
    for column in defs {
        if !matches!(column.role, Role::Key) {
            return false;
        }
        if column.name == *name {
            return true;
        }
    }
    false
}
