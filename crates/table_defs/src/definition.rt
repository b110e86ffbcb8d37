// What a definition gives.
ghost use Rattle.std.specs.Prelude.{◌≡◌, ◌⊎◌, IfOk, IfErr, Some, None};
ghost use Rattle.std.specs.List.{list_any};
ghost use Rattle.std.specs.Option.{option_map};
ghost use Rattle.partitions.specs.LayoutFaults.{layout_fault};
ghost use Rattle.partitions.specs.declared.layout_error.LayoutError.TheVariants as layout_error;
ghost use Rattle.schema_models.specs.ShapeRules.{shape_fault};
ghost use Rattle.table_defs.specs.Columns as columns;
ghost use Rattle.table_defs.specs.Defined as defined;
ghost use Rattle.table_defs.specs.Parts.{buckets_of, parts_of};
ghost use Rattle.table_defs.specs.declared.def_error.DefError.TheVariants as def_error;

use crate::DefError;
use crate::columns::{columns_of, keys_of, model_of};
use crate::keys::{key_differs, key_with_kind};
use crate::parts::{buckets_of, parts_of};
use dl_values::{Name, NoMemory};
use partitions::{Layout, LayoutError};
use schema_models::{Shape, ShapeError};
use sql_text::{Property, TableDef};
use sqlite_items::Items;
use std::alloc::Global;

fn is_bad(property: &Property) -> bool
    ensures { result ≡ defined.is_bad property.now }
{
    property.name.bytes() == b"enable_unique_key_merge_on_write".as_slice()
        && property.value.bytes() != b"false".as_slice()
}

fn has_bad(properties: &[Property]) -> bool
    ensures { result ≡ list_any defined.is_bad properties.now }
{
    for property in properties {
        if is_bad(property) {
            return true;
        }
    }
    false
}

fn copy_names(alloc: Global, names: &[Name]) -> Result<Items<Name>, NoMemory>
    ensures { IfOk result (λ v. v ≡ names.now) }
{
    let mut all = Items::new(alloc);
    for name in names {
        all.push(name.copy(alloc)?)?;
    }
    Ok(all)
}

// What is wrong with the key clause.
fn key_fault(def: &TableDef) -> Option<ShapeError>
    ensures { result ≡ defined.key_fault def.now }
{
    if let Some(column) = key_differs(&def.key, def.columns.as_slice()) {
        return Some(ShapeError::KeyAfterValue { column });
    }
    match key_with_kind(def) {
        Some(column) => Some(ShapeError::BadAgg { column }),
        None => None,
    }
}

// The shape of a definition whose key clause is right, or the fault of its columns.
fn shape_of(alloc: Global, def: &TableDef) -> Result<Shape, DefError>
    ensures built { IfOk result (λ s. (s ≡ columns.shape_of def.now) × (defined.columns_fault def.now ≡ None)) }
    ensures refused { IfErr result (λ e. (e ≡ def_error.NoMemory) ⊎ (defined.columns_fault def.now ≡ Some e)) }
{
    let list = match columns_of(alloc, keys_of(&def.key), def.columns.as_slice()) {
        Ok(list) => list,
        Err(NoMemory) => return Err(DefError::NoMemory),
    };
    match Shape::build(model_of(&def.key), list) {
        Ok(shape) => Ok(shape),
        Err(fault) => Err(DefError::Shape(fault)),
    }
}

fn layout_error(error: LayoutError) -> DefError
    ensures { result ≡ defined.layout_error error }
{
    match error {
        LayoutError::NoMemory => DefError::NoMemory,
        error => DefError::Layout(error),
    }
}

// The layout of a definition for rows of its shape, or its fault.
fn layout_of(alloc: Global, table: &Name, def: &TableDef, shape: &Shape) -> Result<Layout, DefError>
    requires { shape.now ≡ columns.shape_of def.now }
    ensures built { IfOk result (λ l. (l ≡ defined.layout_of table.now def.now) × (defined.layout_faults table.now def.now ≡ None)) }
    ensures refused { IfErr result (λ e. (e ≡ def_error.NoMemory) ⊎ (defined.layout_faults table.now def.now ≡ Some e)) }
{
    let parts = match parts_of(alloc, table, shape.columns(), &def.ranges) {
        Ok(parts) => parts,
        Err(NoMemory) => return Err(DefError::NoMemory),
    };
    let hash = match copy_names(alloc, def.hash.as_slice()) {
        Ok(hash) => hash,
        Err(NoMemory) => return Err(DefError::NoMemory),
    };
    match Layout::build(alloc, shape, parts, hash, buckets_of(def.buckets)) {
        Ok(layout) => Ok(layout),
        Err(error) => Err(layout_error(error)),
    }
}

/// The shape and the layout of a table's definition, or its first refusal: of the key clause, of the columns, of the layout,
/// and of the properties. Comments and the engine are no part of it.
pub fn define(alloc: Global, table: &Name, def: &TableDef) -> Result<(Shape, Layout), DefError>
    ensures shape { IfOk result (λ p. p.0 ≡ columns.shape_of def.now) }
    ensures layout { IfOk result (λ p. p.1 ≡ defined.layout_of table.now def.now) }
    ensures right { IfOk result (λ p. defined.def_fault table.now def.now ≡ None) }
    ensures refused { IfErr result (λ e. (e ≡ def_error.NoMemory) ⊎ (defined.def_fault table.now def.now ≡ Some e)) }
{
    if let Some(fault) = key_fault(def) {
        return Err(DefError::Shape(fault));
    }
    let shape = shape_of(alloc, def)?;
    let layout = layout_of(alloc, table, def, &shape)?;
    if has_bad(def.properties.as_slice()) {
        return Err(DefError::BadProperty);
    }
    Ok((shape, layout))
}
