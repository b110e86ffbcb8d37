// What may be wrong with a layout.
ghost use Rattle.std.specs.Prelude.{◌≡◌, ◌++◌, [], find, not, length, nat_le, IfOk};
ghost use Rattle.std.specs.List.{list_all};
ghost use Rattle.std.specs.Option.{option_copied, option_map};
ghost use Rattle.partitions.specs.LayoutFaults as faults;
ghost use Rattle.partitions.specs.LayoutView.{LayoutView};
ghost use Rattle.partitions.specs.Ranges as ranges;
ghost use Rattle.partitions.specs.declared.layout_error.LayoutError.TheVariants as layout_error;
ghost use Rattle.schema_models.specs.Faults.{first_of, refuse_if};
ghost use Rattle.schema_models.specs.Names as names;

use crate::columns::{is_column_name, is_key_name, type_of, type_under};
use crate::part_def::copy_part;
use crate::ranges::{are_apart, are_bounds, ranged, ranges_type, with_range};
use crate::{LayoutError, PartDef};
use dl_values::{ColType, Name};
use schema_models::{ColumnDef, Model, Shape, is_name};
use sqlite_items::Items;
use std::alloc::Global;

// The first of these names that no column has.
fn unknown_in<'a>(columns: &[ColumnDef], names: &'a [Name]) -> Option<&'a Name>
    ensures { option_copied result ≡ faults.unknown_in columns.now names.now }
{
    names.iter().find(|name| !is_column_name(columns, name))
}

// The first of a partition column and distribution columns that is no column of the table.
fn no_column_in<'a>(
    columns: &[ColumnDef],
    column: &'a Option<Name>,
    hash: &'a [Name],
) -> Option<&'a Name>
    ensures { option_copied result ≡ faults.unknown_in columns.now (faults.with_column column.now hash.now) }
{
    match column {
        None => unknown_in(columns, hash),
        Some(name) => {
            if is_column_name(columns, name) {
                unknown_in(columns, hash)
            } else {
                Some(name)
            }
        }
    }
}

// Whether a column may be a partition column.
fn may_part(columns: &[ColumnDef], name: &Name) -> bool
    ensures { result ≡ faults.may_part columns.now name.now }
{
    is_key_name(columns, name) && ranges_type(type_under(columns, name))
}

// Whether a column may be a distribution column.
fn may_hash(model: Model, columns: &[ColumnDef], name: &Name) -> bool
    ensures { result ≡ faults.may_hash model columns.now name.now }
{
    match model {
        Model::Duplicate => is_column_name(columns, name),
        Model::Unique | Model::Aggregate => is_key_name(columns, name),
    }
}

// The first of these names that may be no distribution column.
fn no_hash_in<'a>(shape: &Shape, names: &'a [Name]) -> Option<&'a Name>
    ensures { option_copied result ≡ faults.no_hash_in shape.now names.now }
{
    names
        .iter()
        .find(|name| !may_hash(shape.model(), shape.columns(), name))
}

// The first of a partition column and distribution columns that may not be one.
fn no_key_in<'a>(shape: &Shape, column: &'a Option<Name>, hash: &'a [Name]) -> Option<&'a Name>
    ensures { option_copied result ≡ faults.no_key_in shape.now column.now hash.now }
{
    match column {
        None => no_hash_in(shape, hash),
        Some(name) => {
            if may_part(shape.columns(), name) {
                no_hash_in(shape, hash)
            } else {
                Some(name)
            }
        }
    }
}

fn test_columns(
    alloc: Global,
    columns: &[ColumnDef],
    column: &Option<Name>,
    hash: &[Name],
) -> Result<(), LayoutError>
    ensures { faults.Tests (option_map layout_error.NoColumn (faults.unknown_in columns.now (faults.with_column column.now hash.now))) result }
{
    match no_column_in(columns, column, hash) {
        None => Ok(()),
        Some(name) => Err(LayoutError::NoColumn {
            column: name.copy(alloc)?,
        }),
    }
}

fn test_keys(
    alloc: Global,
    shape: &Shape,
    column: &Option<Name>,
    hash: &[Name],
) -> Result<(), LayoutError>
    ensures { faults.Tests (option_map layout_error.NotAKey (faults.no_key_in shape.now column.now hash.now)) result }
{
    match no_key_in(shape, column, hash) {
        None => Ok(()),
        Some(name) => Err(LayoutError::NotAKey {
            column: name.copy(alloc)?,
        }),
    }
}

fn test_buckets(buckets: u32) -> Result<(), LayoutError>
    ensures { faults.Tests (refuse_if (not (faults.are_buckets buckets)) layout_error.BadBuckets) result }
{
    if 1 <= buckets && buckets <= 64 {
        Ok(())
    } else {
        Err(LayoutError::BadBuckets)
    }
}

// The first partition whose bounds are no range of its column's type.
fn bad_bounds_in(kind: Option<ColType>, parts: &[PartDef]) -> Option<&PartDef>
    ensures { option_copied result ≡ find (λ p. not (ranges.are_bounds kind p.bounds)) parts.now }
{
    parts.iter().find(|part| !are_bounds(kind, &part.bounds))
}

fn test_bounds(alloc: Global, kind: Option<ColType>, parts: &[PartDef]) -> Result<(), LayoutError>
    ensures { faults.Tests (option_map layout_error.BadBound (faults.first_with (λ p. not (ranges.are_bounds kind p.bounds)) parts.now)) result }
{
    match bad_bounds_in(kind, parts) {
        None => Ok(()),
        Some(part) => Err(LayoutError::BadBound {
            partition: part.name.copy(alloc)?,
        }),
    }
}

// The first partition whose name is no name.
fn bad_name_in(parts: &[PartDef]) -> Option<&PartDef>
    ensures { option_copied result ≡ find (λ p. not (names.is_name p.name)) parts.now }
{
    parts.iter().find(|part| !is_name(part.name.bytes()))
}

fn test_names(alloc: Global, parts: &[PartDef]) -> Result<(), LayoutError>
    ensures { faults.Tests (option_map layout_error.BadName (faults.first_with (λ p. not (names.is_name p.name)) parts.now)) result }
{
    match bad_name_in(parts) {
        None => Ok(()),
        Some(part) => Err(LayoutError::BadName {
            partition: part.name.copy(alloc)?,
        }),
    }
}

// Whether one of these partitions has the name of another.
pub fn is_named_in(before: &[PartDef], part: &PartDef) -> bool
    ensures { result ≡ faults.is_named_in before.now part.now }
{
    before.iter().any(|other| other.name == part.name)
}

// Whether these partitions have no value in common with another.
fn are_apart_from(before: &[PartDef], part: &PartDef) -> bool
    ensures { result ≡ list_all (λ q. ranges.are_apart q.bounds part.now.bounds) before.now }
{
    before
        .iter()
        .all(|other| are_apart(&other.bounds, &part.bounds))
}

// Whether one of these partitions has a value in common with another.
pub fn meets(before: &[PartDef], part: &PartDef) -> bool
    ensures { result ≡ faults.meets before.now part.now }
{
    !are_apart_from(before, part)
}

// The first partition that has the name of one before it.
fn first_double(parts: &[PartDef]) -> Option<&Name>
    ensures { option_copied result ≡ faults.first_beside faults.is_named_in [] parts.now }
{
    for (i, part) in parts.iter().enumerate() {
        if is_named_in(&parts[..i], part) {
            return Some(&part.name);
        }
    }
    None
}

// The first partition that has a value in common with one before it.
fn first_meeting(parts: &[PartDef]) -> Option<&Name>
    ensures { option_copied result ≡ faults.first_beside faults.meets [] parts.now }
{
    for (i, part) in parts.iter().enumerate() {
        if meets(&parts[..i], part) {
            return Some(&part.name);
        }
    }
    None
}

fn test_doubles(alloc: Global, parts: &[PartDef]) -> Result<(), LayoutError>
    ensures { faults.Tests (option_map layout_error.DoubleName (faults.first_beside faults.is_named_in [] parts.now)) result }
{
    match first_double(parts) {
        None => Ok(()),
        Some(name) => Err(LayoutError::DoubleName {
            partition: name.copy(alloc)?,
        }),
    }
}

fn test_overlaps(alloc: Global, parts: &[PartDef]) -> Result<(), LayoutError>
    ensures { faults.Tests (option_map layout_error.Overlap (faults.first_beside faults.meets [] parts.now)) result }
{
    match first_meeting(parts) {
        None => Ok(()),
        Some(name) => Err(LayoutError::Overlap {
            partition: name.copy(alloc)?,
        }),
    }
}

fn test_count(parts: &[PartDef]) -> Result<(), LayoutError>
    ensures { faults.Tests (refuse_if (not (nat_le (length parts.now) 1000)) layout_error.TooManyPartitions) result }
{
    if parts.len() <= 1000 {
        Ok(())
    } else {
        Err(LayoutError::TooManyPartitions)
    }
}

// What may be wrong with the columns, the buckets, and the partitions as they are written.
pub fn test_written(
    alloc: Global,
    shape: &Shape,
    column: &Option<Name>,
    parts: &[PartDef],
    hash: &[Name],
    buckets: u32,
) -> Result<(), LayoutError>
    ensures { faults.Tests (first_of (faults.written_faults shape.now column.now parts.now hash.now buckets)) result }
{
    test_columns(alloc, shape.columns(), column, hash)?;
    test_keys(alloc, shape, column, hash)?;
    test_buckets(buckets)?;
    test_bounds(alloc, type_of(shape.columns(), column), parts)?;
    test_names(alloc, parts)?;
    test_doubles(alloc, parts)
}

// What may be wrong with the partitions with their ranges.
pub fn test_ranged(alloc: Global, parts: &[PartDef]) -> Result<(), LayoutError>
    ensures { faults.Tests (first_of (faults.ranged_faults parts.now)) result }
{
    test_overlaps(alloc, parts)?;
    test_count(parts)
}

// What may be wrong with a partition that is added, as it is written.
pub fn test_part(
    alloc: Global,
    column: &Option<Name>,
    kind: Option<ColType>,
    parts: &[PartDef],
    part: &PartDef,
) -> Result<(), LayoutError>
    ensures { (l : LayoutView) → l.column ≡ column.now → l.kind ≡ kind → l.parts ≡ parts.now → faults.Tests (first_of (faults.part_faults l part.now)) result }
{
    if column.is_none() {
        return Err(LayoutError::NotPartitioned);
    }
    let partition = part.name.copy(alloc)?;
    if !are_bounds(kind, &part.bounds) {
        return Err(LayoutError::BadBound { partition });
    }
    if !is_name(part.name.bytes()) {
        return Err(LayoutError::BadName { partition });
    }
    if is_named_in(parts, part) {
        return Err(LayoutError::DoubleName { partition });
    }
    Ok(())
}

// What may be wrong with a partition with its range beside the others.
pub fn test_room(alloc: Global, parts: &[PartDef], part: &PartDef) -> Result<(), LayoutError>
    ensures { faults.Tests (first_of (faults.room_faults parts.now part.now)) result }
{
    if meets(parts, part) {
        return Err(LayoutError::Overlap {
            partition: part.name.copy(alloc)?,
        });
    }
    if parts.len() >= 1000 {
        return Err(LayoutError::TooManyPartitions);
    }
    Ok(())
}

// The partitions with their ranges, where nothing is wrong with these.
fn apart_parts(alloc: Global, parts: &[PartDef]) -> Result<Items<PartDef>, LayoutError>
    ensures made { IfOk result (λ ps. ps ≡ ranges.ranged [] parts.now) }
    ensures tested { faults.Tests (first_of (faults.ranged_faults (ranges.ranged [] parts.now))) result }
{
    let parts = ranged(alloc, parts)?;
    match test_ranged(alloc, parts.as_slice()) {
        Ok(()) => Ok(parts),
        Err(fault) => Err(fault),
    }
}

// The partitions with their ranges, where nothing is wrong with them, the columns and the buckets.
pub fn tested_parts(
    alloc: Global,
    shape: &Shape,
    column: &Option<Name>,
    parts: &[PartDef],
    hash: &[Name],
    buckets: u32,
) -> Result<Items<PartDef>, LayoutError>
    ensures made { IfOk result (λ ps. ps ≡ ranges.ranged [] parts.now) }
    ensures tested { faults.Tests (first_of (faults.written_faults shape.now column.now parts.now hash.now buckets ++ faults.ranged_faults (ranges.ranged [] parts.now))) result }
{
    match test_written(alloc, shape, column, parts, hash, buckets) {
        Ok(()) => apart_parts(alloc, parts),
        Err(fault) => Err(fault),
    }
}

// A further partition with its range, where nothing is wrong with that.
fn apart_part(alloc: Global, parts: &[PartDef], part: &PartDef) -> Result<PartDef, LayoutError>
    ensures made { IfOk result (λ p. p ≡ ranges.with_range parts.now part.now) }
    ensures tested { faults.Tests (first_of (faults.room_faults parts.now (ranges.with_range parts.now part.now))) result }
{
    let part = with_range(alloc, parts, copy_part(alloc, part)?)?;
    match test_room(alloc, parts, &part) {
        Ok(()) => Ok(part),
        Err(fault) => Err(fault),
    }
}

// A further partition with its range, where nothing is wrong with it.
pub fn tested_part(
    alloc: Global,
    column: &Option<Name>,
    kind: Option<ColType>,
    parts: &[PartDef],
    part: &PartDef,
) -> Result<PartDef, LayoutError>
    ensures made { IfOk result (λ p. p ≡ ranges.with_range parts.now part.now) }
    ensures tested { (l : LayoutView) → l.column ≡ column.now → l.kind ≡ kind → l.parts ≡ parts.now → faults.Tests (faults.add_fault l part.now) result }
{
    match test_part(alloc, column, kind, parts, part) {
        Ok(()) => apart_part(alloc, parts, part),
        Err(fault) => Err(fault),
    }
}
