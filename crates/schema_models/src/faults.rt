// What may be wrong with columns.
ghost use Rattle.std.specs.Prelude.{◌≡◌, [], not};
ghost use Rattle.std.specs.List.{list_any};
ghost use Rattle.std.specs.Str.{bytes_eq};
ghost use Rattle.schema_models.specs.Faults.{first_of};
ghost use Rattle.schema_models.specs.ShapeRules as rules;

use crate::cell_types::{fits_column, is_type};
use crate::names::is_name;
use crate::{ColumnDef, Model, Role, ShapeError};
use dl_values::{AggKind, ColType, Name};

fn is_key(role: Role) -> bool
    ensures { result ≡ rules.is_key role }
{
    match role {
        Role::Key => true,
        Role::Plain | Role::Agg(_) => false,
    }
}

// Whether a column of a type may merge by a kind.
fn can_merge(by: AggKind, kind: ColType) -> bool
    ensures { result ≡ rules.can_merge by kind }
{
    match (by, kind) {
        (AggKind::Sum, ColType::BigInt) => true,
        (AggKind::Sum, _) => false,
        _ => true,
    }
}

// Whether a model has columns of a role and a type.
fn fits_model(model: Model, role: Role, kind: ColType) -> bool
    ensures { result ≡ rules.fits_model model role kind }
{
    match (model, role) {
        (_, Role::Key) => true,
        (Model::Aggregate, Role::Plain) => false,
        (Model::Duplicate | Model::Unique, Role::Plain) => true,
        (Model::Aggregate, Role::Agg(by)) => can_merge(by, kind),
        (Model::Duplicate | Model::Unique, Role::Agg(_)) => false,
    }
}

// Whether a column may have its default.
fn fits_default(column: &ColumnDef) -> bool
    ensures { result ≡ rules.fits_default column.now column.now.default }
{
    match &column.default {
        None => true,
        Some(cell) => fits_column(column, cell),
    }
}

// Whether one of these columns has a name.
fn has_name(columns: &[ColumnDef], name: &Name) -> bool
    ensures { result ≡ list_any (λ b. bytes_eq b.name name.now) columns.now }
{
    columns.iter().any(|c| c.name == *name)
}

// Whether one of these columns is no key.
fn has_value(columns: &[ColumnDef]) -> bool
    ensures { result ≡ list_any (λ b. not (rules.is_key b.role)) columns.now }
{
    columns.iter().any(|c| !is_key(c.role))
}

// The first fault of a column that stands after these.
fn column_fault(model: Model, before: &[ColumnDef], column: &ColumnDef) -> Option<ShapeError>
    ensures { result ≡ first_of (rules.column_faults model before.now column.now) }
{
    let place = before.len() as u64;
    if !is_name(column.name.bytes()) {
        return Some(ShapeError::BadName { column: place });
    }
    if has_name(before, &column.name) {
        return Some(ShapeError::DoubleName { column: place });
    }
    if !is_type(column.kind) {
        return Some(ShapeError::BadType { column: place });
    }
    if before.is_empty() && !is_key(column.role) {
        return Some(ShapeError::NoKey { column: place });
    }
    if is_key(column.role) && has_value(before) {
        return Some(ShapeError::KeyAfterValue { column: place });
    }
    if !fits_model(model, column.role, column.kind) {
        return Some(ShapeError::BadAgg { column: place });
    }
    if !fits_default(column) {
        return Some(ShapeError::BadDefault { column: place });
    }
    None
}

// The first fault of columns, from the first on.
fn first_column_fault(model: Model, columns: &[ColumnDef]) -> Option<ShapeError>
    ensures { result ≡ first_of (rules.faults_after model [] columns.now) }
{
    for (at, column) in columns.iter().enumerate() {
        match column_fault(model, &columns[..at], column) {
            None => {}
            Some(fault) => return Some(fault),
        }
    }
    None
}

// The first fault of a model and columns.
#[tactic(auto, unfolding(crate::specs::ShapeRules::shape_fault))]
pub fn shape_fault(model: Model, columns: &[ColumnDef]) -> Option<ShapeError>
    ensures { result ≡ rules.shape_fault model columns.now }
{
    if columns.len() > 64 {
        return Some(ShapeError::TooManyColumns { limit: 64 });
    }
    if columns.is_empty() {
        return Some(ShapeError::NoKey { column: 0 });
    }
    first_column_fault(model, columns)
}
