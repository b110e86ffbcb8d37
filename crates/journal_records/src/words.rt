// The bytes of models, roles and types of columns.
ghost use Rattle.std.specs.Prelude.{◌≡◌, ◌++◌, Ok, OnOk};
ghost use Rattle.journal_records.specs.Spelling as bytes_of;
ghost use Rattle.journal_records.specs.Reading.{Gives, model_at, merging_at, role_at, type_at};

use crate::choices::after_tag;
use crate::read_fields::number32;
use crate::stop::Stop;
use crate::write_fields::put_number32;
use dl_values::{AggKind, ColType, NoMemory};
use schema_models::{Model, Role};

pub fn put_model(out: &mut Vec<u8>, model: Model) -> Result<(), NoMemory>
    ensures { OnOk result (out.new.items ≡ out.old.items ++ bytes_of.model model) }
{
    match model {
        Model::Duplicate => out.push(0)?,
        Model::Unique => out.push(1)?,
        Model::Aggregate => out.push(2)?,
    }
    Ok(())
}

#[tactic(auto, unfolding(crate::specs::Reading::model_at))]
pub fn model(bytes: &[u8]) -> Result<(Model, &[u8]), Stop>
    ensures { Gives (λ x. (x.0, x.1.now)) result (model_at bytes.now) }
{
    if let Some(rest) = after_tag(bytes, 0) {
        return Ok((Model::Duplicate, rest));
    }
    if let Some(rest) = after_tag(bytes, 1) {
        return Ok((Model::Unique, rest));
    }
    if let Some(rest) = after_tag(bytes, 2) {
        return Ok((Model::Aggregate, rest));
    }
    Err(Stop::Left(bytes.len()))
}

pub fn put_role(out: &mut Vec<u8>, role: Role) -> Result<(), NoMemory>
    ensures { OnOk result (out.new.items ≡ out.old.items ++ bytes_of.role role) }
{
    match role {
        Role::Key => out.push(0)?,
        Role::Plain => out.push(1)?,
        Role::Agg(AggKind::Sum) => out.push(2)?,
        Role::Agg(AggKind::Min) => out.push(3)?,
        Role::Agg(AggKind::Max) => out.push(4)?,
        Role::Agg(AggKind::Replace) => out.push(5)?,
        Role::Agg(AggKind::ReplaceIfNotNull) => out.push(6)?,
    }
    Ok(())
}

// The role of a value that merges.
#[tactic(auto, unfolding(crate::specs::Reading::merging_at))]
fn merging(bytes: &[u8]) -> Result<(Role, &[u8]), Stop>
    ensures { Gives (λ x. (x.0, x.1.now)) result (merging_at bytes.now) }
{
    if let Some(rest) = after_tag(bytes, 2) {
        return Ok((Role::Agg(AggKind::Sum), rest));
    }
    if let Some(rest) = after_tag(bytes, 3) {
        return Ok((Role::Agg(AggKind::Min), rest));
    }
    if let Some(rest) = after_tag(bytes, 4) {
        return Ok((Role::Agg(AggKind::Max), rest));
    }
    if let Some(rest) = after_tag(bytes, 5) {
        return Ok((Role::Agg(AggKind::Replace), rest));
    }
    if let Some(rest) = after_tag(bytes, 6) {
        return Ok((Role::Agg(AggKind::ReplaceIfNotNull), rest));
    }
    Err(Stop::Left(bytes.len()))
}

#[tactic(auto, unfolding(crate::specs::Reading::role_at))]
pub fn role(bytes: &[u8]) -> Result<(Role, &[u8]), Stop>
    ensures { Gives (λ x. (x.0, x.1.now)) result (role_at bytes.now) }
{
    if let Some(rest) = after_tag(bytes, 0) {
        return Ok((Role::Key, rest));
    }
    if let Some(rest) = after_tag(bytes, 1) {
        return Ok((Role::Plain, rest));
    }
    merging(bytes)
}

pub fn put_type(out: &mut Vec<u8>, kind: ColType) -> Result<(), NoMemory>
    ensures { OnOk result (out.new.items ≡ out.old.items ++ bytes_of.column_type kind) }
{
    match kind {
        ColType::TinyInt => out.push(0)?,
        ColType::SmallInt => out.push(1)?,
        ColType::Int => out.push(2)?,
        ColType::BigInt => out.push(3)?,
        ColType::Date => out.push(4)?,
        ColType::Varchar(len) => {
            out.push(5)?;
            put_number32(out, len)?;
        }
    }
    Ok(())
}

#[tactic(auto, unfolding(crate::specs::Reading::type_at))]
pub fn column_type(bytes: &[u8]) -> Result<(ColType, &[u8]), Stop>
    ensures { Gives (λ x. (x.0, x.1.now)) result (type_at bytes.now) }
{
    if let Some(rest) = after_tag(bytes, 0) {
        return Ok((ColType::TinyInt, rest));
    }
    if let Some(rest) = after_tag(bytes, 1) {
        return Ok((ColType::SmallInt, rest));
    }
    if let Some(rest) = after_tag(bytes, 2) {
        return Ok((ColType::Int, rest));
    }
    if let Some(rest) = after_tag(bytes, 3) {
        return Ok((ColType::BigInt, rest));
    }
    if let Some(rest) = after_tag(bytes, 4) {
        return Ok((ColType::Date, rest));
    }
    if let Some(rest) = after_tag(bytes, 5) {
        let (len, rest) = number32(rest)?;
        return Ok((ColType::Varchar(len), rest));
    }
    Err(Stop::Left(bytes.len()))
}
