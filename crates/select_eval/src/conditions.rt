// The tests of a query, with their columns and literals looked up.
ghost use Rattle.std.specs.Prelude.{◌≡◌, IfOk, map};
ghost use Rattle.select_eval.specs.Conditions as conditions;

use crate::asked::Asked;
use crate::condition::Condition;
use dl_values::{ColType, NoMemory};
use schema_models::Shape;
use select_defs::{kind_named, literal_cell};
use sql_text::{Check, Filter};
use std::alloc::Global;

// What a check asks of cells of a type.
fn asked_of(alloc: Global, kind: ColType, check: &Check) -> Result<Asked, NoMemory>
    ensures { IfOk result (λ a. a ≡ conditions.asked_of kind check.now) }
{
    match check {
        Check::Compare(op, literal) => match literal_cell(alloc, kind, literal)? {
            Some(cell) => Ok(Asked::Compare(*op, cell)),
            None => Ok(Asked::Never),
        },
        Check::IsNull => Ok(Asked::IsNull),
        Check::IsNotNull => Ok(Asked::IsNotNull),
    }
}

// What a check asks of cells of a type, where there is one.
fn asked_in(alloc: Global, kind: Option<ColType>, check: &Check) -> Result<Asked, NoMemory>
    ensures { IfOk result (λ a. a ≡ conditions.asked_in kind check.now) }
{
    match kind {
        Some(kind) => asked_of(alloc, kind, check),
        None => Ok(Asked::Never),
    }
}

fn condition_of(
    alloc: Global,
    base: &Shape,
    index: &Shape,
    filter: &Filter,
) -> Result<Condition, NoMemory>
    ensures { IfOk result (λ c. c ≡ conditions.condition_of base.now index.now filter.now) }
{
    Ok(Condition {
        place: index.position(&filter.column),
        asked: asked_in(alloc, kind_named(base, &filter.column), &filter.check)?,
    })
}

// The tests of a query, in their order. The base has the types of their columns, the index the places.
pub fn conditions_of(
    alloc: Global,
    base: &Shape,
    index: &Shape,
    filters: &[Filter],
) -> Result<Vec<Condition>, NoMemory>
    ensures { IfOk result (λ v. v.items ≡ map (conditions.condition_of base.now index.now) filters.now) }
{
    let mut all = Vec::with_capacity(alloc, filters.len())?;
    for filter in filters {
        all.push(condition_of(alloc, base, index, filter)?)?;
    }
    Ok(all)
}
