// What a query answers.
ghost use Rattle.std.specs.Prelude.{◌≡◌, ◌⊎◌, Ok, Err};
ghost use Rattle.dl_values.specs.declared.result_set.ResultSet.{ResultSet};
ghost use Rattle.select_defs.specs.Eval.{Answer, Eval, IsAnswer};
ghost use Rattle.select_defs.specs.declared.select_error.SelectError.{SelectError};
ghost use Rattle.select_defs.specs.declared.select_error.SelectError.TheVariants as error;

use crate::SelectError;
use crate::answer::answer;
use crate::refusals::refusal;
use dl_values::{NoMemory, ResultSet, Rows};
use schema_models::Shape;
use sql_text::Query;
use std::alloc::Global;

/// What a query answers over rows of a shape, where the base is the shape that the query is written for: the rows that pass
/// its tests, grouped, aggregated, ordered and limited. It looks at all rows for each group and computes each literal for
/// each row; quicker evaluations are compared with it.
pub fn eval(
    alloc: Global,
    base: &Shape,
    shape: &Shape,
    query: &Query,
    rows: &Rows,
) -> Result<ResultSet, SelectError>
    // What is answered is the answer of the definition.
    ensures answered { (set : ResultSet) → result ≡ Ok set → (a : Answer) × (Eval base.now shape.now query.now rows.now ≡ Ok a) × IsAnswer a set }
    // A refusal is that of the definition, but for want of memory.
    ensures refused { (e : SelectError) → result ≡ Err e → (e ≡ error.NoMemory) ⊎ (Eval base.now shape.now query.now rows.now ≡ Err e) }
{
    match refusal(alloc, base, query) {
        Ok(None) => match answer(alloc, base, shape, query, rows) {
            Ok(set) => Ok(set),
            Err(NoMemory) => Err(SelectError::NoMemory),
        },
        Ok(Some(refused)) => Err(refused),
        Err(NoMemory) => Err(SelectError::NoMemory),
    }
}
