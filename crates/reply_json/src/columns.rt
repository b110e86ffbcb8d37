// The columns of a result as JSON.
ghost use Rattle.std.specs.Prelude.{◌≡◌, IfOk, map};
ghost use Rattle.std.specs.List.{zip};
ghost use Rattle.serde_json.specs.View.{view};
ghost use Rattle.reply_json.specs.Results.{column_json, list_json};

use crate::text::lossy;
use dl_values::{NoMemory, Text};
use serde_json::{Value, json};
use std::alloc::Global;

fn column_value(alloc: Global, name: &Text, kind: &Text) -> Result<Value, NoMemory>
    ensures { IfOk result (λ v. view v ≡ column_json (name.now, kind.now)) }
{
    let name = lossy(alloc, name)?;
    let kind = lossy(alloc, kind)?;
    Ok(json!(in alloc; {"name": &name, "type": &kind})?)
}

// The columns one by one, as many as there are both names and types.
#[tactic(auto, using(crate::proofs::Zipped::all_columns))]
fn column_values(alloc: Global, names: &[Text], types: &[Text]) -> Result<Vec<Value>, NoMemory>
    ensures { IfOk result (λ vs. map view vs.items ≡ map column_json (zip names.now types.now)) }
{
    let count = names.len().min(types.len());
    let mut items = Vec::with_capacity(alloc, count)?;
    for place in 0..count {
        items.push(column_value(alloc, &names[place], &types[place])?)?;
    }
    Ok(items)
}

// The JSON list of columns by their names and types.
pub fn columns_value(alloc: Global, names: &[Text], types: &[Text]) -> Result<Value, NoMemory>
    ensures { IfOk result (λ v. view v ≡ list_json column_json (zip names.now types.now)) }
{
    Ok(Value::Array(column_values(alloc, names, types)?))
}
