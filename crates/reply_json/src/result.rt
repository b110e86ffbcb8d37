// The answer of a statement that was taken.
ghost use Rattle.std.specs.Prelude.{◌≡◌, IfOk};
ghost use Rattle.serde_json.specs.View.{view};
ghost use Rattle.serde_json.specs.Written.{compact_text};
ghost use Rattle.reply_json.specs.Results.{result_json, done_json};

use crate::cells::rows_value;
use crate::columns::columns_value;
use dl_values::{NoMemory, ResultSet};
use serde_json::{Value, json};
use std::alloc::Global;

fn result_value(alloc: Global, set: &ResultSet) -> Result<Value, NoMemory>
    ensures { IfOk result (λ v. view v ≡ result_json set.now) }
{
    Ok(json!(in alloc; {
        "code": 0u64,
        "data": {
            "data": rows_value(alloc, &set.rows)?,
            "meta": columns_value(alloc, set.names.as_slice(), set.types.as_slice())?,
            "type": "result_set",
        },
        "msg": "success",
    })?)
}

/// The body that answers a statement with a result, with status 200.
#[tactic(auto, using(crate::proofs::Floats::result_has_no_float))]
pub fn render_result(alloc: Global, report: &ResultSet) -> Result<Vec<u8>, NoMemory>
    ensures { IfOk result (λ b. b.items ≡ compact_text (result_json report.now)) }
{
    let value = result_value(alloc, report)?;
    Ok(value.to_vec(alloc)?)
}

fn done_value(alloc: Global) -> Result<Value, NoMemory>
    ensures { IfOk result (λ v. view v ≡ done_json) }
{
    Ok(json!(in alloc; {"code": 0u64, "data": {"type": "exec_status"}, "msg": "success"})?)
}

/// The body that answers a statement without a result, with status 200.
pub fn render_done(alloc: Global) -> Result<Vec<u8>, NoMemory>
    ensures { IfOk result (λ b. b.items ≡ compact_text done_json) }
{
    let value = done_value(alloc)?;
    Ok(value.to_vec(alloc)?)
}
