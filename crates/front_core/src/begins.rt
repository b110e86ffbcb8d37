// What a load begins with: its label, its plan and its start.
ghost use Rattle.std.specs.Prelude.{◌≡◌, [], IfOk, IfSome};
ghost use Rattle.front_defs.specs.Answer.{bad_label, plan_of};
ghost use Rattle.front_defs.specs.Gives.{Gives};
ghost use Rattle.front_defs.specs.History.{outcome, Refused};
ghost use Rattle.front_core.specs.Refused.{start_of};

use crate::names::is_label;
use dl_values::{Name, NoMemory};
use front_defs::{Reply, Table};
use shadow_writes::Plan;
use sqlite_items::Items;
use std::alloc::Global;
use txn_core::TxnStart;

// Why a label that is asked for is refused.
pub fn label_refusal(label: &Option<Name>) -> Option<Reply>
    ensures is { result ≡ bad_label label.now }
    ensures refused { IfSome result (λ r. outcome r ≡ Refused) }
    ensures gives { IfSome result Gives }
{
    match label {
        None => None,
        Some(label) => {
            if is_label(label) {
                None
            } else {
                Some(Reply::BadLabel)
            }
        }
    }
}

// The plan of a load of a table as it is now, which has no rollup and no job.
pub fn plan(alloc: Global, txn: u64, table: &Table) -> Result<Plan, NoMemory>
    requires { table.now.rollups ≡ [] }
    ensures { IfOk result (λ p. p ≡ plan_of txn table.now []) }
{
    let layout = table.layout.copy(alloc)?;
    let base = table.shape.copy(alloc)?;
    Ok(Plan {
        txn,
        schema: table.schema,
        layout,
        base,
        targets: Items::new(alloc),
    })
}

// What a transaction of a table begins with.
pub fn start(
    alloc: Global,
    table: &Table,
    label: Option<Name>,
    two_phase: bool,
    at: u64,
) -> Result<TxnStart, NoMemory>
    ensures { IfOk result (λ s. s ≡ start_of table.now label two_phase at) }
{
    let db = table.db.copy(alloc)?;
    Ok(TxnStart {
        db,
        table: table.number,
        label,
        two_phase,
        schema: table.schema,
        at,
    })
}
