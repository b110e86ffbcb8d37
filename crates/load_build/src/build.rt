// Building a load.
ghost use Rattle.std.specs.Prelude.{◌≡◌, IfErr, IfOk};
ghost use Rattle.front_defs.specs.May.{SetsOf, TargetsOf};
ghost use Rattle.front_defs.specs.Stored.{AreRowsOf};
ghost use Rattle.load_build.specs.Building.{IsBuiltOf};

use crate::folding::folds;
use crate::spreading::spread;
use dl_values::{NoMemory, Rows};
use journal_format::EncodedRows;
use shadow_writes::{Built, Mapped, Plan, TabletRows};
use sqlite_items::Items;
use std::alloc::Global;

// What the base gets: in each tablet of a partition that got one of the rows, the fold of its rows.
fn base_sets(alloc: Global, plan: &Plan, rows: &Rows) -> Result<Items<TabletRows>, NoMemory>
    requires { AreRowsOf plan.now.base plan.now.layout rows.now }
    ensures { IfOk result (SetsOf plan.now.layout (record { shape = plan.now.base; map = None }) rows.now) }
{
    let parts = spread(alloc, &plan.layout, rows)?;
    folds(alloc, &plan.base, parts)
}

// What the base gets, where the plan has no other target.
fn targets_of(alloc: Global, plan: &Plan, rows: &Rows) -> Result<Items<Mapped>, NoMemory>
    requires { AreRowsOf plan.now.base plan.now.layout rows.now }
    ensures { IfOk result (TargetsOf plan.now rows.now) }
{
    if !plan.targets.is_empty() {
        return Err(NoMemory);
    }
    let sets = base_sets(alloc, plan, rows)?;
    let mut targets = Items::new(alloc);
    targets.push(Mapped::Sets(sets))?;
    Ok(targets)
}

/// A load of these rows, built as its plan says: in each tablet of a partition that got one of the rows, the fold of its
/// rows. So far the base alone is built: want of memory is answered exactly where memory is short or the plan has a target.
pub fn build_load(alloc: Global, plan: Plan, rows: Rows) -> Result<Built, (Plan, NoMemory)>
    requires { AreRowsOf plan.base plan.layout rows }
    ensures ok { IfOk result (IsBuiltOf plan rows) }
    ensures back { IfErr result (λ e. e.0 ≡ plan) }
{
    match targets_of(alloc, &plan, &rows) {
        Ok(targets) => Ok(Built {
            plan,
            rows: EncodedRows::new(rows),
            targets,
        }),
        Err(e) => Err((plan, e)),
    }
}
