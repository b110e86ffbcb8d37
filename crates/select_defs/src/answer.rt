// The answer of a query that is not refused.
ghost use Rattle.std.specs.Prelude.{◌≡◌, IfOk};
ghost use Rattle.select_defs.specs.Eval.{IsAnswer, answer};
ghost use Rattle.select_defs.specs.Groups.{output_rows};
ghost use Rattle.select_defs.specs.Items as items;
ghost use Rattle.select_defs.specs.Orders.{limited, ordered};

use crate::groups::output_rows;
use crate::item_names::{output_names, output_types};
use crate::items::items_of;
use crate::orders::{limited, sort};
use dl_values::{NoMemory, ResultSet, Rows};
use schema_models::Shape;
use sql_text::{Item, Query};
use std::alloc::Global;

fn answer_rows(
    alloc: Global,
    base: &Shape,
    shape: &Shape,
    query: &Query,
    list: &[Item],
    rows: &Rows,
) -> Result<Rows, NoMemory>
    requires { list.now ≡ items.items_of base.now query.now }
    ensures { IfOk result (λ out. out ≡ limited query.now.limit (ordered (items.items_of base.now query.now) query.now.order (output_rows base.now shape.now query.now rows.now))) }
{
    let mut all = output_rows(alloc, base, shape, query, list, rows)?;
    sort(list, query.order.as_slice(), &mut all)?;
    limited(alloc, query.limit, all.as_slice())
}

/// The answer of a query over rows.
pub fn answer(
    alloc: Global,
    base: &Shape,
    shape: &Shape,
    query: &Query,
    rows: &Rows,
) -> Result<ResultSet, NoMemory>
    ensures { IfOk result (λ set. IsAnswer (answer base.now shape.now query.now rows.now) set) }
{
    let list = items_of(alloc, base, query)?;
    let rows = answer_rows(alloc, base, shape, query, list.as_slice(), rows)?;
    Ok(ResultSet {
        names: output_names(alloc, list.as_slice())?,
        types: output_types(alloc, base, list.as_slice())?,
        rows,
    })
}
