// Beneath a limit, only the first rows of an answer are kept.
ghost use Rattle.std.specs.Prelude.{◌*◌, ◌+◌, ◌≤◌, IfSome, OnOk, length};
ghost use Rattle.select_eval.specs.Shown.{ShowAlike};

use dl_values::{NoMemory, Row};
use select_defs::sort;
use sql_text::{Item, Query};

// Keeps only the first rows where there are twice as many as are asked for, and some more.
pub fn trim(list: &[Item], query: &Query, rows: &mut Vec<Row>) -> Result<(), NoMemory>
    ensures same { OnOk result (ShowAlike list.now query.now rows.new.items rows.old.items) }
    ensures few { OnOk result (IfSome query.now.limit (λ n. length rows.new.items ≤ 2 * n + 16)) }
{
    let Some(limit) = query.limit else {
        return Ok(());
    };
    if rows.len() as u64 <= limit.saturating_mul(2).saturating_add(16) {
        return Ok(());
    }
    sort(list, query.order.as_slice(), rows)?;
    rows.truncate(limit as usize);
    Ok(())
}
