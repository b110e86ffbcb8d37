// Rows as they stand.
ghost use Rattle.std.specs.Prelude.{◌≡◌, IfOk};

use dl_values::{NoMemory, Rows};
use std::alloc::Global;

// Equal rows of their own.
pub fn copy_of(alloc: Global, rows: &Rows) -> Result<Rows, NoMemory>
    ensures { IfOk result (λ out. out ≡ rows.now) }
{
    let mut out = Rows::new(alloc);
    for place in 0..rows.len() {
        out.push_copy(alloc, rows.row(place))?;
    }
    Ok(out)
}
