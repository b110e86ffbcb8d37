// A row beside the number of its key.
ghost use Rattle.std.specs.Prelude.{◌≡◌};
ghost use Rattle.row_fold.specs.Prefix.{row_prefix};

use crate::prefix::prefix_of;
use dl_values::Cell;

// The cells of a row, and the number of their first one, which decides most comparisons without a look at the row.
#[derive(Drop)]
pub struct Keyed<'a> {
    pub prefix: u64,
    pub row: &'a [Cell],
    pub ghost ok: { prefix ≡ row_prefix row.now },
}

impl<'a> Keyed<'a> {
    #[inline(always)]
    pub fn new(row: &'a [Cell]) -> Keyed<'a>
        ensures { result.row.now ≡ row.now }
    {
        Keyed {
            prefix: prefix_of(row),
            row,
        }
    }
}
