// A test of one column.
ghost use Rattle.std.specs.Prelude.{◌≡◌};
ghost use Rattle.std.specs.List.{list_all};
ghost use Rattle.merge_read.specs.Merged.{row_of};
ghost use Rattle.select_eval.specs.Conditions as conditions;

use crate::asked::Asked;
use crate::cells::cell_at;
use dl_values::Cell;
use merge_read::MergedCell;

// A test of a query whose column and literal were looked up once.
#[derive(Debug, Drop)]
pub struct Condition {
    pub place: Option<usize>,
    pub asked: Asked,
}

impl Condition {
    // Whether a row passes.
    pub fn holds(&self, row: &[MergedCell]) -> bool
        ensures { result ≡ conditions.holds (row_of row.now) self.now }
    {
        match cell_at(row, self.place) {
            Some(cell) => self.asked.passes(cell),
            None => self.asked.passes(MergedCell::Kept(&Cell::Null)),
        }
    }
}

// Whether a row passes all tests.
#[inline(always)]
pub fn all_hold(list: &[Condition], row: &[MergedCell]) -> bool
    ensures { result ≡ list_all (conditions.holds (row_of row.now)) list.now }
{
    for condition in list {
        if !condition.holds(row) {
            return false;
        }
    }
    true
}
