// Rows that stand side by side in a stored list.
ghost use Rattle.std.specs.Prelude.{◌≡◌, ◌≤◌, length};
ghost use Rattle.select_eval.specs.Pieces.{cut};

use dl_outside::Steps;
use dl_values::RowView;
use row_fold::SortedRows;
use std::sync::ledger::Ledger;

// The rows of a list from a place to before another.
#[derive(Drop)]
pub struct Piece<'a, R: SortedRows> {
    list: &'a R,
    start: usize,
    end: usize,
    pub ghost ordered: { start ≤ end },
    pub ghost within: { end ≤ length (R.rows list.now) },
}

impl<'a, R: SortedRows> Piece<'a, R> {
    pub fn new(list: &'a R, start: usize, end: usize) -> Piece<'a, R>
        requires ordered { start ≤ end }
        requires within { end ≤ length (R.rows list.now) }
        ensures { cut result.start result.end (R.rows result.list.now) ≡ cut start end (R.rows list.now) }
    {
        Piece { list, start, end }
    }
}

impl<'a, R: SortedRows> SortedRows for Piece<'a, R> {
    ghost rows = { λ p. cut p.start p.end (R.rows p.list.now) };

    fn len(&self) -> usize {
        self.end - self.start
    }

    fn row<L: Ledger>(&self, place: usize, steps: &mut Steps<L>) -> RowView<'_> {
        self.list.row(self.start + place, steps)
    }
}
