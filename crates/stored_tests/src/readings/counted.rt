// A stored list that counts the looks at its rows. They stand in blocks of 1,024.
ghost use Rattle.std.specs.Prelude.{◌≡◌, ◌<◌, length};
ghost use Rattle.stored_tests.specs.InBlocks as blocks;
ghost use Rattle.zones.specs.InBlocks as zoned;

use dl_outside::Steps;
use dl_values::{Cell as Value, RowView, Rows};
use row_fold::SortedRows;
use std::cell::Cell;
use std::sync::ledger::Ledger;
use zones::{Test, Zones};

// Rows, and how often one of them was looked at.
#[derive(Drop)]
pub struct Counted {
    pub rows: Rows,
    pub looks: Cell<usize>,
}

impl Counted {
    pub fn new(rows: Rows) -> Counted {
        Counted {
            rows,
            looks: Cell::new(0),
        }
    }
}

impl SortedRows for Counted {
    ghost rows = { λ c. c.rows };

    fn len(&self) -> usize {
        self.rows.len()
    }

    fn row<L: Ledger>(&self, place: usize, steps: &mut Steps<L>) -> RowView<'_> {
        self.looks.set(self.looks.get().saturating_add(1));
        steps.tick();
        RowView::of_cells(self.rows.row(place))
    }
}

// Whether a row passes; a cell beyond its width is null.
fn row_passes(test: &Test, row: &[Value]) -> bool
    ensures { result ≡ zoned.row_passes test.now row.now }
{
    if test.column < row.len() {
        test.passes(&row[test.column])
    } else {
        test.passes(&Value::Null)
    }
}

// Whether the row at a place stands in a block and passes.
fn is_match(rows: &Rows, block: usize, test: &Test, place: usize) -> bool
    requires { place < length rows.now }
    ensures { result ≡ blocks.is_match rows.now block test.now place }
{
    if place / 1024 != block {
        return false;
    }
    row_passes(test, rows.row(place))
}

impl Zones for Counted {
    ghost use Rattle.stored_tests.specs.InBlocks.{block_finds, may_match, numbers_from};

    ghost rows = { λ c. c.rows };

    ghost blocks = { λ c. numbers_from 0 c.rows };

    ghost may = { λ c. may_match c.rows };

    ghost finds = { λ c. block_finds c.rows };

    fn block_of(&self, place: usize) -> usize {
        place / 1024
    }

    fn block_end(&self, place: usize) -> usize {
        (place - place % 1024)
            .saturating_add(1024)
            .min(self.rows.len())
    }

    // Its rows are looked at, but those looks are none of a query.
    fn block_may_match(&self, block: usize, test: &Test) -> bool {
        for place in 0..self.rows.len() {
            if is_match(&self.rows, block, test, place) {
                return true;
            }
        }
        false
    }
}

// How often a row of some list was looked at.
pub fn all_looks(lists: &[Counted]) -> usize {
    let mut all: usize = 0;
    for list in lists {
        all = all.saturating_add(list.looks.get());
    }
    all
}
