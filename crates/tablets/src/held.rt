// A rowset of a tablet with its pair of versions.
ghost use Rattle.std.specs.Prelude.{◌≡◌, ◌≤◌, length};
ghost use Rattle.std.specs.List.{prefix_len};
ghost use Rattle.tablets.specs.TabletView.{is_to};

use dl_outside::Steps;
use dl_values::RowView;
use row_fold::SortedRows;
use rowsets::Rowset;
use std::marker::Model;
use std::sync::Arc;
use std::sync::ledger::Ledger;
use zones::{Test, Zones};

// A rowset with its first and its last version.
#[derive(Debug, Drop)]
pub struct Held {
    pub first: u64,
    pub last: u64,
    pub rowset: Arc<Rowset>,
}

impl Model for Held {
    ghost use Rattle.tablets.specs.TabletView.{StoredList};

    ghost Value = { StoredList };

    ghost view = { λ h. record { first = h.first; last = h.last; rowset = h.rowset.value } };
}

impl SortedRows for Held {
    ghost use Rattle.tablets.specs.TabletView.{list_rows};

    ghost rows = { list_rows };

    fn len(&self) -> usize {
        self.rowset.len()
    }

    fn row<L: Ledger>(&self, place: usize, steps: &mut Steps<L>) -> RowView<'_> {
        self.rowset.row(place, steps)
    }
}

impl Zones for Held {
    ghost use Rattle.columnar.specs.Finds.{block_finds};
    ghost use Rattle.columnar.specs.Zones.{block_may, block_numbers};
    ghost use Rattle.tablets.specs.TabletView.{list_rows};

    ghost rows = { list_rows };

    ghost blocks = { λ h. block_numbers (list_rows h) };

    ghost may = { λ h. block_may (list_rows h) };

    ghost finds = { λ h. block_finds (list_rows h) };

    fn block_of(&self, place: usize) -> usize {
        self.rowset.block_of(place)
    }

    fn block_end(&self, place: usize) -> usize {
        self.rowset.block_end(place)
    }

    fn block_may_match(&self, block: usize, test: &Test) -> bool {
        self.rowset.block_may_match(block, test)
    }
}

impl Held {
    // Whether its last version is not above this one.
    fn is_to(&self, version: u64) -> bool
        ensures { result ≡ is_to version self.now }
    {
        self.last <= version
    }
}

// How many rowsets, from the first on, are up to a version.
pub fn count_to(lists: &[Held], version: u64) -> usize
    ensures is { result ≡ prefix_len (is_to version) lists.now }
    ensures within { result ≤ length lists.now }
{
    for (count, list) in lists.iter().enumerate() {
        if !list.is_to(version) {
            return count;
        }
    }
    lists.len()
}
