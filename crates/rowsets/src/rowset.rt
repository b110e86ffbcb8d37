// Folded rows that do not change any more.
ghost use Rattle.std.specs.Prelude.{◌≡◌, ◌↔◌, IfOk, IsTrue};
ghost use Rattle.std.specs.List.{AllByRecursion};
ghost use Rattle.rowsets.specs.RowsetView.{IsMadeFor, IsRowsetOf, IsSortedFor};
ghost use Rattle.schema_models.specs.RowRules.{IsOfShape};

use columnar::Blocks;
use dl_outside::Steps;
use dl_values::{NoMemory, RowView, Rows};
use row_fold::{SortedRows, fold_rows};
use schema_models::{Shape, laws};
use std::alloc::Global;
use std::marker::Model;
use std::sync::Arc;
use std::sync::ledger::Ledger;
use zones::{Test, Zones};

/// The folded rows of one load in one tablet, with the marks of the shape by which they were folded (Apache Doris
/// documentation, "Rowset"). It knows no version.
#[derive(Debug, Drop)]
pub struct Rowset {
    blocks: Blocks,
}

impl Model for Rowset {
    ghost use Rattle.rowsets.specs.RowsetView.{IsSound, RowsetView};

    ghost Value = { RowsetView };

    ghost view = { λ r. record { marks = r.blocks.marks; rows = r.blocks.rows } };

    ghost invariant = { λ r. IsSound (record { marks = r.blocks.marks; rows = r.blocks.rows }) };
}

impl Rowset {
    /// The fold of rows of a shape. Rows that are their own fold are taken as they are.
    pub fn build(alloc: Global, shape: &Shape, rows: Rows) -> Result<Arc<Rowset>, NoMemory>
        requires { AllByRecursion (IsOfShape shape.now) rows }
        ensures { IfOk result (λ r. IsRowsetOf shape.now rows r.value) }
    {
        shape.vouch();
        laws::rows_of_a_shape_stay_so();
        laws::folds_are_determined();
        let folded = fold_rows(alloc, shape, rows)?;
        let blocks = Blocks::from_rows(alloc, shape, folded)?;
        Ok(Arc::new(alloc, Rowset { blocks })?)
    }

    /// Whether the shape that it was built with has the model, the number of keys, the column types and the nullable marks
    /// of this one. Takes no memory, and looks at no row.
    pub fn is_of(&self, shape: &Shape) -> bool
        ensures made { IsTrue result ↔ IsMadeFor shape.now self.now }
        ensures sorted { IsTrue result → IsSortedFor shape.now self.now }
    {
        self.blocks.is_of(shape)
    }
}

impl SortedRows for Rowset {
    ghost use Rattle.rowsets.specs.RowsetView.{rowset_rows};

    ghost rows = { rowset_rows };

    fn len(&self) -> usize {
        self.blocks.len()
    }

    fn row<L: Ledger>(&self, place: usize, steps: &mut Steps<L>) -> RowView<'_> {
        self.blocks.row(place, steps)
    }
}

impl Zones for Rowset {
    ghost use Rattle.columnar.specs.Finds.{block_finds};
    ghost use Rattle.columnar.specs.Zones.{block_may, block_numbers};
    ghost use Rattle.rowsets.specs.RowsetView.{rowset_rows};

    ghost rows = { rowset_rows };

    ghost blocks = { λ r. block_numbers (rowset_rows r) };

    ghost may = { λ r. block_may (rowset_rows r) };

    ghost finds = { λ r. block_finds (rowset_rows r) };

    fn block_of(&self, place: usize) -> usize {
        self.blocks.block_of(place)
    }

    fn block_end(&self, place: usize) -> usize {
        self.blocks.block_end(place)
    }

    fn block_may_match(&self, block: usize, test: &Test) -> bool {
        self.blocks.block_may_match(block, test)
    }
}

#[cfg(test)]
mod tests;
