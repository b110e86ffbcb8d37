// What a way to merge cells has to keep.
ghost use Rattle.std.specs.Prelude.{◌≡◌};
ghost use Rattle.dl_values.specs.declared.cell.Cell.{Cell};
ghost use Rattle.agg_functions.specs.Merge.{MergeLaws, merged_cell};
ghost use Rattle.agg_functions.specs.MergeLemmas.{kind_laws};

use crate::merge_cells;
use dl_values::{AggKind, Cell};

/// A way to merge an old cell and a newer one. It is associative, so that parts may merge first; an older null counts
/// for nothing, and a newer one leaves the old cell or takes its place.
pub trait Merge {
    ghost merged: { Self → Cell → Cell → Cell };

    /// The cell of an old one and a newer one.
    fn merge(&self, old: Cell, new: Cell) -> Cell
        ensures { result ≡ merged self.now old new };

    ghost laws: { (way : Self) → MergeLaws (merged way) };
}

impl Merge for AggKind {
    ghost merged = { merged_cell };

    ghost laws = { kind_laws };

    fn merge(&self, old: Cell, new: Cell) -> Cell {
        merge_cells(*self, old, new)
    }
}
