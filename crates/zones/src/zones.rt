// Rows in blocks, of which some need not be looked at.
use crate::test::Test;
use std::sync::Arc;

/// Rows that stand in blocks. Of a block it is known whether a row of it may pass a test, without a look at its rows.
pub trait Zones {
    ghost use Rattle.std.specs.Prelude.{◌≡◌, ◌<◌, ◌≤◌, ℕ, Bool, List, length, slice_index_or};
    ghost use Rattle.dl_values.specs.declared.cell.Cell.{Cell};
    ghost use Rattle.zones.specs.declared.test.Test.{Test};
    ghost use Rattle.zones.specs.InBlocks.{FindsMatches, HasBlock, StandTogether};

    ghost rows: { Self → List (List Cell) };

    // The block of each row, place by place.
    ghost blocks: { Self → List ℕ };

    // Which tests a row of a block may pass.
    ghost may: { Self → ℕ → Test → Bool };

    // A row of a block that passes may pass.
    ghost finds: { (s : Self) (block : ℕ) (t : Test) → FindsMatches (rows s) (blocks s) block t (may s block t) };

    /// The block of the row at a place.
    fn block_of(&self, place: usize) -> usize
        requires within { place < length (rows self.now) }
        ensures block { result ≡ slice_index_or (blocks self.now) place 0 };

    /// A place behind this one up to which all rows stand in its block; for the last rows, how many rows there are.
    fn block_end(&self, place: usize) -> usize
        requires within { place < length (rows self.now) }
        ensures after { place < result }
        ensures end { result ≤ length (rows self.now) }
        ensures together { StandTogether (blocks self.now) place result };

    /// Whether a row of a block may pass a test: true wherever one does. Takes no memory.
    fn block_may_match(&self, block: usize, test: &Test) -> bool
        requires there { HasBlock (rows self.now) (blocks self.now) block }
        ensures may { result ≡ may self.now block test.now };
}

/// Rows that are shared.
impl<T: Zones> Zones for Arc<T> {
    ghost rows = { λ a. T.rows a.value };

    ghost blocks = { λ a. T.blocks a.value };

    ghost may = { λ a. T.may a.value };

    ghost finds = { λ a. T.finds a.value };

    fn block_of(&self, place: usize) -> usize {
        (**self).block_of(place)
    }

    fn block_end(&self, place: usize) -> usize {
        (**self).block_end(place)
    }

    fn block_may_match(&self, block: usize, test: &Test) -> bool {
        (**self).block_may_match(block, test)
    }
}
