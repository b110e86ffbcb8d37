// A reading of lists as one: the fold of their rows, row by row.
ghost use Rattle.std.specs.Prelude.{◌≡◌, ◌+◌, IfOk, map};
ghost use Rattle.merge_read.specs.Lists.{AreSortedLists, joined, stored};
ghost use Rattle.merge_read.specs.MergeView.{IsNextRow};
ghost use Rattle.merge_read.specs.Merged.{row_of};
ghost use Rattle.schema_models.specs.Folds.{fold_of};

use crate::merged_cell::MergedCell;
use crate::present::room_for;
use crate::runs::next_row;
use crate::stream::Stream;
use dl_outside::Steps;
use dl_values::NoMemory;
use row_fold::SortedRows;
use schema_models::Shape;
use std::alloc::Global;
use std::sync::ledger::Ledger;

/// The rows of the fold of lists, of which the oldest stands first. Rows of one key meet by the rule of the shape for whole
/// rows; each stored row is looked at once, and no row is copied.
#[derive(Drop)]
pub struct Merge<'a, R: SortedRows> {
    shape: &'a Shape,
    stream: Stream<'a, R>,
    present: Vec<MergedCell<'a>>,
}

impl<'a, R: SortedRows> std::marker::Model for Merge<'a, R> {
    ghost use Rattle.std.specs.Prelude.{◌≡◌, length};
    ghost use Rattle.merge_read.specs.Lists.{joined};
    ghost use Rattle.merge_read.specs.MergeView.{MergeView};
    ghost use Rattle.merge_read.specs.Merged.{row_of};
    ghost use Rattle.merge_read.specs.Rests.{unread_in};
    ghost use Rattle.schema_models.specs.Folds.{fold_of};

    ghost Value = { MergeView };

    ghost view = { λ m. record { left = fold_of m.shape.now (joined m.stream.rests); present = row_of m.present.items; unread = unread_in m.stream } };

    ghost invariant = { λ m. (m.stream.shape ≡ m.shape.now) × (length m.present.items ≡ length m.shape.now.columns) };
}

impl<'a, R: SortedRows> Merge<'a, R> {
    /// Makes all room, and looks at no row.
    pub fn open(alloc: Global, shape: &'a Shape, lists: &'a [R]) -> Result<Merge<'a, R>, NoMemory>
        requires { AreSortedLists shape.now (map (λ l. R.rows l) lists.now) }
        ensures left { IfOk result (λ m. m.left ≡ fold_of shape.now (joined (map (λ l. R.rows l) lists.now))) }
        ensures unread { IfOk result (λ m. m.unread ≡ stored (map (λ l. R.rows l) lists.now)) }
    {
        let stream = Stream::open(alloc, shape, lists)?;
        let present = room_for(alloc, shape.columns().len())?;
        Ok(Merge {
            shape,
            stream,
            present,
        })
    }

    /// Makes the next row of the fold the present one, and is false at the end. Takes no memory.
    pub fn next<L: Ledger>(&mut self, steps: &mut Steps<L>) -> bool
        ensures next { IsNextRow result self.old self.new }
        ensures counted { steps.new + self.new.unread ≡ steps.old + self.old.unread }
    {
        next_row(self.shape, &mut self.stream, &mut self.present, steps)
    }

    /// The present row.
    pub fn present(&self) -> &[MergedCell<'a>]
        ensures { row_of result.now ≡ self.now.present }
    {
        self.present.as_slice()
    }
}
