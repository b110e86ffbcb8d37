// The rows of one key, which merge into one.
ghost use Rattle.std.specs.Prelude.{◌≡◌, ◌+◌, ◌∷◌, length, true};
ghost use Rattle.row_fold.specs.Prefix.{row_prefix};
ghost use Rattle.merge_read.specs.Lists.{joined};
ghost use Rattle.merge_read.specs.Merged.{row_of};
ghost use Rattle.merge_read.specs.Rests.{unread_in};
ghost use Rattle.merge_read.specs.Runs.{AreFrom, IsMade};
ghost use Rattle.schema_models.specs.Folds.{fold_of, key_of};
ghost use Rattle.schema_models.specs.declared.model.Model.TheVariants as model;

use crate::merged_cell::MergedCell;
use crate::present::{begin, merge};
use crate::stream::Stream;
use dl_outside::Steps;
use row_fold::SortedRows;
use schema_models::{Model, Shape};
use std::sync::ledger::Ledger;

// Merges the rows that come next and have the key of the row that is being made. The number is that of the key.
pub fn merge_same<'a, R: SortedRows, L: Ledger>(
    shape: &Shape,
    stream: &mut Stream<'a, R>,
    cells: &mut [MergedCell<'a>],
    prefix: u64,
    steps: &mut Steps<L>,
)
    requires merges { shape.now.model ≡ model.Duplicate → ⊥ }
    requires shape { stream.old.shape ≡ shape.now }
    requires begun { stream.old.begun ≡ true }
    requires width { length cells.old ≡ length shape.now.columns }
    requires prefix { prefix ≡ row_prefix (key_of shape.now (row_of cells.old)) }
    requires from { AreFrom shape.now (key_of shape.now (row_of cells.old)) stream.old.rests }
    ensures shape { stream.new.shape ≡ shape.now }
    ensures begun { stream.new.begun ≡ true }
    ensures merged { fold_of shape.now (row_of cells.old ∷ joined stream.old.rests) ≡ row_of cells.new ∷ fold_of shape.now (joined stream.new.rests) }
    ensures counted { steps.new + unread_in stream.new ≡ steps.old + unread_in stream.old }
{
    while let Some(head) = stream.first_of_key(prefix, cells) {
        merge(shape.columns(), cells, &head.row);
        stream.advance(steps);
    }
}

// Makes the next row of the fold, where there is one.
pub fn next_row<'a, R: SortedRows, L: Ledger>(
    shape: &Shape,
    stream: &mut Stream<'a, R>,
    cells: &mut [MergedCell<'a>],
    steps: &mut Steps<L>,
) -> bool
    requires shape { stream.old.shape ≡ shape.now }
    requires width { length cells.old ≡ length shape.now.columns }
    ensures shape { stream.new.shape ≡ shape.now }
    ensures made { IsMade result shape.now stream.old (row_of cells.new) stream.new }
    ensures counted { steps.new + unread_in stream.new ≡ steps.old + unread_in stream.old }
{
    stream.begin(steps);
    let Some(head) = stream.first() else {
        return false;
    };
    begin(cells, &head.row);
    let prefix = head.prefix;
    stream.advance(steps);
    match shape.model() {
        Model::Duplicate => true,
        Model::Unique | Model::Aggregate => {
            merge_same(shape, stream, cells, prefix, steps);
            true
        }
    }
}
