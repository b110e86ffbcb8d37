// Lists of rows that are read side by side, of which the first row by key and age comes next.
ghost use Rattle.std.specs.Prelude.{◌≡◌, ◌+◌, IfNone, IfOk, IfSome, IsSome, Some, [], false, length, map, option_copied, replicate, true};
ghost use Rattle.std.specs.List.{AllByRecursion};
ghost use Rattle.std.specs.declared.cmp.Ordering.TheVariants.{Equal};
ghost use Rattle.dl_values.specs.Order.{row_cmp};
ghost use Rattle.row_fold.specs.Prefix.{row_prefix};
ghost use Rattle.merge_read.specs.HeadOrder.{head_key};
ghost use Rattle.merge_read.specs.Lists.{AreSortedLists};
ghost use Rattle.merge_read.specs.Merged.{row_of};
ghost use Rattle.merge_read.specs.Rests.{IsTaken, unread_in};
ghost use Rattle.merge_read.specs.Runs.{AreAbove, AreFrom};
ghost use Rattle.schema_models.specs.Folds.{key_of};
ghost use Rattle.schema_models.specs.declared.model.Model.TheVariants as model;

use crate::head::Head;
use crate::heads::Heads;
use crate::merged_cell::MergedCell;
use crate::next_heads::{load_heads, next_first};
use crate::widths::key_width;
use dl_outside::Steps;
use dl_values::NoMemory;
use row_fold::SortedRows;
use schema_models::Shape;
use std::alloc::Global;
use std::marker::Model;
use std::sync::ledger::Ledger;

// The lists, how many rows were taken of each, and the next row of each: the first of them, and the others.
#[derive(Drop)]
pub struct Stream<'a, R: SortedRows> {
    shape: &'a Shape,
    width: usize,
    lists: &'a [R],
    places: Vec<usize>,
    begun: bool,
    first: Option<Head<'a>>,
    others: Heads<'a>,
}

impl<'a, R: SortedRows> Model for Stream<'a, R> {
    ghost use Rattle.std.specs.Prelude.{map};
    ghost use Rattle.merge_read.specs.Rests.{IsStream, StreamView, stream_view};

    ghost Value = { StreamView };

    ghost view = { λ m. stream_view m.shape.now m.begun (map (λ l. R.rows l) m.lists.now) m.places.items m.first };

    ghost invariant = { λ m. IsStream m.shape.now m.width (map (λ l. R.rows l) m.lists.now) m.places.items m.begun m.first m.others };
}

// As many zeros.
fn zeros(alloc: Global, count: usize) -> Result<Vec<usize>, NoMemory>
    ensures { IfOk result (λ places. places.items ≡ replicate count 0) }
{
    let mut places = Vec::with_capacity(alloc, count)?;
    for _ in 0..count {
        places.push(0)?;
    }
    Ok(places)
}

impl<'a, R: SortedRows> Stream<'a, R> {
    // All room is made here, and no row is looked at.
    pub fn open(alloc: Global, shape: &'a Shape, lists: &'a [R]) -> Result<Stream<'a, R>, NoMemory>
        requires { AreSortedLists shape.now (map (λ l. R.rows l) lists.now) }
        ensures shape { IfOk result (λ m. m.shape ≡ shape.now) }
        ensures begun { IfOk result (λ m. m.begun ≡ false) }
        ensures rests { IfOk result (λ m. m.rests ≡ map (λ l. R.rows l) lists.now) }
    {
        shape.vouch();
        let places = zeros(alloc, lists.len())?;
        let others = Heads::with_room(alloc, lists.len())?;
        Ok(Stream {
            shape,
            width: key_width(shape),
            lists,
            places,
            begun: false,
            first: None,
            others,
        })
    }

    // Looks at the first row of each list, where that was not done yet.
    pub fn begin<L: Ledger>(&mut self, steps: &mut Steps<L>)
        ensures shape { self.new.shape ≡ self.old.shape }
        ensures begun { self.new.begun ≡ true }
        ensures rests { self.new.rests ≡ self.old.rests }
        ensures counted { steps.new + unread_in self.new ≡ steps.old + unread_in self.old }
    {
        if self.begun {
            return;
        }
        load_heads(self.shape, self.width, self.lists, &mut self.others, steps);
        self.first = self.others.take();
        self.begun = true;
    }

    // The first row by key and age.
    pub fn first(&self) -> Option<&Head<'a>>
        requires { self.now.begun ≡ true }
        ensures first { option_copied result ≡ self.now.first }
        ensures whole { IfSome result (λ h. length h.now.row ≡ length self.now.shape.columns) }
        ensures none { IfNone result (AllByRecursion (λ r. r ≡ []) self.now.rests) }
    {
        match &self.first {
            None => None,
            Some(first) => Some(first),
        }
    }

    // The first row, where it has the key of a row that is being made. The number is that of the key.
    pub fn first_of_key(&self, prefix: u64, cells: &[MergedCell]) -> Option<&Head<'a>>
        requires begun { self.now.begun ≡ true }
        requires merges { self.now.shape.model ≡ model.Duplicate → ⊥ }
        requires prefix { prefix ≡ row_prefix (key_of self.now.shape (row_of cells.now)) }
        ensures first { IfSome result (λ h. self.now.first ≡ Some h.now) }
        ensures whole { IfSome result (λ h. length h.now.row ≡ length self.now.shape.columns) }
        ensures same { IfSome result (λ h. row_cmp (key_of self.now.shape (row_of cells.now)) (head_key h.now) ≡ Equal) }
        ensures other { IfNone result (AreFrom self.now.shape (key_of self.now.shape (row_of cells.now)) self.now.rests → AreAbove self.now.shape (key_of self.now.shape (row_of cells.now)) self.now.rests) }
    {
        match &self.first {
            None => None,
            Some(first) => {
                if first.has_key(prefix, cells, self.width) {
                    Some(first)
                } else {
                    None
                }
            }
        }
    }

    // Leaves the first row behind, and looks at the next one of its list.
    pub fn advance<L: Ledger>(&mut self, steps: &mut Steps<L>)
        requires begun { self.old.begun ≡ true }
        requires some { IsSome self.old.first }
        ensures shape { self.new.shape ≡ self.old.shape }
        ensures begun { self.new.begun ≡ true }
        ensures taken { IsTaken self.old self.old.first self.new }
        ensures counted { steps.new + unread_in self.new ≡ steps.old + unread_in self.old }
    {
        let lists = self.lists;
        let Some(first) = &mut self.first else {
            unreachable!()
        };
        let list = first.list;
        let rows = &lists[list];
        // The row that is taken stands before the end, so that the next place is a number.
        let _end = rows.len();
        let place = self.places[list] + 1;
        self.places[list] = place;
        if !next_first(
            self.width,
            list,
            rows,
            place,
            first,
            &mut self.others,
            steps,
        ) {
            self.first = None;
        }
    }
}
