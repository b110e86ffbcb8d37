// One cell of a row that is merged while it is read.
ghost use Rattle.std.specs.Prelude.{◌≡◌};
ghost use Rattle.agg_functions.specs.Merge.{merged_cell};
ghost use Rattle.std.specs.Ordering.{is_gt};
ghost use Rattle.dl_values.specs.Order.{cell_cmp};
ghost use Rattle.dl_values.specs.declared.agg_kind.AggKind.TheVariants as kind;
ghost use Rattle.merge_read.specs.Merged.{cell_of};
ghost use Rattle.schema_models.specs.Folds.{merged_by_role};

use dl_values::{AggKind, Cell, compare_cells};
use schema_models::Role;
use std::cmp::Ordering;

/// A stored cell where it stands, or a sum of several.
#[derive(Clone, Copy, Debug)]
pub enum MergedCell<'a> {
    Kept(&'a Cell),
    Sum(i64),
}

// How an old cell stands to a newer one.
pub fn compare_merged(old: MergedCell, new: &Cell) -> Ordering
    ensures { result ≡ cell_cmp (cell_of old.entry) new.now }
{
    match old {
        MergedCell::Kept(cell) => compare_cells(cell, new),
        MergedCell::Sum(sum) => compare_cells(&Cell::Int(sum), new),
    }
}

// Whether an old cell is greater than a newer one.
fn is_above(old: MergedCell, new: &Cell) -> bool
    ensures { result ≡ is_gt (cell_cmp (cell_of old.entry) new.now) }
{
    match compare_merged(old, new) {
        Ordering::Greater => true,
        Ordering::Less | Ordering::Equal => false,
    }
}

fn least_of<'a>(old: MergedCell<'a>, new: &'a Cell) -> MergedCell<'a>
    ensures { cell_of result ≡ merged_cell kind.Min (cell_of old.entry) new.now }
{
    match (old, new) {
        (_, Cell::Null) => old,
        (MergedCell::Kept(Cell::Null), _) => MergedCell::Kept(new),
        _ => {
            if is_above(old, new) {
                MergedCell::Kept(new)
            } else {
                old
            }
        }
    }
}

fn greatest_of<'a>(old: MergedCell<'a>, new: &'a Cell) -> MergedCell<'a>
    ensures { cell_of result ≡ merged_cell kind.Max (cell_of old.entry) new.now }
{
    match (old, new) {
        (_, Cell::Null) => old,
        (MergedCell::Kept(Cell::Null), _) => MergedCell::Kept(new),
        _ => {
            if is_above(old, new) {
                old
            } else {
                MergedCell::Kept(new)
            }
        }
    }
}

fn sum_of<'a>(old: MergedCell<'a>, new: &'a Cell) -> MergedCell<'a>
    ensures { cell_of result ≡ merged_cell kind.Sum (cell_of old.entry) new.now }
{
    match (old, new) {
        (_, Cell::Null) => old,
        (MergedCell::Kept(Cell::Null), _) => MergedCell::Kept(new),
        (MergedCell::Sum(sum), Cell::Int(more)) => MergedCell::Sum(sum.wrapping_add(*more)),
        (MergedCell::Kept(Cell::Int(sum)), Cell::Int(more)) => {
            MergedCell::Sum(sum.wrapping_add(*more))
        }
        (MergedCell::Sum(_), _) => old,
        (MergedCell::Kept(Cell::Int(_)), _) => old,
        (_, Cell::Int(_)) => MergedCell::Kept(new),
        _ => {
            if is_above(old, new) {
                old
            } else {
                MergedCell::Kept(new)
            }
        }
    }
}

fn newest_of<'a>(old: MergedCell<'a>, new: &'a Cell) -> MergedCell<'a>
    ensures { cell_of result ≡ merged_cell kind.ReplaceIfNotNull (cell_of old.entry) new.now }
{
    match new {
        Cell::Null => old,
        _ => MergedCell::Kept(new),
    }
}

// The cell of an old one and a newer one, by the role of their column.
pub fn merge_cell<'a>(role: Role, old: MergedCell<'a>, new: &'a Cell) -> MergedCell<'a>
    ensures { cell_of result ≡ merged_by_role role (cell_of old.entry) new.now }
{
    match role {
        Role::Key => old,
        Role::Plain | Role::Agg(AggKind::Replace) => MergedCell::Kept(new),
        Role::Agg(AggKind::Sum) => sum_of(old, new),
        Role::Agg(AggKind::Min) => least_of(old, new),
        Role::Agg(AggKind::Max) => greatest_of(old, new),
        Role::Agg(AggKind::ReplaceIfNotNull) => newest_of(old, new),
    }
}
