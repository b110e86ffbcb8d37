// The ends of cells.
ghost use Rattle.std.specs.Prelude.{◌≡◌, IfOk};
ghost use Rattle.std.specs.Ordering.{is_gt, is_lt};
ghost use Rattle.dl_values.specs.Order.{cell_cmp};
ghost use Rattle.zones.specs.Ends as ends;
ghost use Rattle.zones.specs.Tests as tests;

use crate::test::{Op, Test, is_null};
use dl_values::{Cell, NoMemory, compare_cells, copy_cell};
use std::alloc::Global;
use std::cmp::Ordering;

/// The least and the greatest of some cells; null is below all others. Of no cells both are null.
#[derive(Debug, Drop)]
pub struct Zone {
    least: Cell,
    greatest: Cell,
}

impl std::marker::Model for Zone {
    ghost use Rattle.zones.specs.Ends.{EndsView};

    ghost Value = { EndsView };

    ghost view = { λ z. record { least = z.least; greatest = z.greatest } };
}

// The first of cells, or null.
fn first<'a>(cells: &'a [Cell], null: &'a Cell) -> &'a Cell
    ensures { result.now ≡ ends.first_or cells.now null.now }
{
    match cells {
        [] => null,
        [cell, ..] => cell,
    }
}

// Whether a cell is above another. Most are numbers, which are compared here.
fn is_above(cell: &Cell, other: &Cell) -> bool
    ensures { result ≡ is_gt (cell_cmp cell.now other.now) }
{
    match (cell, other) {
        (Cell::Int(x), Cell::Int(y)) => x > y,
        _ => compare_cells(cell, other).is_gt(),
    }
}

// Whether a cell is below another.
fn is_below(cell: &Cell, other: &Cell) -> bool
    ensures { result ≡ is_lt (cell_cmp cell.now other.now) }
{
    match (cell, other) {
        (Cell::Int(x), Cell::Int(y)) => x < y,
        _ => compare_cells(cell, other).is_lt(),
    }
}

// The least and the greatest of cells. What is above the greatest is not below the least, and is not compared with it.
fn least_and_greatest<'a>(cells: &'a [Cell], null: &'a Cell) -> (&'a Cell, &'a Cell)
    ensures least { result.0.now ≡ ends.least_of cells.now null.now }
    ensures greatest { result.1.now ≡ ends.greatest_of cells.now null.now }
{
    let mut least = first(cells, null);
    let mut greatest = least;
    for cell in cells {
        if is_above(cell, greatest) {
            greatest = cell;
        } else if is_below(cell, least) {
            least = cell;
        }
    }
    (least, greatest)
}

// Whether a cell between two may stand to a literal as is asked, by how the least and the greatest do.
fn between(op: Op, least: Ordering, greatest: Ordering) -> bool
    ensures { result ≡ ends.between op least greatest }
{
    match op {
        Op::Eq => !least.is_gt() && !greatest.is_lt(),
        Op::Ne => !least.is_eq() || !greatest.is_eq(),
        Op::Lt => least.is_lt(),
        Op::Le => !least.is_gt(),
        Op::Gt => greatest.is_gt(),
        Op::Ge => !greatest.is_lt(),
        Op::IsNull | Op::IsNotNull => false,
    }
}

impl Zone {
    /// The ends of these cells.
    pub fn of(alloc: Global, cells: &[Cell]) -> Result<Zone, NoMemory>
        ensures { IfOk result (λ z. z ≡ ends.ends_of cells.now) }
    {
        let null = Cell::Null;
        let (least, greatest) = least_and_greatest(cells, &null);
        Ok(Zone {
            least: copy_cell(alloc, least)?,
            greatest: copy_cell(alloc, greatest)?,
        })
    }

    /// Whether a cell between the ends may pass a test. Takes no memory. Where it is false, no cell of which these are the ends
    /// passes (`laws::what_passes_is_between_the_ends`).
    pub fn may_match(&self, test: &Test) -> bool
        ensures { result ≡ ends.may_match test.now.op test.now.literal self.now }
    {
        match test.op {
            Op::IsNull => is_null(&self.least),
            Op::IsNotNull => !is_null(&self.greatest),
            op => {
                !is_null(&test.literal)
                    && !is_null(&self.greatest)
                    && between(
                        op,
                        compare_cells(&self.least, &test.literal),
                        compare_cells(&self.greatest, &test.literal),
                    )
            }
        }
    }
}
