// What a test asks of a cell.
ghost use Rattle.std.specs.Prelude.{◌≡◌};
ghost use Rattle.select_eval.specs.declared.asked.Asked.TheVariants as asked;
ghost use Rattle.dl_values.specs.Order.{cell_cmp};
ghost use Rattle.merge_read.specs.Merged.{cell_of};
ghost use Rattle.select_defs.specs.Filters as filters;
ghost use Rattle.select_eval.specs.Conditions as conditions;

use dl_values::{Cell, compare_cells};
use merge_read::MergedCell;
use sql_text::CompareOp;
use std::cmp::Ordering;

// A check of a query whose literal is a cell already. Nothing passes `Never`.
#[derive(Debug, Drop)]
pub enum Asked {
    Compare(CompareOp, Cell),
    IsNull,
    IsNotNull,
    Never,
}

// Whether a cell that stands so to a literal's passes.
fn passes_op(op: CompareOp, order: Ordering) -> bool
    ensures { result ≡ filters.passes_op op order }
{
    match op {
        CompareOp::Eq => order.is_eq(),
        CompareOp::Ne => !order.is_eq(),
        CompareOp::Lt => order.is_lt(),
        CompareOp::Le => order.is_le(),
        CompareOp::Gt => order.is_gt(),
        CompareOp::Ge => order.is_ge(),
    }
}

// Whether a merged cell is null.
pub fn is_null(cell: MergedCell) -> bool
    ensures { result ≡ filters.is_null (cell_of cell.entry) }
{
    match cell {
        MergedCell::Kept(Cell::Null) => true,
        MergedCell::Kept(_) | MergedCell::Sum(_) => false,
    }
}

// How a merged cell stands to another.
fn compare(cell: MergedCell, other: &Cell) -> Ordering
    ensures { result ≡ cell_cmp (cell_of cell.entry) other.now }
{
    match cell {
        MergedCell::Kept(cell) => compare_cells(cell, other),
        MergedCell::Sum(sum) => compare_cells(&Cell::Int(sum), other),
    }
}

// Whether a merged cell stands so to a literal's; a comparison with null is false.
fn compares(op: CompareOp, cell: MergedCell, literal: &Cell) -> bool
    ensures { result ≡ conditions.passes (asked.Compare op literal.now) (cell_of cell.entry) }
{
    if is_null(cell) {
        return false;
    }
    passes_op(op, compare(cell, literal))
}

impl Asked {
    // Whether a merged cell is what is asked.
    pub fn passes(&self, cell: MergedCell) -> bool
        ensures { result ≡ conditions.passes self.now (cell_of cell.entry) }
    {
        match self {
            Asked::Compare(op, literal) => compares(*op, cell, literal),
            Asked::IsNull => is_null(cell),
            Asked::IsNotNull => !is_null(cell),
            Asked::Never => false,
        }
    }
}
