// Tests of the cells of one column.
ghost use Rattle.std.specs.Prelude.{◌≡◌};
ghost use Rattle.zones.specs.Tests as tests;

use dl_values::{Cell, compare_cells};
use std::cmp::Ordering;

/// What a test asks of a cell: how it stands to a literal, or whether it is null.
#[derive(Clone, Copy, Debug, PartialEq, Eq)]
pub enum Op {
    Eq,
    Ne,
    Lt,
    Le,
    Gt,
    Ge,
    IsNull,
    IsNotNull,
}

/// A test of a column by its place. A comparison with null is false, of both sides (Apache Doris documentation, "NULL");
/// `IsNull` and `IsNotNull` take no heed of the literal.
#[derive(Debug, Drop)]
pub struct Test {
    pub column: usize,
    pub op: Op,
    pub literal: Cell,
}

pub fn is_null(cell: &Cell) -> bool
    ensures { result ≡ tests.is_null cell.now }
{
    match cell {
        Cell::Null => true,
        Cell::Int(_) | Cell::Day(_) | Cell::Text(_) => false,
    }
}

// Whether a cell that stands so to the literal is what is asked.
fn by_order(op: Op, order: Ordering) -> bool
    ensures { result ≡ tests.by_order op order }
{
    match op {
        Op::Eq => order.is_eq(),
        Op::Ne => !order.is_eq(),
        Op::Lt => order.is_lt(),
        Op::Le => order.is_le(),
        Op::Gt => order.is_gt(),
        Op::Ge => order.is_ge(),
        Op::IsNull | Op::IsNotNull => false,
    }
}

impl Test {
    /// Whether a cell of the column passes.
    pub fn passes(&self, cell: &Cell) -> bool
        ensures { result ≡ tests.passes self.now.op self.now.literal cell.now }
    {
        match self.op {
            Op::IsNull => is_null(cell),
            Op::IsNotNull => !is_null(cell),
            op => {
                !is_null(&self.literal)
                    && !is_null(cell)
                    && by_order(op, compare_cells(cell, &self.literal))
            }
        }
    }
}
