// The order of cells and rows: null first, then integers and days by value, then texts by bytes.
ghost use Rattle.std.specs.Prelude.{◌≡◌};
ghost use Rattle.dl_values.specs.Order.{cell_cmp, row_cmp};

use crate::{Cell, Row};
use std::cmp::Ordering;

/// How two cells stand to each other.
pub fn compare_cells(a: &Cell, b: &Cell) -> Ordering
    ensures { result ≡ cell_cmp a.now b.now }
{
    match (a, b) {
        (Cell::Null, Cell::Null) => Ordering::Equal,
        (Cell::Null, _) => Ordering::Less,
        (_, Cell::Null) => Ordering::Greater,
        (Cell::Int(x), Cell::Int(y)) => x.cmp(y),
        (Cell::Int(_), _) => Ordering::Less,
        (_, Cell::Int(_)) => Ordering::Greater,
        (Cell::Day(x), Cell::Day(y)) => x.cmp(y),
        (Cell::Day(_), _) => Ordering::Less,
        (_, Cell::Day(_)) => Ordering::Greater,
        (Cell::Text(x), Cell::Text(y)) => x.compare(y),
    }
}

/// How two lists of cells stand to each other, by the first cell that differs, and then by length.
pub fn compare_slices(a: &[Cell], b: &[Cell]) -> Ordering
    ensures { result ≡ row_cmp a.now b.now }
{
    for i in 0..a.len().min(b.len()) {
        match compare_cells(&a[i], &b[i]) {
            Ordering::Equal => {}
            other => return other,
        }
    }
    a.len().cmp(&b.len())
}

/// How two rows stand to each other, by the first cell that differs, and then by length.
pub fn compare_rows(a: &Row, b: &Row) -> Ordering
    ensures { result ≡ row_cmp a.now b.now }
{
    compare_slices(a.cells(), b.cells())
}
