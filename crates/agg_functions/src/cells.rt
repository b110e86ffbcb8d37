// Merging two cells by kind.
ghost use Rattle.std.specs.Prelude.{◌≡◌};
ghost use Rattle.agg_functions.specs.Merge.{greater, lesser, merged_cell, sum};

use dl_values::{AggKind, Cell, compare_cells};
use std::cmp::Ordering;

/// The cell of an old one and a newer one (Apache Doris documentation, "Aggregate Key Model"). A null counts for nothing
/// but under REPLACE. Takes no memory.
pub fn merge_cells(kind: AggKind, old: Cell, new: Cell) -> Cell
    ensures { result ≡ merged_cell kind old new }
{
    match (kind, old, new) {
        (AggKind::Replace, _, new) => new,
        (_, old, Cell::Null) => old,
        (_, Cell::Null, new) => new,
        (AggKind::ReplaceIfNotNull, _, new) => new,
        (AggKind::Sum, old, new) => sum_of(old, new),
        (AggKind::Min, old, new) => lesser_of(old, new),
        (AggKind::Max, old, new) => greater_of(old, new),
    }
}

// The sum modulo 2^64, in two's complement, of two integers. A SUM column has no other cells.
fn sum_of(old: Cell, new: Cell) -> Cell
    ensures { result ≡ sum old new }
{
    match (old, new) {
        (Cell::Int(x), Cell::Int(y)) => Cell::Int(x.wrapping_add(y)),
        (Cell::Int(x), _) => Cell::Int(x),
        (_, Cell::Int(y)) => Cell::Int(y),
        (old, new) => greater_of(old, new),
    }
}

// The lesser of two cells, the old one of two that tie.
fn lesser_of(old: Cell, new: Cell) -> Cell
    ensures { result ≡ lesser old new }
{
    match compare_cells(&old, &new) {
        Ordering::Greater => new,
        _ => old,
    }
}

// The greater of two cells, the newer one of two that tie.
fn greater_of(old: Cell, new: Cell) -> Cell
    ensures { result ≡ greater old new }
{
    match compare_cells(&old, &new) {
        Ordering::Greater => old,
        _ => new,
    }
}
