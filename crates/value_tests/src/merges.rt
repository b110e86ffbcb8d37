// Tables of merges.
use super::tables::cell;
use agg_functions::{Merge, laws, merge_cells};
use dl_values::{AggKind, Cell, NoMemory, Text, compare_cells};
use std::alloc::Global;
use std::cmp::Ordering;
use std::test::Fail;

// A kind, the older and the newer number, and what they merge to.
type Case = (AggKind, Option<i64>, Option<i64>, Option<i64>);

const CASES: &[Case] = &[
    (AggKind::Sum, Some(1), Some(2), Some(3)),
    (AggKind::Sum, Some(i64::MAX), Some(1), Some(i64::MIN)),
    (AggKind::Sum, None, Some(2), Some(2)),
    (AggKind::Sum, Some(1), None, Some(1)),
    (AggKind::Sum, None, None, None),
    (AggKind::Min, Some(-1), Some(2), Some(-1)),
    (AggKind::Min, None, Some(2), Some(2)),
    (AggKind::Max, Some(-1), Some(2), Some(2)),
    (AggKind::Max, Some(-1), None, Some(-1)),
    (AggKind::Replace, Some(1), Some(2), Some(2)),
    (AggKind::Replace, Some(1), None, None),
    (AggKind::ReplaceIfNotNull, Some(1), Some(2), Some(2)),
    (AggKind::ReplaceIfNotNull, Some(1), None, Some(1)),
];

fn cases() -> &'static [Case] {
    CASES
}

fn merges(of: &Case) -> bool {
    let (kind, old, new, wanted) = of;
    let merged = kind.merge(cell(*old), cell(*new));
    compare_cells(&merged, &cell(*wanted)) == Ordering::Equal
}

#[test]
fn cells_merge_by_kind(rt: HostRuntime) {
    for (place, one) in cases().iter().enumerate() {
        assert!(rt; merges(one), "case {place}");
    }
}

fn text(alloc: Global, of: &[u8]) -> Result<Cell, NoMemory> {
    Ok(Cell::Text(Text::new(alloc, of)?))
}

// Whether the lesser text is the newer one.
fn least_is_newer(alloc: Global, older: &[u8], newer: &[u8]) -> Result<bool, NoMemory> {
    let least = merge_cells(AggKind::Min, text(alloc, older)?, text(alloc, newer)?);
    Ok(compare_cells(&least, &text(alloc, newer)?) == Ordering::Equal)
}

fn latest_is_older(older: u32, newer: u32) -> bool {
    let latest = merge_cells(AggKind::Max, Cell::Day(older), Cell::Day(newer));
    compare_cells(&latest, &Cell::Day(older)) == Ordering::Equal
}

#[test]
fn texts_and_days_merge_by_their_order(rt: HostRuntime) -> Result<(), Fail> {
    assert!(rt; least_is_newer(rt.alloc(), b"b", b"ab")?);
    assert!(rt; latest_is_older(2024_02_29, 2023_12_31));
    laws::cells_merge_in_parts();
    laws::sums_and_extremes_commute();
    Ok(())
}
