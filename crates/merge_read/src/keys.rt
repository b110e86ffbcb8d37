// Keys of rows, of which one may be in the making.
ghost use Rattle.std.specs.Prelude.{◌≡◌, take};
ghost use Rattle.dl_values.specs.Order.{row_cmp};
ghost use Rattle.merge_read.specs.Merged.{row_of};

use crate::merged_cell::{MergedCell, compare_merged};
use dl_values::{RowView, compare_cells};
use std::cmp::Ordering;

// How the first cells of two rows stand to each other.
pub fn compare_keys(a: &RowView, a_width: usize, b: &RowView, b_width: usize) -> Ordering
    ensures { result ≡ row_cmp (take a_width a.now) (take b_width b.now) }
{
    let a_end = a_width.min(a.len());
    let b_end = b_width.min(b.len());
    for i in 0..a_end.min(b_end) {
        match compare_cells(a.cell(i), b.cell(i)) {
            Ordering::Equal => {}
            other => return other,
        }
    }
    a_end.cmp(&b_end)
}

// How the first cells of a row that is being made stand to those of a row.
pub fn compare_made(a: &[MergedCell], a_width: usize, b: &RowView, b_width: usize) -> Ordering
    ensures { result ≡ row_cmp (take a_width (row_of a.now)) (take b_width b.now) }
{
    let a_end = a_width.min(a.len());
    let b_end = b_width.min(b.len());
    for i in 0..a_end.min(b_end) {
        match compare_merged(a[i], b.cell(i)) {
            Ordering::Equal => {}
            other => return other,
        }
    }
    a_end.cmp(&b_end)
}
