// The next row of one list.
ghost use Rattle.std.specs.Prelude.{◌≡◌, ◌↔◌, ◌<◌, IsTrue, take};
ghost use Rattle.std.proofs.Common.{refl};
ghost use Rattle.std.specs.Cmp.{eq_by_cmp_equiv, partial_equiv_from_equiv, partial_order_from_total};
ghost use Rattle.std.specs.Ordering.{as_partial_cmp, eq_by_cmp};
ghost use Rattle.row_fold.specs.Prefix.{row_prefix};

use crate::keys::{compare_keys, compare_made};
use crate::merged_cell::MergedCell;
use dl_values::RowView;
use row_fold::prefix_of_view;
use std::cmp::Ordering;

// The next row of a list, the number of its key, how many cells its key has, and the place of the list.
#[derive(Debug, Drop)]
pub struct Head<'a> {
    pub prefix: u64,
    pub row: RowView<'a>,
    width: usize,
    pub list: usize,
    pub ghost ok: { prefix ≡ row_prefix row },
    pub ghost has_key: { 0 < width },
}

impl<'a> Head<'a> {
    ghost use Rattle.std.specs.declared.cmp.Ordering.TheVariants.{Equal};
    ghost use Rattle.dl_values.specs.Order.{row_cmp};
    ghost use Rattle.merge_read.specs.HeadOrder.{head_key};
    ghost use Rattle.merge_read.specs.Merged.{row_of};

    pub fn new(row: RowView<'a>, width: usize, list: usize) -> Head<'a>
        requires { 0 < width }
        ensures row { result.row ≡ row.entry }
        ensures width { result.width ≡ width }
        ensures list { result.list ≡ list }
    {
        Head {
            prefix: prefix_of_view(&row),
            row,
            width,
            list,
        }
    }

    // How the keys of two heads stand to each other. The numbers decide, but where they are the same number the cells do.
    pub fn compare_key(&self, other: &Head) -> Ordering
        ensures { result ≡ row_cmp (head_key self.now) (head_key other.now) }
    {
        if self.prefix < other.prefix {
            return Ordering::Less;
        }
        if other.prefix < self.prefix {
            return Ordering::Greater;
        }
        compare_keys(&self.row, self.width, &other.row, other.width)
    }

    // Whether its key is that of a row that is being made, whose key has this many cells and this number.
    pub fn has_key(&self, prefix: u64, cells: &[MergedCell], width: usize) -> bool
        requires prefix { prefix ≡ row_prefix (take width (row_of cells.now)) }
        requires some { 0 < width }
        ensures { IsTrue result ↔ (row_cmp (take width (row_of cells.now)) (head_key self.now) ≡ Equal) }
    {
        prefix == self.prefix && compare_made(cells, width, &self.row, self.width).is_eq()
    }
}

impl<'a> PartialEq for Head<'a> {
    ghost use Rattle.merge_read.specs.HeadOrder.{head_cmp, heads_total};

    ghost eq = { eq_by_cmp head_cmp };

    ghost laws = { partial_equiv_from_equiv (eq_by_cmp_equiv heads_total) };

    fn eq(&self, other: &Head<'a>) -> bool {
        match self.cmp(other) {
            Ordering::Equal => true,
            Ordering::Less | Ordering::Greater => false,
        }
    }
}

impl<'a> Eq for Head<'a> {
    ghost use Rattle.merge_read.specs.HeadOrder.{heads_total};

    ghost laws = { eq_by_cmp_equiv heads_total };
}

impl<'a> PartialOrd for Head<'a> {
    ghost use Rattle.merge_read.specs.HeadOrder.{head_cmp, heads_total};

    ghost partial_cmp = { as_partial_cmp head_cmp };

    ghost laws = { partial_order_from_total heads_total };

    fn partial_cmp(&self, other: &Head<'a>) -> Option<Ordering> {
        Some(self.cmp(other))
    }
}

impl<'a> Ord for Head<'a> {
    ghost use Rattle.merge_read.specs.HeadOrder.{head_cmp, heads_total};

    ghost cmp = { head_cmp };

    ghost total = { heads_total };

    ghost matches_partial_cmp = { λ x y. refl };

    ghost matches_eq = { λ x y. refl };

    fn cmp(&self, other: &Head<'a>) -> Ordering {
        match other.compare_key(self) {
            Ordering::Equal => other.list.cmp(&self.list),
            unequal => unequal,
        }
    }
}
