// The cells by which rows are grouped.
ghost use Rattle.std.specs.Prelude.{◌≡◌, [], IfOk, OnOk};
ghost use Rattle.std.proofs.Common.{refl};
ghost use Rattle.std.specs.Cmp.{eq_by_cmp_equiv, partial_equiv_from_equiv, partial_order_from_total};
ghost use Rattle.std.specs.Ordering.{as_partial_cmp, eq_by_cmp};
ghost use Rattle.merge_read.specs.Merged.{row_of};
ghost use Rattle.select_eval.specs.Outputs.{cells_in};

use crate::cells::copy_at;
use dl_values::{Cell, NoMemory, RowView, compare_slices, copy_cell};
use merge_read::MergedCell;
use row_fold::prefix_of_view;
use std::alloc::Global;
use std::cmp::Ordering;
use std::marker::Model;

// The cells of a key, with the number of the first, which decides most comparisons.
#[derive(Debug, Drop)]
pub struct GroupKey {
    prefix: u64,
    cells: Vec<Cell>,
}

impl Model for GroupKey {
    ghost use Rattle.std.specs.Prelude.{List, ◌≡◌};
    ghost use Rattle.dl_values.specs.declared.cell.Cell.{Cell};
    ghost use Rattle.row_fold.specs.Prefix.{row_prefix};

    ghost Value = { List Cell };

    ghost view = { λ k. k.cells.items };

    ghost invariant = { λ k. k.prefix ≡ row_prefix k.cells.items };
}

// Puts the cells of a row at these places in the room of others.
#[inline(always)]
fn fill(
    alloc: Global,
    cells: &mut Vec<Cell>,
    places: &[Option<usize>],
    row: &[MergedCell],
) -> Result<(), NoMemory>
    ensures { OnOk result (cells.new.items ≡ cells_in places.now (row_of row.now)) }
{
    cells.clear();
    for place in places {
        cells.push(copy_at(alloc, row, *place)?)?;
    }
    Ok(())
}

impl GroupKey {
    ghost use Rattle.dl_values.specs.Order.{row_cmp};

    // The key of cells.
    fn of_cells(cells: Vec<Cell>) -> GroupKey
        ensures { result ≡ cells.items }
    {
        GroupKey {
            prefix: prefix_of_view(&RowView::of_cells(cells.as_slice())),
            cells,
        }
    }

    // The key of no cells.
    pub fn new(alloc: Global) -> GroupKey
        ensures { result ≡ [] }
    {
        GroupKey::of_cells(Vec::new(alloc))
    }

    // Becomes the key of a row, whose cells stand at these places.
    #[inline(always)]
    pub fn refill(
        &mut self,
        alloc: Global,
        places: &[Option<usize>],
        row: &[MergedCell],
    ) -> Result<(), NoMemory>
        ensures { OnOk result (self.new ≡ cells_in places.now (row_of row.now)) }
    {
        let filled = fill(alloc, &mut self.cells, places, row);
        self.prefix = prefix_of_view(&RowView::of_cells(self.cells.as_slice()));
        filled
    }

    // An equal key of its own.
    pub fn copy(&self, alloc: Global) -> Result<GroupKey, NoMemory>
        ensures { IfOk result (λ k. k ≡ self.now) }
    {
        let mut cells = Vec::with_capacity(alloc, self.cells.len())?;
        for cell in &self.cells {
            cells.push(copy_cell(alloc, cell)?)?;
        }
        Ok(GroupKey::of_cells(cells))
    }

    // Its cells.
    pub fn cells(&self) -> &[Cell]
        ensures { result.now ≡ self.now }
    {
        self.cells.as_slice()
    }

    // How two keys stand to each other. The numbers decide, but where they are the same number the cells do.
    fn compare(&self, other: &GroupKey) -> Ordering
        ensures { result ≡ row_cmp self.now other.now }
    {
        if self.prefix < other.prefix {
            return Ordering::Less;
        }
        if other.prefix < self.prefix {
            return Ordering::Greater;
        }
        compare_slices(self.cells.as_slice(), other.cells.as_slice())
    }
}

impl PartialEq for GroupKey {
    ghost use Rattle.dl_values.specs.Order.{row_cmp};
    ghost use Rattle.dl_values.specs.OrderLemmas.{rows_total};

    ghost eq = { eq_by_cmp row_cmp };

    ghost laws = { partial_equiv_from_equiv (eq_by_cmp_equiv rows_total) };

    fn eq(&self, other: &GroupKey) -> bool {
        match self.compare(other) {
            Ordering::Equal => true,
            Ordering::Less | Ordering::Greater => false,
        }
    }
}

impl Eq for GroupKey {
    ghost use Rattle.dl_values.specs.OrderLemmas.{rows_total};

    ghost laws = { eq_by_cmp_equiv rows_total };
}

impl PartialOrd for GroupKey {
    ghost use Rattle.dl_values.specs.Order.{row_cmp};
    ghost use Rattle.dl_values.specs.OrderLemmas.{rows_total};

    ghost partial_cmp = { as_partial_cmp row_cmp };

    ghost laws = { partial_order_from_total rows_total };

    fn partial_cmp(&self, other: &GroupKey) -> Option<Ordering> {
        Some(self.compare(other))
    }
}

impl Ord for GroupKey {
    ghost use Rattle.dl_values.specs.Order.{row_cmp};
    ghost use Rattle.dl_values.specs.OrderLemmas.{rows_total};

    ghost cmp = { row_cmp };

    ghost total = { rows_total };

    ghost matches_partial_cmp = { λ x y. refl };

    ghost matches_eq = { λ x y. refl };

    fn cmp(&self, other: &GroupKey) -> Ordering {
        self.compare(other)
    }
}
