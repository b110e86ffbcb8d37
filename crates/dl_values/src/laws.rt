//! Laws of the order of cells and rows.
ghost use Rattle.std.specs.Cmp.{IsTotalOrder};
ghost use Rattle.std.specs.FinMap.{IsAntisymmetric};
ghost use Rattle.dl_values.specs.Order.{cell_cmp, row_cmp};

/// The order of cells is total, and two cells tie only where they are the same.
pub fn cells_are_ordered()
    ensures total { IsTotalOrder cell_cmp }
    ensures same { IsAntisymmetric cell_cmp }
{}

/// The order of rows is total, and two rows tie only where they are the same.
pub fn rows_are_ordered()
    ensures total { IsTotalOrder row_cmp }
    ensures same { IsAntisymmetric row_cmp }
{}
