//! Laws of row maps: each function does nothing, and its contract is the law.
ghost use Rattle.std.specs.Prelude.{◌≡◌, ℕ, List, None};
ghost use Rattle.std.specs.List.{AllByRecursion};
ghost use Rattle.dl_values.specs.declared.cell.Cell.{Cell};
ghost use Rattle.schema_models.specs.RowRules.{IsOfShape};
ghost use Rattle.schema_models.specs.ShapeView.{ShapeView};
ghost use Rattle.row_map.specs.Maps.{AdmittedRollupsJoin, Converts, rollup_map, unknown_column};

/// Rows of a shape convert by the map of each rollup of columns that it has.
pub fn rows_of_a_shape_convert()
    ensures { (s : ShapeView) (names : List (List ℕ)) (rows : List (List Cell)) → unknown_column s names ≡ None → AllByRecursion (IsOfShape s) rows → Converts (rollup_map s names) rows }
{}

/// The law of conversion. By the map of an admitted rollup the fold of more rows converts where the fold of the first and the
/// new rows do, what was converted joins with the new rows converted, and converted rows of different keys change places.
pub fn admitted_rollups_join()
    ensures { AdmittedRollupsJoin }
{}
