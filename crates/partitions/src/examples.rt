//! Worked examples: what the definitions say of the places of rows.
ghost use Rattle.std.specs.Prelude.{◌≡◌, None, Some, ◌∷◌, []};
ghost use Rattle.dl_values.specs.declared.cell.Cell.TheVariants as cell;
ghost use Rattle.partitions.specs.declared.part_def.Bounds.TheVariants as bounds;
ghost use Rattle.partitions.specs.LayoutFaults.{add_fault};
ghost use Rattle.partitions.specs.LayoutRules.{IsLayout};
ghost use Rattle.partitions.specs.declared.layout_error.LayoutError.TheVariants as layout_error;
ghost use Rattle.partitions.specs.Places.{hash_of, place_for};
ghost use Rattle.partitions.specs.Examples.{layout, oslo, p1, p2, rome, sales, sold};

/// Oslo is in bucket 3 and Rome in bucket 1; the ends of ranges belong to the later partition, and null to the first.
pub fn rows_of_sales()
    ensures valid { IsLayout sales layout }
    ensures oslo_hash { hash_of layout.columns layout.hash (sold oslo (cell.Day 20240105) 3) ≡ 2467463 }
    ensures rome_hash { hash_of layout.columns layout.hash (sold rome (cell.Day 20240105) 5) ≡ 2553013 }
    ensures january { place_for layout (sold oslo (cell.Day 20240105) 3) ≡ Some (record { part = 0; bucket = 3 }) }
    ensures february { place_for layout (sold oslo (cell.Day 20240210) 4) ≡ Some (record { part = 1; bucket = 3 }) }
    ensures rome_too { place_for layout (sold rome (cell.Day 20240105) 5) ≡ Some (record { part = 0; bucket = 1 }) }
    ensures first_day { place_for layout (sold rome (cell.Day 20240201) 5) ≡ Some (record { part = 1; bucket = 1 }) }
    ensures outside { place_for layout (sold rome (cell.Day 20240301) 1) ≡ None }
    ensures nothing { place_for layout (sold rome cell.Null 1) ≡ Some (record { part = 0; bucket = 1 }) }
{}

/// LESS THAN begins where the highest range below it ends; a lower one is an overlap, and so is a name that stands twice.
pub fn a_partition_is_added()
    ensures range { p2.bounds ≡ bounds.Between (Some (cell.Day 20240201)) (Some (cell.Day 20240301)) }
    ensures next { add_fault layout (record { name = 112 ∷ 51 ∷ []; bounds = bounds.Less None }) ≡ None }
    ensures again { add_fault layout (record { name = p1.name; bounds = bounds.Less None }) ≡ Some (layout_error.DoubleName p1.name) }
    ensures lower { add_fault layout (record { name = 112 ∷ 51 ∷ []; bounds = bounds.Less (Some (cell.Day 20240101)) }) ≡ Some (layout_error.Overlap (112 ∷ 51 ∷ [])) }
    ensures null { add_fault layout (record { name = 112 ∷ 51 ∷ []; bounds = bounds.Less (Some cell.Null) }) ≡ Some (layout_error.BadBound (112 ∷ 51 ∷ [])) }
{}
