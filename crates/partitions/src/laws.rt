//! Laws of layouts: each function does nothing, and its contract is the law.
ghost use Rattle.std.specs.Prelude.{ℕ, None, ◌≡◌, ◌≤◌, ◌<◌, ◌∷◌, ◌++◌, Bool, true, false, List, Option, Some, length, map};
ghost use Rattle.std.specs.Ordering.{is_eq};
ghost use Rattle.dl_values.specs.Order.{row_cmp};
ghost use Rattle.std.specs.List.{AllByRecursion, filter, flat_map};
ghost use Rattle.dl_values.specs.declared.cell.Cell.{Cell};
ghost use Rattle.schema_models.specs.Folds.{fold_of, key_of};
ghost use Rattle.schema_models.specs.ShapeView.{ShapeView};
ghost use Rattle.partitions.specs.LayoutFaults.{add_fault, added, defined, layout_fault, with_part};
ghost use Rattle.partitions.specs.LayoutRules.{IsLayout};
ghost use Rattle.partitions.specs.LayoutView.{LayoutView};
ghost use Rattle.partitions.specs.Places.{AreInside, IsInside, Place, holds_row, place_for, rows_at, spread, tablets_of};
ghost use Rattle.partitions.specs.declared.part_def.PartDef.{PartDef};
ghost use Rattle.partitions.specs.declared.parts_def.PartsDef.{PartsDef};

/// What a definition without a fault gives is a valid layout, and so is a valid layout with a partition more that has no
/// fault.
pub fn what_is_defined_is_a_layout()
    ensures built { (s : ShapeView) (def : PartsDef) (hash : List (List ℕ)) (buckets : ℕ) → layout_fault s def hash buckets ≡ None → IsLayout s (defined s def hash buckets) }
    ensures added { (s : ShapeView) (l : LayoutView) (p : PartDef) → IsLayout s l → add_fault l p ≡ None → IsLayout s (added p l) }
{}

/// A row has one place at most, which its key decides; and a partition more moves no row.
pub fn a_row_has_one_place()
    ensures one { (s : ShapeView) (l : LayoutView) → IsLayout s l → (row : List Cell) → length (filter (holds_row l.columns l.column row) l.parts) ≤ 1 }
    ensures by_key { (s : ShapeView) (l : LayoutView) → IsLayout s l → (row : List Cell) → place_for l (key_of s row) ≡ place_for l row }
    ensures within { (s : ShapeView) (l : LayoutView) → IsLayout s l → (row : List Cell) (v : Place) → place_for l row ≡ Some v → (v.part < length l.parts) × (v.bucket < l.buckets) }
    ensures stays { (l : LayoutView) (p : PartDef) (row : List Cell) → IsInside l row → place_for (with_part p l) row ≡ place_for l row }
{}

/// The placing law. The fold of the rows of a tablet is what of the fold lies there.
pub fn folds_and_tablets_change_places()
    ensures at { (s : ShapeView) (l : LayoutView) → IsLayout s l → (w : Place) (rows : List (List Cell)) → fold_of s (rows_at l w rows) ≡ rows_at l w (fold_of s rows) }
    ensures tests { (s : ShapeView) (l : LayoutView) → IsLayout s l → (test : Option Place → Bool) (rows : List (List Cell)) → fold_of s (filter (λ r. test (place_for l r)) rows) ≡ filter (λ r. test (place_for l r)) (fold_of s rows) }
    ensures inside { (s : ShapeView) (l : LayoutView) → IsLayout s l → (rows : List (List Cell)) → AreInside l rows → AreInside l (fold_of s rows) }
{}

/// The spreading law. Rows tablet by tablet fold to what the rows fold to, and so do lists of tablets that fold to the
/// rows of their tablets. Where rows of different keys may change places under the fold of an index, its converted rows
/// fold alike too.
pub fn rows_spread_over_tablets_fold_alike()
    ensures rows { (s : ShapeView) (l : LayoutView) → IsLayout s l → (rows : List (List Cell)) → AreInside l rows → fold_of s (spread l rows) ≡ fold_of s rows }
    ensures lists { (s : ShapeView) (l : LayoutView) → IsLayout s l → (stored : Place → List (List Cell)) (base : List (List Cell)) → AreInside l base → ((w : Place) → fold_of s (stored w) ≡ fold_of s (rows_at l w base)) → fold_of s (flat_map stored (tablets_of l)) ≡ fold_of s base }
    ensures converted { (s : ShapeView) (l : LayoutView) → IsLayout s l → (h : List Cell → List Cell) (target : List (List Cell) → List (List Cell)) (converts : List Cell → Bool) → ((x y : List Cell) → is_eq (row_cmp (key_of s x) (key_of s y)) ≡ false → converts x ≡ true → converts y ≡ true → (zs : List (List Cell)) → target (h y ∷ h x ∷ zs) ≡ target (h x ∷ h y ∷ zs)) → ((xs ys : List (List Cell)) → target (xs ++ target ys) ≡ target (xs ++ ys)) → (rows : List (List Cell)) → AreInside l rows → AllByRecursion (λ r. converts r ≡ true) rows → target (map h (spread l rows)) ≡ target (map h rows) }
{}
