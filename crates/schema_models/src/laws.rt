//! Laws of the fold by the model of a shape: each function does nothing, and its contract is the law.
ghost use Rattle.std.specs.Prelude.{◌≡◌, ◌++◌, Bool, List};
ghost use Rattle.std.specs.List.{AllByRecursion, filter, flat_map};
ghost use Rattle.std.specs.List.Sorted.{IsStableByKey};
ghost use Rattle.dl_values.specs.Order.{row_cmp};
ghost use Rattle.dl_values.specs.declared.cell.Cell.{Cell};
ghost use Rattle.fold_laws.specs.Fold.{Ascends, IsFolding, IsMerging, Rises, has_key};
ghost use Rattle.schema_models.specs.Folds.{fold_of, gathered, key_of, merged_row};
ghost use Rattle.schema_models.specs.RowRules.{IsOfShape};
ghost use Rattle.schema_models.specs.ShapeRules.{IsShape};
ghost use Rattle.schema_models.specs.ShapeView.{ShapeView};
ghost use Rattle.schema_models.specs.declared.model.Model.TheVariants as model;

/// The fold of each model is a fold by key, with all laws of the crate fold_laws: rows order totally, and what the rows
/// of one key come to may be made in parts and has that key.
pub fn shapes_fold_by_key()
    ensures { (s : ShapeView) → IsFolding row_cmp (key_of s) (gathered s) }
{}

/// What was folded may be folded again with what follows it, or after what stands before it. Folding its own result
/// changes nothing, and lists may be folded one by one first.
pub fn folds_join()
    ensures front { (s : ShapeView) (xs ys : List (List Cell)) → fold_of s (fold_of s xs ++ ys) ≡ fold_of s (xs ++ ys) }
    ensures back { (s : ShapeView) (xs ys : List (List Cell)) → fold_of s (xs ++ fold_of s ys) ≡ fold_of s (xs ++ ys) }
    ensures again { (s : ShapeView) (rows : List (List Cell)) → fold_of s (fold_of s rows) ≡ fold_of s rows }
    ensures each { (s : ShapeView) (lists : List (List (List Cell))) → fold_of s (flat_map (λ l. fold_of s l) lists) ≡ fold_of s (flat_map (λ l. l) lists) }
{}

/// The fold ascends by key and has of each key what the rows of that key come to, and no other list does. But for
/// Duplicate, it has each key once.
pub fn folds_are_determined()
    ensures ascends { (s : ShapeView) (rows : List (List Cell)) → Ascends row_cmp (key_of s) (fold_of s rows) }
    ensures of_each_key { (s : ShapeView) (k : List Cell) (rows : List (List Cell)) → filter (has_key row_cmp (key_of s) k) (fold_of s rows) ≡ gathered s (filter (has_key row_cmp (key_of s) k) rows) }
    ensures unique { (s : ShapeView) (out rows : List (List Cell)) → Ascends row_cmp (key_of s) out → ((k : List Cell) → filter (has_key row_cmp (key_of s) k) out ≡ gathered s (filter (has_key row_cmp (key_of s) k) rows)) → out ≡ fold_of s rows }
    ensures once { (s : ShapeView) → (s.model ≡ model.Duplicate → ⊥) → (rows : List (List Cell)) → Rises row_cmp (key_of s) (fold_of s rows) }
{}

/// A fold sees of the order of rows only how those of one key follow one another, so a stable sort changes nothing.
pub fn stable_sorting_keeps_the_fold()
    ensures stable { (s : ShapeView) (before after : List (List Cell)) → IsStableByKey (key_of s) row_cmp before after → fold_of s after ≡ fold_of s before }
    ensures of_each_key { (s : ShapeView) (xs ys : List (List Cell)) → ((k : List Cell) → filter (has_key row_cmp (key_of s) k) xs ≡ filter (has_key row_cmp (key_of s) k) ys) → fold_of s xs ≡ fold_of s ys }
{}

/// The fold of the rows whose keys pass a test is what of the fold passes it.
pub fn folds_and_tests_of_keys_change_places()
    ensures { (s : ShapeView) (test : List Cell → Bool) (rows : List (List Cell)) → fold_of s (filter (λ r. test (key_of s r)) rows) ≡ filter (λ r. test (key_of s r)) (fold_of s rows) }
{}

/// Rows of a shape merge, and fold, to rows of the shape: the sum of a BIGINT column is one of 64 bits, and all other
/// merges choose one of the cells.
pub fn rows_of_a_shape_stay_so()
    ensures merged { (s : ShapeView) → IsShape s → (old new : List Cell) → IsOfShape s old → IsOfShape s new → IsOfShape s (merged_row s.columns old new) }
    ensures folded { (s : ShapeView) → IsShape s → (rows : List (List Cell)) → AllByRecursion (IsOfShape s) rows → AllByRecursion (IsOfShape s) (fold_of s rows) }
{}
