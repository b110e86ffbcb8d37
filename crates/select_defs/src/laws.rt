//! Laws of queries: each function does nothing, and its contract is the law.
ghost use Rattle.std.specs.Prelude.{◌≡◌, ◌++◌, ◌∷◌, ℕ, List, true};
ghost use Rattle.std.specs.List.{AllByRecursion};
ghost use Rattle.dl_values.specs.declared.cell.Cell.{Cell};
ghost use Rattle.schema_models.specs.Folds.{fold_of};
ghost use Rattle.schema_models.specs.ShapeView.{ShapeView};
ghost use Rattle.schema_models.specs.declared.model.Model.TheVariants as model;
ghost use Rattle.sql_text.specs.declared.query.AggFn.{AggFn};
ghost use Rattle.sql_text.specs.declared.query.Item.{Item};
ghost use Rattle.sql_text.specs.declared.query.Query.{Query};
ghost use Rattle.select_defs.specs.Aggregates.{aggregate};
ghost use Rattle.select_defs.specs.Eval.{Eval, answer};
ghost use Rattle.select_defs.specs.Filters.{selected};
ghost use Rattle.select_defs.specs.Groups.{group_cell, rows_of_group};
ghost use Rattle.select_defs.specs.Laws.{IsWide, is_served_by_folds, joined, joined_item, tests_keys};

/// Where a query tests key columns alone, or the whole row is the key, the rows that pass fold to the rows of the fold that
/// pass: rows that do not pass need not be read.
pub fn tests_of_keys_and_folds_change_places()
    ensures { (base s : ShapeView) (q : Query) → tests_keys s q ≡ true → (rows : List (List Cell)) → fold_of s (selected base s q rows) ≡ selected base s q (fold_of s rows) }
{}

/// A group of two lists may be made of its parts in each: the rows of a group are those of each list, and an aggregate over
/// them merges from the aggregates over each.
pub fn groups_merge_in_parts()
    ensures rows { (s : ShapeView) (group : List (List ℕ)) (k : List Cell) (xs ys : List (List Cell)) → rows_of_group s group k (xs ++ ys) ≡ rows_of_group s group k xs ++ rows_of_group s group k ys }
    ensures aggregates { (f : AggFn) (xs ys : List Cell) → aggregate f (xs ++ ys) ≡ joined f (aggregate f xs) (aggregate f ys) }
    ensures cells { (s : ShapeView) (group : List (List ℕ)) (k : List Cell) (xs ys : List (List Cell)) (i : Item) → group_cell s group k (xs ++ ys) i ≡ joined_item i (group_cell s group k xs i) (group_cell s group k ys i) }
{}

/// The order of the rows does not count: neighbours may change places, and so any two orders answer the same.
pub fn the_order_of_rows_does_not_count()
    ensures { (base s : ShapeView) (q : Query) (front back : List (List Cell)) (a b : List Cell) → Eval base s q (front ++ a ∷ b ∷ back) ≡ Eval base s q (front ++ b ∷ a ∷ back) }
{}

/// Where a query filters and groups by keys alone, and each of its aggregates is a SUM of a SUM column, a MIN of a MIN column
/// or a key, or a MAX of a MAX column or a key, it answers over the fold of rows what it answers over the rows, which have a
/// cell for each column; and so over any rows of the same fold, merged in part or not.
pub fn folds_serve_sums_and_extremes()
    ensures answers { (base s : ShapeView) (q : Query) → is_served_by_folds base s q ≡ true → (rows : List (List Cell)) → AllByRecursion (IsWide s) rows → answer base s q (fold_of s rows) ≡ answer base s q rows }
    ensures evaluates { (base s : ShapeView) (q : Query) → is_served_by_folds base s q ≡ true → (rows : List (List Cell)) → AllByRecursion (IsWide s) rows → Eval base s q (fold_of s rows) ≡ Eval base s q rows }
    ensures alike { (base s : ShapeView) (q : Query) → is_served_by_folds base s q ≡ true → (xs ys : List (List Cell)) → AllByRecursion (IsWide s) xs → AllByRecursion (IsWide s) ys → fold_of s xs ≡ fold_of s ys → Eval base s q xs ≡ Eval base s q ys }
{}

/// The fold of a Duplicate shape keeps each row, so that every query answers over it what it answers over the rows.
pub fn folds_that_keep_rows_serve_all()
    ensures { (base s : ShapeView) (q : Query) → s.model ≡ model.Duplicate → (rows : List (List Cell)) → Eval base s q (fold_of s rows) ≡ Eval base s q rows }
{}
