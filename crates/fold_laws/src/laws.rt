// Laws over definitions: each function does nothing, and its contract is the law, for every type R of rows and K of
// keys. A crate above takes a law by a call at its own types, or cites the lemma in proofs/ that the answer here names.
ghost use Rattle.std.specs.Prelude.{ℕ, ◌<◌, length, get_or, set, take, IsTrue, ◌≡◌, ◌++◌, ◌∷◌, [], List, Bool, map};
ghost use Rattle.std.specs.BTreeMap.{insert_entry};
ghost use Rattle.std.specs.Cmp.{IsTotalOrder};
ghost use Rattle.std.specs.FinMap.{IsAntisymmetric};
ghost use Rattle.std.specs.List.{AllByRecursion, filter, flat_map};
ghost use Rattle.std.specs.List.Sorted.{IsSortedByKey, IsStableByKey};
ghost use Rattle.std.specs.Map.{lookup};
ghost use Rattle.std.specs.Ordering.{is_eq};
ghost use Rattle.std.specs.declared.cmp.Ordering.{Ordering};
ghost use Rattle.fold_laws.specs.Fold.{
  Ascends,
  From,
  HeadAbove,
  IsCarried,
  IsFolding,
  IsMerging,
  Rises,
  add,
  entry,
  folded,
  has_key,
  merged,
  more,
  put,
  put_by,
};

/// The fold ascends by key and has of each key what the rows of that key come to, and no other list does. Where two
/// rows of one key make one row, it has each key once.
pub fn fold_is_determined<R, K>()
    ensures ascends { (cmp : K → K → Ordering) (key : R → K) (all : List R → List R) → IsFolding cmp key all → (rows : List R) → Ascends cmp key (folded cmp key all rows) }
    ensures of_each_key { (cmp : K → K → Ordering) (key : R → K) (all : List R → List R) → IsFolding cmp key all → (k : K) (rows : List R) → filter (has_key cmp key k) (folded cmp key all rows) ≡ all (filter (has_key cmp key k) rows) }
    ensures unique { (cmp : K → K → Ordering) (key : R → K) (all : List R → List R) → IsFolding cmp key all → (out rows : List R) → Ascends cmp key out → ((k : K) → filter (has_key cmp key k) out ≡ all (filter (has_key cmp key k) rows)) → out ≡ folded cmp key all rows }
    ensures rises { (cmp : K → K → Ordering) (key : R → K) (op : R → R → R) → IsMerging cmp key op → (rows : List R) → Rises cmp key (folded cmp key (merged op) rows) }
{}

/// Keeping all rows of a key is a gathering, and so is merging an old row and a newer one into one row.
pub fn merges_gather<R, K>()
    ensures keeping { (cmp : K → K → Ordering) (key : R → K) → IsTotalOrder cmp → IsAntisymmetric cmp → IsFolding cmp key (λ (l : List R). l) }
    ensures merging { (cmp : K → K → Ordering) (key : R → K) (op : R → R → R) → IsMerging cmp key op → IsFolding cmp key (merged op) }
{}

/// What was folded may be folded again with what follows it, or after what stands before it. Folding its own result
/// changes nothing, and lists may be folded one by one first.
pub fn folds_join<R, K>()
    ensures front { (cmp : K → K → Ordering) (key : R → K) (all : List R → List R) → IsFolding cmp key all → (xs ys : List R) → folded cmp key all (folded cmp key all xs ++ ys) ≡ folded cmp key all (xs ++ ys) }
    ensures back { (cmp : K → K → Ordering) (key : R → K) (all : List R → List R) → IsFolding cmp key all → (xs ys : List R) → folded cmp key all (xs ++ folded cmp key all ys) ≡ folded cmp key all (xs ++ ys) }
    ensures again { (cmp : K → K → Ordering) (key : R → K) (all : List R → List R) → IsFolding cmp key all → (rows : List R) → folded cmp key all (folded cmp key all rows) ≡ folded cmp key all rows }
    ensures each { (cmp : K → K → Ordering) (key : R → K) (all : List R → List R) → IsFolding cmp key all → (lists : List (List R)) → folded cmp key all (flat_map (λ l. folded cmp key all l) lists) ≡ folded cmp key all (flat_map (λ l. l) lists) }
{}

/// A list that ascends and has nothing left to gather is its own fold.
pub fn ascending_rows_are_folded<R, K>()
    ensures gathered { (cmp : K → K → Ordering) (key : R → K) (all : List R → List R) → IsFolding cmp key all → (rows : List R) → Ascends cmp key rows → ((k : K) → all (filter (has_key cmp key k) rows) ≡ filter (has_key cmp key k) rows) → folded cmp key all rows ≡ rows }
    ensures rising { (cmp : K → K → Ordering) (key : R → K) (op : R → R → R) → IsMerging cmp key op → (rows : List R) → Rises cmp key rows → folded cmp key (merged op) rows ≡ rows }
{}

/// A fold sees of the order of rows only how those of one key follow one another, so a stable sort changes nothing.
/// The fold that keeps all rows is the stable sort.
pub fn stable_sorting_keeps_the_fold<R, K>()
    ensures stable { (cmp : K → K → Ordering) (key : R → K) (all : List R → List R) → IsFolding cmp key all → (before after : List R) → IsStableByKey key cmp before after → folded cmp key all after ≡ folded cmp key all before }
    ensures of_each_key { (cmp : K → K → Ordering) (key : R → K) (all : List R → List R) → IsFolding cmp key all → (xs ys : List R) → ((k : K) → filter (has_key cmp key k) xs ≡ filter (has_key cmp key k) ys) → folded cmp key all xs ≡ folded cmp key all ys }
    ensures sorting { (cmp : K → K → Ordering) (key : R → K) → IsFolding cmp key (λ (l : List R). l) → (before after : List R) → IsSortedByKey key cmp after → IsStableByKey key cmp before after → after ≡ folded cmp key (λ l. l) before }
{}

/// The fold of the rows whose keys pass a test is what of the fold passes it.
pub fn folds_and_tests_of_keys_change_places<R, K>()
    ensures { (cmp : K → K → Ordering) (key : R → K) (all : List R → List R) → IsFolding cmp key all → (test : K → Bool) (rows : List R) → folded cmp key all (filter (λ r. test (key r)) rows) ≡ filter (λ r. test (key r)) (folded cmp key all rows) }
{}

/// One more row, older or newer than all: it goes to its place in the fold, or merges with the row of its key there.
pub fn folds_grow_by_one<R, K>()
    ensures older { (cmp : K → K → Ordering) (key : R → K) (op : R → R → R) → IsMerging cmp key op → (row : R) (rows : List R) → put cmp key op row (folded cmp key (merged op) rows) ≡ folded cmp key (merged op) (row ∷ rows) }
    ensures newer { (cmp : K → K → Ordering) (key : R → K) (op : R → R → R) → IsMerging cmp key op → (rows : List R) (row : R) → add cmp key op (folded cmp key (merged op) rows) row ≡ folded cmp key (merged op) (rows ++ row ∷ []) }
    ensures side_by_side { (cmp : K → K → Ordering) (key : R → K) (op : R → R → R) → IsMerging cmp key op → (front : List R) (old new : R) (back : List R) → cmp (key old) (key new) ≡ Ordering.Equal → folded cmp key (merged op) (front ++ old ∷ new ∷ back) ≡ folded cmp key (merged op) (front ++ op old new ∷ back) }
    ensures in_a_map { (cmp : K → K → Ordering) (key : R → K) (op : R → R → R) → IsMerging cmp key op → (rows : List R) (row : R) → insert_entry cmp (map (entry key) (folded cmp key (merged op) rows)) (key row) (more op (lookup (λ j. is_eq (cmp (key row) j)) (map (entry key) (folded cmp key (merged op) rows))) row) ≡ map (entry key) (folded cmp key (merged op) (rows ++ row ∷ [])) }
{}

/// Several lists that ascend, merged from their heads: rests are what is left of each, and i is the first list whose
/// head x no other head is below. Its head starts the next row, or is merged into the row that is being made; where all
/// heads are above that row, it is done. A fold that keeps all rows takes the head as it is.
pub fn the_least_head_comes_next<R, K>()
    ensures starts { (cmp : K → K → Ordering) (key : R → K) (op : R → R → R) → IsMerging cmp key op → (rests : List (List R)) (i : ℕ) (x : R) (l : List R) → i < length rests → get_or rests i [] ≡ x ∷ l → AllByRecursion (λ z. Ascends cmp key z × HeadAbove cmp key (key x) z) (take i rests) → folded cmp key (merged op) (flat_map (λ z. z) rests) ≡ folded cmp key (merged op) (x ∷ flat_map (λ z. z) (set rests i l)) }
    ensures takes { (cmp : K → K → Ordering) (key : R → K) (op : R → R → R) → IsMerging cmp key op → (made : R) (rests : List (List R)) (i : ℕ) (x : R) (l : List R) → i < length rests → get_or rests i [] ≡ x ∷ l → cmp (key made) (key x) ≡ Ordering.Equal → AllByRecursion (λ z. Ascends cmp key z × HeadAbove cmp key (key x) z) (take i rests) → folded cmp key (merged op) (made ∷ flat_map (λ z. z) rests) ≡ folded cmp key (merged op) (op made x ∷ flat_map (λ z. z) (set rests i l)) }
    ensures ends { (cmp : K → K → Ordering) (key : R → K) (op : R → R → R) → IsMerging cmp key op → (made : R) (rests : List (List R)) → AllByRecursion (λ z. Ascends cmp key z × HeadAbove cmp key (key made) z) rests → folded cmp key (merged op) (made ∷ flat_map (λ z. z) rests) ≡ made ∷ folded cmp key (merged op) (flat_map (λ z. z) rests) }
    ensures keeps { (cmp : K → K → Ordering) (key : R → K) → IsTotalOrder cmp → IsAntisymmetric cmp → (rests : List (List R)) (i : ℕ) (x : R) (l : List R) → i < length rests → get_or rests i [] ≡ x ∷ l → AllByRecursion (λ z. Ascends cmp key z × HeadAbove cmp key (key x) z) (take i rests) → From cmp key (key x) (flat_map (λ z. z) (set rests i l)) → folded cmp key (λ z. z) (flat_map (λ z. z) rests) ≡ x ∷ folded cmp key (λ z. z) (flat_map (λ z. z) (set rests i l)) }
{}

/// Rows of a longer list, folded and then converted by h, come to what the converted fold of its beginning and the
/// converted rest come to under the target's fold.
pub fn converted_folds_join<R, K, S>()
    ensures { (cmp : K → K → Ordering) (key : R → K) (tie : R → R → List R) (source : List R → List R) (target : List S → List S) (converts : R → Bool) (h : R → S) → IsCarried cmp key tie target (λ r. IsTrue (converts r)) h → ((xs ys : List S) → target (xs ++ target ys) ≡ target (xs ++ ys)) → source [] ≡ [] → ((x : R) (xs : List R) → source (x ∷ xs) ≡ put_by cmp key tie x (source xs)) → ((xs ys : List R) → source (source xs ++ ys) ≡ source (xs ++ ys)) → (xs ys : List R) → AllByRecursion (λ r. IsTrue (converts r)) (source xs) → AllByRecursion (λ r. IsTrue (converts r)) ys → target (map h (source (xs ++ ys))) ≡ target (map h (source xs) ++ map h ys) }
{}
