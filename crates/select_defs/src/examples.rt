// Worked examples: what the definition says of queries over a few rows.
ghost use Rattle.std.specs.Prelude.{◌≡◌, [], ◌∷◌, Some, None, pos, negsuc, codes};
ghost use Rattle.dl_values.specs.declared.cell.Cell.TheVariants as cell;
ghost use Rattle.sql_text.specs.declared.query.AggFn.TheVariants as fn;
ghost use Rattle.sql_text.specs.declared.query.CompareOp.TheVariants as op;
ghost use Rattle.sql_text.specs.declared.query.Item.TheVariants as item;
ghost use Rattle.sql_text.specs.declared.query.Literal.TheVariants as literal;
ghost use Rattle.sql_text.specs.declared.query.OrderBy.TheVariants as by;
ghost use Rattle.select_defs.specs.Examples.{Answers, Differs, Gives, Refuses, Serves, all, ascending, c, descending, int, is_null, k, null, number, rows, select, sum, t, that, u, v};
ghost use Rattle.select_defs.specs.declared.select_error.SelectError.TheVariants as error;

/// Sums, counts and extremes of groups: nulls count for nothing, and are a group of their own.
pub fn groups_are_aggregated()
    ensures sums { Answers (record (select (item.Column k ∷ sum v ∷ [])) { group = k ∷ [] }) rows (k ∷ codes "sum(v)" ∷ []) (codes "INT" ∷ codes "BIGINT" ∷ []) ((null ∷ int 7 ∷ []) ∷ (int 1 ∷ int 15 ∷ []) ∷ (int 2 ∷ null ∷ []) ∷ []) }
    ensures counts { Answers (record (select (item.Agg fn.Count v ∷ item.CountAll ∷ [])) { group = k ∷ [] }) rows (codes "count(v)" ∷ codes "count(*)" ∷ []) (codes "BIGINT" ∷ codes "BIGINT" ∷ []) ((int 0 ∷ int 1 ∷ []) ∷ (int 1 ∷ int 1 ∷ []) ∷ (int 2 ∷ int 2 ∷ []) ∷ []) }
    ensures extremes { Answers (select (item.Agg fn.Min k ∷ item.Agg fn.Max v ∷ [])) rows (codes "min(k)" ∷ codes "max(v)" ∷ []) (codes "INT" ∷ codes "BIGINT" ∷ []) ((int 1 ∷ int 10 ∷ []) ∷ []) }
{}

/// A sum is taken modulo 2^64.
pub fn a_sum_wraps()
    ensures { Gives t (select (sum v ∷ [])) ((int 1 ∷ int 1 ∷ int 9223372036854775807 ∷ []) ∷ (int 1 ∷ int 2 ∷ int 1 ∷ []) ∷ []) ((cell.Int (negsuc 9223372036854775807) ∷ []) ∷ []) }
{}

/// Over no rows an aggregate query without GROUP BY has one row, and every other query none.
pub fn an_empty_table_is_queried()
    ensures one { Gives t (select (item.CountAll ∷ sum v ∷ item.Agg fn.Min k ∷ item.Agg fn.Count c ∷ [])) [] ((int 0 ∷ null ∷ null ∷ int 0 ∷ []) ∷ []) }
    ensures grouped { Gives t (record (select (sum v ∷ [])) { group = k ∷ [] }) [] [] }
    ensures plain { Gives t all [] [] }
{}

/// Comparisons with null are false, whatever the operator.
pub fn null_passes_no_comparison()
    ensures unequal { Gives t (record (select (item.Column v ∷ [])) { filters = that v op.Ne (number 5) ∷ [] }) rows ((int 7 ∷ []) ∷ (int 10 ∷ []) ∷ []) }
    ensures at_most { Gives t (record (select (item.Column v ∷ [])) { filters = that v op.Le (number 7) ∷ that k op.Ge (number 0) ∷ [] }) rows ((int 5 ∷ []) ∷ []) }
    ensures null { Gives t (record (select (item.Column c ∷ [])) { filters = is_null v ∷ [] }) rows ((int 1 ∷ []) ∷ []) }
{}

/// Literals are read by the type of their column.
pub fn literals_are_read_by_their_column()
    ensures text { Gives u (record all { filters = that c op.Gt (literal.Text (codes "2024-01-05")) ∷ [] }) ((cell.Text (codes "b") ∷ cell.Day 20240106 ∷ []) ∷ (cell.Text (codes "a") ∷ cell.Day 20240105 ∷ []) ∷ []) ((cell.Text (codes "b") ∷ cell.Day 20240106 ∷ []) ∷ []) }
    ensures number { Gives t (record (select (item.Column c ∷ [])) { filters = that c op.Eq (literal.Text (codes " 2 ")) ∷ [] }) rows ((int 2 ∷ []) ∷ []) }
{}

/// Rows are ordered by each key in its direction, and those that tie by the whole row; the limit comes after the order.
pub fn rows_are_ordered()
    ensures descending { Gives t (record (select (item.Column c ∷ item.Column v ∷ [])) { order = descending (by.Item (item.Column c)) ∷ [] }) rows ((int 2 ∷ int 5 ∷ []) ∷ (int 1 ∷ null ∷ []) ∷ (int 1 ∷ int 7 ∷ []) ∷ (int 1 ∷ int 10 ∷ []) ∷ []) }
    ensures positions { Gives t (record (select (item.Column c ∷ item.Column v ∷ [])) { order = ascending (by.Position (pos 1)) ∷ descending (by.Position (pos 2)) ∷ []; limit = Some 2 }) rows ((int 1 ∷ int 10 ∷ []) ∷ (int 1 ∷ int 7 ∷ []) ∷ []) }
    ensures whole { Gives t all rows ((null ∷ int 1 ∷ int 7 ∷ []) ∷ (int 1 ∷ int 1 ∷ int 10 ∷ []) ∷ (int 1 ∷ int 2 ∷ int 5 ∷ []) ∷ (int 2 ∷ int 1 ∷ null ∷ []) ∷ []) }
    ensures none { Gives t (record all { limit = Some 0 }) rows [] }
    ensures star { Gives t (record all { order = descending (by.Item (item.Column v)) ∷ []; limit = Some 1 }) rows ((int 1 ∷ int 1 ∷ int 10 ∷ []) ∷ []) }
{}

/// Columns that are not there come first, in the order of the text; then literals and sums; then columns beside groups.
pub fn queries_are_refused_in_order()
    ensures in_the_list { Refuses t (record (select (item.Column k ∷ sum (codes "x") ∷ [])) { filters = that (codes "y") op.Eq (number 1) ∷ [] }) (error.NoColumn (codes "x")) }
    ensures in_a_test { Refuses t (record (select (item.Column k ∷ [])) { filters = that (codes "y") op.Eq (literal.Text (codes "z")) ∷ []; group = codes "x" ∷ [] }) (error.NoColumn (codes "y")) }
    ensures in_an_order { Refuses t (record (select (item.Column k ∷ [])) { order = ascending (by.Item (sum v)) ∷ [] }) (error.NoColumn (codes "sum(v)")) }
    ensures by_position { Refuses t (record (select (item.Column k ∷ sum v ∷ [])) { order = ascending (by.Position (pos 3)) ∷ [] }) (error.NoColumn (codes "3")) }
    ensures before_the_first { Refuses t (record all { order = ascending (by.Position (negsuc 0)) ∷ [] }) (error.NoColumn (codes "-1")) }
    ensures compare { Refuses t (record (select (item.Column c ∷ sum v ∷ [])) { filters = that k op.Eq (literal.Text (codes "x")) ∷ [] }) (error.BadCompare k) }
    ensures sum { Refuses u (select (sum c ∷ item.Column k ∷ [])) (error.BadCompare c) }
    ensures date { Refuses u (record all { filters = that c op.Lt (number 1) ∷ [] }) (error.BadCompare c) }
    ensures grouped { Refuses t (record (select (item.Column c ∷ sum v ∷ [])) { group = k ∷ [] }) (error.NotGrouped c) }
    ensures star { Refuses t (record all { group = k ∷ [] }) (error.NotGrouped c) }
{}

/// Folds serve sums and extremes of groups by keys. Counts, rows, other aggregates of a SUM column and tests of it see the
/// rows that were merged.
pub fn folds_serve_some_queries()
    ensures sums { Serves (record (select (item.Column k ∷ sum v ∷ [])) { group = k ∷ [] }) ((int 1 ∷ int 15 ∷ []) ∷ (int 2 ∷ int 7 ∷ []) ∷ []) }
    ensures keys { Serves (record (select (item.Agg fn.Max k ∷ item.Agg fn.Min c ∷ [])) { filters = that c op.Eq (number 1) ∷ [] }) ((int 2 ∷ int 1 ∷ []) ∷ []) }
    ensures counts { Differs (select (item.CountAll ∷ [])) ((int 3 ∷ []) ∷ []) ((int 2 ∷ []) ∷ []) }
    ensures extremes { Differs (select (item.Agg fn.Min v ∷ [])) ((int 5 ∷ []) ∷ []) ((int 7 ∷ []) ∷ []) }
    ensures tests { Differs (record (select (sum v ∷ [])) { filters = that v op.Gt (number 7) ∷ [] }) ((int 10 ∷ []) ∷ []) ((int 15 ∷ []) ∷ []) }
    ensures plain { Differs (select (item.Column k ∷ [])) ((int 1 ∷ []) ∷ (int 1 ∷ []) ∷ (int 2 ∷ []) ∷ []) ((int 1 ∷ []) ∷ (int 2 ∷ []) ∷ []) }
{}
