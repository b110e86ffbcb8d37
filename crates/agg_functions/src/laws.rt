//! Laws of merging cells: each function does nothing, and its contract is the law.
ghost use Rattle.std.specs.Prelude.{◌≡◌};
ghost use Rattle.dl_values.specs.declared.agg_kind.AggKind.{AggKind};
ghost use Rattle.dl_values.specs.declared.agg_kind.AggKind.TheVariants as kind;
ghost use Rattle.dl_values.specs.declared.cell.Cell.{Cell};
ghost use Rattle.dl_values.specs.declared.cell.Cell.TheVariants as cell;
ghost use Rattle.agg_functions.specs.Merge.{merged_cell};

/// Merging is associative, so that cells may be merged in parts. A newer null leaves the old cell, but under REPLACE it
/// takes its place; an older null counts for nothing.
pub fn cells_merge_in_parts()
    ensures associative { (k : AggKind) (a b c : Cell) → merged_cell k (merged_cell k a b) c ≡ merged_cell k a (merged_cell k b c) }
    ensures neutral { (k : AggKind) (a : Cell) → (k ≡ kind.Replace → ⊥) → merged_cell k a cell.Null ≡ a }
    ensures replaces { (a b : Cell) → merged_cell kind.Replace a b ≡ b }
    ensures starts { (k : AggKind) (b : Cell) → merged_cell k cell.Null b ≡ b }
{}

/// Under SUM, MIN and MAX the order of two cells does not matter.
pub fn sums_and_extremes_commute()
    ensures sum { (a b : Cell) → merged_cell kind.Sum a b ≡ merged_cell kind.Sum b a }
    ensures min { (a b : Cell) → merged_cell kind.Min a b ≡ merged_cell kind.Min b a }
    ensures max { (a b : Cell) → merged_cell kind.Max a b ≡ merged_cell kind.Max b a }
{}
