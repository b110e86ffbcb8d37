//! Laws of zones: each function does nothing, and its contract is the law.
ghost use Rattle.std.specs.Prelude.{◌≡◌, ◌⊎◌, List, false, true};
ghost use Rattle.std.specs.List.{AllByRecursion, list_any};
ghost use Rattle.dl_values.specs.declared.cell.Cell.{Cell};
ghost use Rattle.zones.specs.Ends.{AreEnds, EndsView, ends_of, may_match};
ghost use Rattle.zones.specs.Tests.{is_null, passes};
ghost use Rattle.zones.specs.declared.test.Op.{Op};

/// Each cell is between the ends of its list, and where one passes a test, one between them may: a list whose ends may not match
/// need not be looked at.
pub fn what_passes_is_between_the_ends()
    ensures ends { (cells : List Cell) → AreEnds (ends_of cells) cells }
    ensures found { (o : Op) (l : Cell) (e : EndsView) (cells : List Cell) → AreEnds e cells → list_any (passes o l) cells ≡ true → may_match o l e ≡ true }
{}

/// Where ends that are not null may match, one of them passes or the literal itself does: no test of ends alone could leave out
/// more.
pub fn ends_that_may_match_have_a_match()
    ensures { (o : Op) (l : Cell) (e : EndsView) → is_null e.least ≡ false → may_match o l e ≡ true → (passes o l e.least ≡ true) ⊎ ((passes o l e.greatest ≡ true) ⊎ (passes o l l ≡ true)) }
{}
