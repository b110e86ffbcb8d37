// The rows of stored lists in blocks that each test may match, as pieces of the lists.
ghost use Rattle.std.specs.Prelude.{◌≡◌, ◌<◌, ◌≤◌, ◌++◌, IfOk, OnOk, length, map};
ghost use Rattle.merge_read.specs.Lists.{AreSortedLists, IsSortedList, joined};
ghost use Rattle.schema_models.specs.ShapeView.{ShapeView};
ghost use Rattle.select_eval.specs.Looks as looks;
ghost use Rattle.select_eval.specs.Pieces.{cut};
ghost use Rattle.zones.specs.InBlocks.{StandTogether};

use crate::piece::Piece;
use dl_values::NoMemory;
use row_fold::SortedRows;
use std::alloc::Global;
use zones::{Test, Zones};

// Whether each test may match the block of the row at a place.
fn stays<R: Zones>(list: &R, tests: &[Test], place: usize) -> bool
    requires { place < length (R.rows list.now) }
    ensures { result ≡ looks.stays tests.now (R.blocks list.now) (R.may list.now) place }
{
    let block = list.block_of(place);
    for test in tests {
        if !list.block_may_match(block, test) {
            return false;
        }
    }
    true
}

// One piece more, where it has a row.
fn add_piece<'a, R: SortedRows>(
    pieces: &mut Vec<Piece<'a, R>>,
    list: &'a R,
    start: usize,
    end: usize,
) -> Result<(), NoMemory>
    requires ordered { start ≤ end }
    requires within { end ≤ length (R.rows list.now) }
    ensures rows { OnOk result (joined (map (λ p. cut p.start p.end (R.rows p.list.now)) pieces.new.items) ≡ joined (map (λ p. cut p.start p.end (R.rows p.list.now)) pieces.old.items) ++ cut start end (R.rows list.now)) }
    ensures sorted { OnOk result ((s : ShapeView) → IsSortedList s (R.rows list.now) → AreSortedLists s (map (λ p. cut p.start p.end (R.rows p.list.now)) pieces.old.items) → AreSortedLists s (map (λ p. cut p.start p.end (R.rows p.list.now)) pieces.new.items)) }
{
    if start < end {
        pieces.push(Piece::new(list, start, end))?;
    }
    Ok(())
}

// Passes a block. Where it stays it lengthens the piece that begins at the start; else that piece ends before it, and the next may
// begin behind it.
fn pass_block<'a, R: SortedRows + Zones>(
    pieces: &mut Vec<Piece<'a, R>>,
    list: &'a R,
    tests: &[Test],
    start: usize,
    place: usize,
    end: usize,
) -> Result<usize, NoMemory>
    requires same { R.Zones.rows list.now ≡ R.SortedRows.rows list.now }
    requires ordered { start ≤ place }
    requires before { place < end }
    requires within { end ≤ length (R.SortedRows.rows list.now) }
    requires together { StandTogether (R.Zones.blocks list.now) place end }
    ensures start { IfOk result (λ s. s ≤ end) }
    ensures rows { IfOk result (λ s. joined (map (λ p. cut p.start p.end (R.SortedRows.rows p.list.now)) pieces.new.items) ++ cut s end (R.SortedRows.rows list.now) ≡ (joined (map (λ p. cut p.start p.end (R.SortedRows.rows p.list.now)) pieces.old.items) ++ cut start place (R.SortedRows.rows list.now)) ++ looks.kept_from (looks.stays tests.now (R.Zones.blocks list.now) (R.Zones.may list.now)) place (cut place end (R.SortedRows.rows list.now))) }
    ensures sorted { OnOk result ((s : ShapeView) → IsSortedList s (R.SortedRows.rows list.now) → AreSortedLists s (map (λ p. cut p.start p.end (R.SortedRows.rows p.list.now)) pieces.old.items) → AreSortedLists s (map (λ p. cut p.start p.end (R.SortedRows.rows p.list.now)) pieces.new.items)) }
{
    if stays(list, tests, place) {
        return Ok(start);
    }
    add_piece(pieces, list, start, place)?;
    Ok(end)
}

// The rows of a list in blocks that stay. Blocks side by side make one piece.
fn add_pieces<'a, R: SortedRows + Zones>(
    pieces: &mut Vec<Piece<'a, R>>,
    list: &'a R,
    tests: &[Test],
) -> Result<(), NoMemory>
    requires same { R.Zones.rows list.now ≡ R.SortedRows.rows list.now }
    ensures rows { OnOk result (joined (map (λ p. cut p.start p.end (R.SortedRows.rows p.list.now)) pieces.new.items) ≡ joined (map (λ p. cut p.start p.end (R.SortedRows.rows p.list.now)) pieces.old.items) ++ looks.kept_rows tests.now (looks.in_blocks (R.SortedRows.rows list.now) (R.Zones.blocks list.now) (R.Zones.may list.now))) }
    ensures sorted { OnOk result ((s : ShapeView) → IsSortedList s (R.SortedRows.rows list.now) → AreSortedLists s (map (λ p. cut p.start p.end (R.SortedRows.rows p.list.now)) pieces.old.items) → AreSortedLists s (map (λ p. cut p.start p.end (R.SortedRows.rows p.list.now)) pieces.new.items)) }
{
    let count = list.len();
    let mut start = 0;
    let mut place = 0;
    'passing: while place < count {
        let end = list.block_end(place);
        start = pass_block(pieces, list, tests, start, place, end)?;
        place = end;
    }
    add_piece(pieces, list, start, place)
}

// The rows of lists in blocks that each test may match.
pub fn pieces_of<'a, R: SortedRows + Zones>(
    alloc: Global,
    lists: &'a [R],
    tests: &[Test],
) -> Result<Vec<Piece<'a, R>>, NoMemory>
    requires same { map (λ l. R.Zones.rows l) lists.now ≡ map (λ l. R.SortedRows.rows l) lists.now }
    ensures rows { IfOk result (λ v. joined (map (λ p. cut p.start p.end (R.SortedRows.rows p.list.now)) v.items) ≡ joined (map (looks.kept_rows tests.now) (map (λ l. looks.in_blocks (R.SortedRows.rows l) (R.Zones.blocks l) (R.Zones.may l)) lists.now))) }
    ensures sorted { IfOk result (λ v. (s : ShapeView) → AreSortedLists s (map (λ l. R.SortedRows.rows l) lists.now) → AreSortedLists s (map (λ p. cut p.start p.end (R.SortedRows.rows p.list.now)) v.items)) }
{
    let mut pieces = Vec::new(alloc);
    for list in lists {
        add_pieces(&mut pieces, list, tests)?;
    }
    Ok(pieces)
}
