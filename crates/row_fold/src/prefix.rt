// A number for each row that is smaller only where the row is.
ghost use Rattle.std.specs.Prelude.{◌≡◌, ◌*◌, ◌<◌, ◌≤◌, drop};
ghost use Rattle.row_fold.specs.Prefix as prefixes;

use dl_values::{Cell, RowView};

// The number of an integer, with the rank of integers in the top two bits.
fn prefix_of_int(n: i64) -> u64
    ensures { result ≡ prefixes.int_prefix n }
{
    if n < 0 {
        let m = (-1 - n) as u64;
        0x5fff_ffff_ffff_ffff - m.min(0x1fff_ffff_ffff_ffff)
    } else {
        let m = n as u64;
        0x6000_0000_0000_0000 + m.min(0x1fff_ffff_ffff_ffff)
    }
}

// The byte at a place, by its weight, before a number of the bytes behind it.
fn one_more(text: &[u8], at: usize, weight: u64, front: u64) -> u64
    requires weight { weight ≤ 281474976710656 }
    requires front { front < weight }
    ensures is { result ≡ prefixes.front_of (drop at text.now) weight front }
    ensures bound { result < 256 * weight }
{
    if at >= text.len() {
        return 0;
    }
    let byte = text[at] as u64;
    if byte < 255 {
        byte * weight + front
    } else {
        255 * weight
    }
}

// The number of the first seven bytes of a text. It stands by itself, so that the numbers of other cells stay short.
#[inline(never)]
#[tactic(auto, unfolding(crate::specs::Prefix::text_prefix))]
fn prefix_of_text(text: &[u8]) -> u64
    ensures is { result ≡ prefixes.text_prefix text.now }
    ensures bound { result < 72057594037927936 }
{
    let front = one_more(text, 6, 1, 0);
    let front = one_more(text, 5, 256, front);
    let front = one_more(text, 4, 65_536, front);
    let front = one_more(text, 3, 16_777_216, front);
    let front = one_more(text, 2, 4_294_967_296, front);
    let front = one_more(text, 1, 1_099_511_627_776, front);
    one_more(text, 0, 281_474_976_710_656, front)
}

// The number of a cell.
#[inline(always)]
fn prefix_of_cell(cell: &Cell) -> u64
    ensures { result ≡ prefixes.cell_prefix cell.now }
{
    match cell {
        Cell::Null => 0,
        Cell::Int(n) => prefix_of_int(*n),
        Cell::Day(day) => 0x8000_0000_0000_0000 + (*day as u64).min(0x3fff_ffff_ffff_ffff),
        Cell::Text(text) => 0xc000_0000_0000_0000 + prefix_of_text(text.bytes()),
    }
}

// The number of a row, which is that of its first cell.
#[inline(always)]
pub fn prefix_of(row: &[Cell]) -> u64
    ensures { result ≡ prefixes.row_prefix row.now }
{
    match row {
        [] => 0,
        [first, ..] => prefix_of_cell(first),
    }
}

/// The number of a row that is looked at where it stands, which is smaller only where the row is.
#[inline(always)]
pub fn prefix_of_view(row: &RowView) -> u64
    ensures { result ≡ prefixes.row_prefix row.now }
{
    if row.len() == 0 {
        return 0;
    }
    prefix_of_cell(row.cell(0))
}

// Whether no other cell has this number.
pub fn is_exact(prefix: u64) -> bool
    ensures { result ≡ prefixes.is_exact prefix }
{
    0x4000_0000_0000_0000 < prefix
        && prefix < 0xbfff_ffff_ffff_ffff
        && prefix != 0x7fff_ffff_ffff_ffff
}
