// The hash of a row's distribution cells.
ghost use Rattle.std.specs.Prelude.{◌≡◌, ◌+◌, ◌%◌, slice_get};
ghost use Rattle.std.specs.List.{flat_map};
ghost use Rattle.std.specs.Option.{option_copied};
ghost use Rattle.dl_values.specs.Days.{day_text};
ghost use Rattle.dl_values.specs.Write.{cell_text};
ghost use Rattle.partitions.specs.Places as places;

use dl_values::Cell;
use itoa::Buffer;
use sqlite_items::at;

// The hash of a text after what was hashed before it.
fn hash_bytes(before: u32, bytes: &[u8]) -> u32
    ensures { result ≡ places.hash_bytes before bytes.now }
{
    let mut hash = before;
    for byte in bytes {
        hash = ((31 * hash as u64 + *byte as u64) % 4_294_967_296) as u32;
    }
    hash
}

// The last digit of a number.
fn digit(number: u32) -> u8
    ensures { result ≡ 48 + number % 10 }
{
    b'0' + (number % 10) as u8
}

// The text of a day.
#[tactic(auto, unfolding(dl_values::specs::Days::day_text))]
fn hash_day(before: u32, day: u32) -> u32
    ensures { result ≡ places.hash_bytes before (day_text day) }
{
    let text = [
        digit(day / 1_000_000 / 10),
        digit(day / 1_000_000),
        digit(day / 10_000 / 10),
        digit(day / 10_000),
        b'-',
        digit(day / 100 / 10),
        digit(day / 100),
        b'-',
        digit(day / 10),
        digit(day),
    ];
    hash_bytes(before, &text)
}

// The text of a cell.
fn hash_cell(before: u32, cell: &Cell) -> u32
    ensures { result ≡ places.hash_bytes before (cell_text cell.now) }
{
    match cell {
        Cell::Null => hash_bytes(before, b"\\N"),
        Cell::Int(value) => {
            let mut digits = Buffer::new();
            hash_bytes(before, digits.format(*value).as_bytes())
        }
        Cell::Day(day) => hash_day(before, *day),
        Cell::Text(text) => hash_bytes(before, text.bytes()),
    }
}

// The text of a cell, where there is one.
fn hash_shown(before: u32, cell: Option<&Cell>) -> u32
    ensures { result ≡ places.hash_bytes before (places.text_of (option_copied cell.entry)) }
{
    match cell {
        None => before,
        Some(cell) => hash_cell(before, cell),
    }
}

// The hash of the cells at these positions, in their order.
pub fn hash_cells(cells: &[Cell], positions: &[usize]) -> u32
    ensures { result ≡ places.hash_bytes 0 (flat_map (λ p. places.text_of (slice_get cells.now p)) positions.now) }
{
    let mut hash = 0;
    for position in positions {
        hash = hash_shown(hash, at(cells, *position));
    }
    hash
}
