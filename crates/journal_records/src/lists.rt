// Lists and options of pieces. No room is made by a count: each piece that a list gets was read before.
ghost use Rattle.std.specs.Prelude.{◌≡◌, ◌++◌, Ok, OnOk};
ghost use Rattle.std.specs.List.{list_all};
ghost use Rattle.journal_records.specs.Fitting as fitting;
ghost use Rattle.journal_records.specs.Spelling as bytes_of;
ghost use Rattle.journal_records.specs.Reading.{Gives, times, listed_at, optional_at};

use crate::choices::after_tag;
use crate::piece::Piece;
use crate::read_fields::number32;
use crate::short::LIMIT;
use crate::stop::Stop;
use crate::write_fields::put_length;
use dl_values::NoMemory;
use sqlite_items::Items;
use std::alloc::Global;

fn are_short<T: Piece>(pieces: &[T]) -> bool
    ensures { result ≡ list_all T.short pieces.now }
{
    for piece in pieces {
        if !piece.is_short() {
            return false;
        }
    }
    true
}

pub fn is_short_list<T: Piece>(pieces: &[T]) -> bool
    ensures { result ≡ fitting.short_list T.short pieces.now }
{
    pieces.len() < LIMIT && are_short(pieces)
}

pub fn put_list<T: Piece>(out: &mut Vec<u8>, format: u8, pieces: &[T]) -> Result<(), NoMemory>
    ensures { OnOk result (out.new.items ≡ out.old.items ++ bytes_of.listed (T.spelled format) pieces.now) }
{
    put_length(out, pieces.len())?;
    for piece in pieces {
        piece.put(format, out)?;
    }
    Ok(())
}

// So many pieces.
fn pieces_of<T: Piece>(
    alloc: Global,
    format: u8,
    count: u32,
    bytes: &[u8],
) -> Result<(Items<T>, &[u8]), Stop>
    ensures { Gives (λ x. (x.0, x.1.now)) result (times count (T.reader format) bytes.now) }
{
    let mut pieces = Items::new(alloc);
    let mut rest = bytes;
    for _ in 0..count {
        let (piece, after) = T::read(alloc, format, rest)?;
        pieces.push(piece)?;
        rest = after;
    }
    Ok((pieces, rest))
}

// Pieces behind their count.
pub fn list<T: Piece>(alloc: Global, format: u8, bytes: &[u8]) -> Result<(Items<T>, &[u8]), Stop>
    ensures { Gives (λ x. (x.0, x.1.now)) result (listed_at (T.reader format) bytes.now) }
{
    let (count, rest) = number32(bytes)?;
    let (pieces, rest) = pieces_of(alloc, format, count, rest)?;
    Ok((pieces, rest))
}

pub fn is_short_option<T: Piece>(piece: &Option<T>) -> bool
    ensures { result ≡ fitting.short_option T.short piece.now }
{
    match piece {
        None => true,
        Some(piece) => piece.is_short(),
    }
}

pub fn put_option<T: Piece>(
    out: &mut Vec<u8>,
    format: u8,
    piece: &Option<T>,
) -> Result<(), NoMemory>
    ensures { OnOk result (out.new.items ≡ out.old.items ++ bytes_of.optional (T.spelled format) piece.now) }
{
    match piece {
        None => out.push(0)?,
        Some(piece) => {
            out.push(1)?;
            piece.put(format, out)?;
        }
    }
    Ok(())
}

// A piece, if there is one.
pub fn option<T: Piece>(alloc: Global, format: u8, bytes: &[u8]) -> Result<(Option<T>, &[u8]), Stop>
    ensures { Gives (λ x. (x.0, x.1.now)) result (optional_at (T.reader format) bytes.now) }
{
    if let Some(rest) = after_tag(bytes, 0) {
        return Ok((None, rest));
    }
    if let Some(rest) = after_tag(bytes, 1) {
        let (piece, rest) = T::read(alloc, format, rest)?;
        return Ok((Some(piece), rest));
    }
    Err(Stop::Left(bytes.len()))
}
