// Writing numbers, texts, cells and rows at the end of what is written.
ghost use Rattle.std.specs.Prelude.{◌≡◌, ◌++◌, OnOk};
ghost use Rattle.std.specs.List.{AllByRecursion};
ghost use Rattle.journal_records.specs.Spelling as bytes_of;
ghost use Rattle.journal_records.specs.Fitting.{InWidth};

use crate::encoded_rows::EncodedRows;
use dl_values::{Cell, NoMemory, Rows};

#[tactic(auto, unfolding(crate::specs::Spelling::number64))]
pub fn put_number64(out: &mut Vec<u8>, number: u64) -> Result<(), NoMemory>
    ensures { OnOk result (out.new.items ≡ out.old.items ++ bytes_of.number64 number) }
{
    out.extend_from_slice(&number.to_be_bytes())?;
    Ok(())
}

#[tactic(auto, unfolding(crate::specs::Spelling::pair))]
pub fn put_pair(out: &mut Vec<u8>, first: u64, second: u64) -> Result<(), NoMemory>
    ensures { OnOk result (out.new.items ≡ out.old.items ++ bytes_of.pair (first, second)) }
{
    put_number64(out, first)?;
    put_number64(out, second)?;
    Ok(())
}

pub fn put_number32(out: &mut Vec<u8>, number: u32) -> Result<(), NoMemory>
    ensures { OnOk result (out.new.items ≡ out.old.items ++ bytes_of.number32 number) }
{
    put_length(out, number as usize)
}

// The four low bytes of a length. Nothing that is written is longer than they say.
pub fn put_length(out: &mut Vec<u8>, len: usize) -> Result<(), NoMemory>
    ensures { OnOk result (out.new.items ≡ out.old.items ++ bytes_of.number32 len) }
{
    let bytes = (len as u64).to_be_bytes();
    out.extend_from_slice(&bytes[4..])?;
    Ok(())
}

#[tactic(auto, unfolding(crate::specs::Spelling::text))]
pub fn put_text(out: &mut Vec<u8>, text: &[u8]) -> Result<(), NoMemory>
    ensures { OnOk result (out.new.items ≡ out.old.items ++ bytes_of.text text.now) }
{
    put_length(out, text.len())?;
    out.extend_from_slice(text)?;
    Ok(())
}

pub fn put_flag(out: &mut Vec<u8>, flag: bool) -> Result<(), NoMemory>
    ensures { OnOk result (out.new.items ≡ out.old.items ++ bytes_of.flag flag) }
{
    if flag {
        out.push(1)?;
    } else {
        out.push(0)?;
    }
    Ok(())
}

pub fn put_job(out: &mut Vec<u8>, job: Option<u64>) -> Result<(), NoMemory>
    ensures { OnOk result (out.new.items ≡ out.old.items ++ bytes_of.optional bytes_of.number64 job) }
{
    match job {
        None => out.push(0)?,
        Some(job) => {
            out.push(1)?;
            put_number64(out, job)?;
        }
    }
    Ok(())
}

#[tactic(auto, unfolding(crate::specs::Spelling::number64))]
pub fn put_cell(out: &mut Vec<u8>, cell: &Cell) -> Result<(), NoMemory>
    ensures written { OnOk result (out.new.items ≡ out.old.items ++ bytes_of.cell cell.now) }
    ensures width { OnOk result (InWidth cell.now) }
{
    match cell {
        Cell::Null => out.push(0)?,
        Cell::Int(value) => {
            out.push(1)?;
            out.extend_from_slice(&value.to_be_bytes())?;
        }
        Cell::Day(day) => {
            out.push(2)?;
            out.extend_from_slice(&day.to_be_bytes())?;
        }
        Cell::Text(text) => {
            out.push(3)?;
            put_text(out, text.bytes())?;
        }
    }
    Ok(())
}

pub fn put_row(out: &mut Vec<u8>, cells: &[Cell]) -> Result<(), NoMemory>
    ensures written { OnOk result (out.new.items ≡ out.old.items ++ bytes_of.row cells.now) }
    ensures width { OnOk result (AllByRecursion InWidth cells.now) }
{
    put_length(out, cells.len())?;
    for cell in cells {
        put_cell(out, cell)?;
    }
    Ok(())
}

#[tactic(auto, unfolding(crate::specs::Spelling::rows))]
pub fn put_rows(out: &mut Vec<u8>, rows: &Rows) -> Result<(), NoMemory>
    ensures written { OnOk result (out.new.items ≡ out.old.items ++ bytes_of.rows rows.now) }
    ensures width { OnOk result (AllByRecursion (AllByRecursion InWidth) rows.now) }
{
    put_length(out, rows.len())?;
    for place in 0..rows.len() {
        put_row(out, rows.row(place))?;
    }
    Ok(())
}

pub fn put_encoded(out: &mut Vec<u8>, rows: &EncodedRows) -> Result<(), NoMemory>
    ensures { OnOk result (out.new.items ≡ out.old.items ++ bytes_of.rows rows.now) }
{
    out.extend_from_slice(rows.bytes())?;
    Ok(())
}

#[tactic(auto, unfolding(crate::specs::Spelling::bound))]
pub fn put_bound(out: &mut Vec<u8>, end: &Option<Cell>) -> Result<(), NoMemory>
    ensures { OnOk result (out.new.items ≡ out.old.items ++ bytes_of.bound end.now) }
{
    match end {
        None => out.push(0)?,
        Some(cell) => {
            out.push(1)?;
            put_cell(out, cell)?;
        }
    }
    Ok(())
}
