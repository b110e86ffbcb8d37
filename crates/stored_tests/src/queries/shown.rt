// Answers and refusals as texts.
use dl_values::{Cell, NoMemory, ResultSet, Text, write_cell};
use select_defs::SelectError;
use std::alloc::Global;
use std::test::Fail;

fn add_header(out: &mut Vec<u8>, names: &[Text], types: &[Text]) -> Result<(), NoMemory> {
    for (place, (name, kind)) in names.iter().zip(types.iter()).enumerate() {
        if place > 0 {
            out.push(b',')?;
        }
        out.extend_from_slice(name.bytes())?;
        out.push(b' ')?;
        out.extend_from_slice(kind.bytes())?;
    }
    out.push(b';')?;
    Ok(())
}

fn add_row(out: &mut Vec<u8>, row: &[Cell]) -> Result<(), NoMemory> {
    for (place, cell) in row.iter().enumerate() {
        if place > 0 {
            out.push(b',')?;
        }
        write_cell(cell, out)?;
    }
    out.push(b';')?;
    Ok(())
}

fn shown(alloc: Global, set: &ResultSet) -> Result<Vec<u8>, NoMemory> {
    let mut out = Vec::new(alloc);
    add_header(&mut out, set.names.as_slice(), set.types.as_slice())?;
    for place in 0..set.rows.len() {
        add_row(&mut out, set.rows.row(place))?;
    }
    Ok(out)
}

pub fn text_of(alloc: Global, answer: Result<ResultSet, SelectError>) -> Result<Vec<u8>, Fail> {
    match answer {
        Ok(set) => Ok(shown(alloc, &set)?),
        Err(error) => {
            let text = format!(in alloc; "{error}")?;
            Ok(Vec::from_slice(alloc, text.as_bytes())?)
        }
    }
}
