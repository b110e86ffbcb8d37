// Cells and rows as JSON.
ghost use Rattle.std.specs.Prelude.{◌≡◌, IfOk, string_bytes};
ghost use Rattle.serde_json.specs.View.{view};
ghost use Rattle.dl_values.specs.Days.{day_text};
ghost use Rattle.reply_json.specs.Results.{cell_json, row_json, list_json};

use crate::text::text_value;
use dl_values::{Cell, NoMemory, Rows, write_cell};
use serde_json::Value;
use std::alloc::Global;

// The text of a day as a string.
#[tactic(auto, using(crate::proofs::Days::day_stands))]
fn day_string(alloc: Global, day: u32) -> Result<String, NoMemory>
    ensures { IfOk result (λ s. string_bytes s ≡ day_text day) }
{
    let mut text = Vec::new(alloc);
    write_cell(&Cell::Day(day), &mut text)?;
    Ok(String::from_utf8_lossy(alloc, text.as_slice())?)
}

fn cell_value(alloc: Global, cell: &Cell) -> Result<Value, NoMemory>
    ensures { IfOk result (λ v. view v ≡ cell_json cell.now) }
{
    match cell {
        Cell::Null => Ok(Value::Null),
        Cell::Int(value) => Ok(Value::from(*value)),
        Cell::Day(day) => Ok(Value::String(day_string(alloc, *day)?)),
        Cell::Text(text) => text_value(alloc, text),
    }
}

fn row_value(alloc: Global, cells: &[Cell]) -> Result<Value, NoMemory>
    ensures { IfOk result (λ v. view v ≡ row_json cells.now) }
{
    let mut items = Vec::with_capacity(alloc, cells.len())?;
    for cell in cells {
        items.push(cell_value(alloc, cell)?)?;
    }
    Ok(Value::Array(items))
}

// The JSON list of the rows.
pub fn rows_value(alloc: Global, rows: &Rows) -> Result<Value, NoMemory>
    ensures { IfOk result (λ v. view v ≡ list_json row_json rows.now) }
{
    let mut items = Vec::with_capacity(alloc, rows.len())?;
    for place in 0..rows.len() {
        items.push(row_value(alloc, rows.row(place))?)?;
    }
    Ok(Value::Array(items))
}
