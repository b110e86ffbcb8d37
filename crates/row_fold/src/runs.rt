// The row that is being made of rows of one key.
ghost use Rattle.std.specs.Prelude.{◌≡◌, ◌++◌, ◌∷◌, [], OnOk};
ghost use Rattle.schema_models.specs.Folds.{merged_by_role, merged_row};

use dl_values::{AggKind, Cell, NoMemory, Row, Rows, copy_cell};
use schema_models::{ColumnDef, Role, merge_by_role};
use std::alloc::Global;
use std::mem;

// Merges a newer cell into an old one.
fn merge_cell(alloc: Global, role: Role, old: &mut Cell, new: &Cell) -> Result<(), NoMemory>
    ensures { OnOk result (old.new ≡ merged_by_role role old.old new.now) }
{
    match (role, &*old, new) {
        (Role::Key, _, _) => Ok(()),
        // The most frequent case takes no cell away.
        (Role::Agg(AggKind::Sum), Cell::Int(sum), Cell::Int(more)) => {
            let sum = sum.wrapping_add(*more);
            *old = Cell::Int(sum);
            Ok(())
        }
        (role, _, new) => {
            let newer = copy_cell(alloc, new)?;
            let older = mem::replace(old, Cell::Null);
            *old = merge_by_role(role, older, newer);
            Ok(())
        }
    }
}

// Merges a newer row into the cells of an old one.
pub fn merge_into(
    alloc: Global,
    columns: &[ColumnDef],
    made: &mut Vec<Cell>,
    new: &[Cell],
) -> Result<(), NoMemory>
    ensures { OnOk result (made.new.items ≡ merged_row columns.now made.old.items new.now) }
{
    made.truncate(columns.len().min(new.len()));
    for i in 0..made.len() {
        merge_cell(alloc, columns[i].role, &mut made[i], &new[i])?;
    }
    Ok(())
}

// Begins with the cells of a row.
pub fn begin(alloc: Global, made: &mut Vec<Cell>, row: &[Cell]) -> Result<(), NoMemory>
    ensures { OnOk result (made.new.items ≡ row.now) }
{
    made.clear();
    for cell in row {
        made.push(copy_cell(alloc, cell)?)?;
    }
    Ok(())
}

// Moves the cells to the end of the rows, as a row.
pub fn end(out: &mut Rows, room: &mut Row, made: &mut Vec<Cell>) -> Result<(), NoMemory>
    requires { room.old ≡ [] }
    ensures added { OnOk result (out.new ≡ out.old ++ made.old.items ∷ []) }
    ensures emptied { OnOk result (room.new ≡ []) }
{
    for i in 0..made.len() {
        room.push(mem::replace(&mut made[i], Cell::Null))?;
    }
    out.append(room)
}
