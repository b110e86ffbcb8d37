// The positions of columns by their names.
ghost use Rattle.std.specs.Prelude.{◌≡◌, ◌++◌, [], IfOk, OnOk};
ghost use Rattle.partitions.specs.Search as search;

use dl_values::{Name, NoMemory};
use std::alloc::Global;

// The position of the first column with a name.
fn position_of(names: &[Name], name: &Name) -> Option<usize>
    ensures { result ≡ search.position_of names.now name.now }
{
    names.iter().position(|n| *n == *name)
}

// The position of the column, where there is a name.
pub fn column_position(names: &[Name], name: &Option<Name>) -> Option<usize>
    ensures { result ≡ search.column_position names.now name.now }
{
    match name {
        None => None,
        Some(name) => position_of(names, name),
    }
}

// Adds a position at the end, where there is one.
fn push_position(positions: &mut Vec<usize>, position: Option<usize>) -> Result<(), NoMemory>
    ensures { OnOk result (positions.new.items ≡ positions.old.items ++ search.with_position position []) }
{
    match position {
        None => Ok(()),
        Some(position) => Ok(positions.push(position)?),
    }
}

// The positions of the columns with these names, without those that no column has.
pub fn positions_of(alloc: Global, names: &[Name], wanted: &[Name]) -> Result<Vec<usize>, NoMemory>
    ensures { IfOk result (λ v. v.items ≡ search.positions_of names.now wanted.now) }
{
    let mut positions = Vec::new(alloc);
    for name in wanted {
        push_position(&mut positions, position_of(names, name))?;
    }
    Ok(positions)
}
