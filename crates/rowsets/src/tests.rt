// A rowset has the fold of the rows that it was built of, and knows the marks of its shape.
ghost use Rattle.std.specs.Prelude.{◌≡◌, ◌<◌};

use crate::Rowset;
use columnar::are_of_shape;
use dl_outside::Steps;
use dl_values::{AggKind, Cell, ColType, Name, NoMemory, Row, RowView, Rows, write_cell};
use row_fold::SortedRows;
use schema_models::{ColumnDef, Model, Role, Shape};
use std::alloc::Global;
use std::marker::Brand;
use std::sync::Arc;
use std::sync::ledger::{Blank, Ledger};
use std::test::Fail;
use zones::{Op, Test, Zones};

// What the two columns of a shape have.
#[derive(Clone, Copy)]
pub struct Kinds {
    model: Model,
    key: ColType,
    value: Role,
    nullable: bool,
}

pub const SUMS: Kinds = Kinds {
    model: Model::Aggregate,
    key: ColType::Int,
    value: Role::Agg(AggKind::Sum),
    nullable: true,
};

fn column(
    alloc: Global,
    name: u8,
    kind: ColType,
    nullable: bool,
    role: Role,
) -> Result<ColumnDef, NoMemory> {
    Ok(ColumnDef {
        name: Name::new(alloc, &[name])?,
        kind,
        nullable,
        role,
        default: None,
    })
}

fn shape(alloc: Global, kinds: Kinds) -> Result<Option<Shape>, NoMemory> {
    let mut columns = Vec::new(alloc);
    columns.push(column(alloc, b'k', kinds.key, false, Role::Key)?)?;
    columns.push(column(alloc, b'v', ColType::BigInt, kinds.nullable, kinds.value)?)?;
    Ok(Shape::build(kinds.model, columns).ok())
}

fn rows(alloc: Global, of: &[(i64, i64)]) -> Result<Rows, NoMemory> {
    let mut rows = Rows::new(alloc);
    for (key, value) in of {
        let mut row = Row::new(alloc);
        row.push(Cell::Int(*key))?;
        row.push(Cell::Int(*value))?;
        rows.push(row)?;
    }
    Ok(rows)
}

pub fn built(
    alloc: Global,
    kinds: Kinds,
    of: &[(i64, i64)],
) -> Result<Option<Arc<Rowset>>, NoMemory> {
    let Some(shape) = shape(alloc, kinds)? else {
        return Ok(None);
    };
    let given = rows(alloc, of)?;
    if are_of_shape(&shape, &given) {
        Ok(Some(Rowset::build(alloc, &shape, given)?))
    } else {
        Ok(None)
    }
}

// The text of all rows, each looked at by its place.
fn told<L: Ledger>(alloc: Global, rows: &Arc<Rowset>, blank: Blank) -> Result<Vec<u8>, NoMemory>
    requires name { blank.name ≡ L.name }
    requires parts { blank.parts ≡ L.parts }
    requires some { 0 < L.parts }
{
    let mut steps: Steps<L> = Steps::new(blank);
    let mut text = Vec::new(alloc);
    for place in 0..rows.len() {
        let row = rows.row(place, &mut steps);
        for column in 0..row.len() {
            write_cell(row.cell(column), &mut text)?;
            text.push(b';')?;
        }
    }
    Ok(text)
}

#[test]
fn a_rowset_has_the_fold_of_its_rows(rt: HostRuntime) -> Result<(), Fail> {
    let alloc = rt.alloc();
    let rowset = built(alloc, SUMS, &[(2, 1), (1, 5), (2, 7)])?.ok_or("no rowset")?;
    let text = told::<Brand>(alloc, &rowset, Blank::new(1))?;
    assert_eq!(rt; text.as_slice(), b"1;5;2;8;".as_slice());
    Ok(())
}

// Whether a row has this key and this value.
fn has_cells(row: &RowView, key: i64, value: i64) -> bool {
    if row.len() != 2 {
        return false;
    }
    match (row.cell(0), row.cell(1)) {
        (Cell::Int(first), Cell::Int(second)) => *first == key && *second == value,
        _ => false,
    }
}

// Whether the rows have the keys from 0 up to a count, each with the number below it.
fn are_numbered<L: Ledger>(rowset: &Arc<Rowset>, count: u32, blank: Blank) -> bool
    requires name { blank.name ≡ L.name }
    requires parts { blank.parts ≡ L.parts }
    requires some { 0 < L.parts }
{
    let mut steps: Steps<L> = Steps::new(blank);
    if rowset.len() != count as usize {
        return false;
    }
    for place in 0..count {
        let key = i64::from(place);
        if !has_cells(&rowset.row(place as usize, &mut steps), key, key - 1) {
            return false;
        }
    }
    true
}

// Whether a rowset of so many rows, which are given from the greatest key down, has them all.
fn is_whole(alloc: Global, count: u32) -> Result<bool, NoMemory> {
    let mut given = Vec::new(alloc);
    for place in 0..count {
        let key = i64::from(count - 1 - place);
        given.push((key, key - 1))?;
    }
    match built(alloc, SUMS, given.as_slice())? {
        Some(rowset) => Ok(are_numbered::<Brand>(&rowset, count, Blank::new(1))),
        None => Ok(false),
    }
}

#[test]
fn a_rowset_of_several_blocks_has_all_its_rows(rt: HostRuntime) -> Result<(), Fail> {
    for count in [0, 1, 1023, 1024, 1025, 2049] {
        let whole = is_whole(rt.alloc(), count)?;
        assert!(rt; whole, "of {count} rows");
    }
    Ok(())
}

#[test]
fn a_rowset_is_of_the_shapes_with_its_marks(rt: HostRuntime) -> Result<(), Fail> {
    let alloc = rt.alloc();
    let rowset = built(alloc, SUMS, &[(1, 5)])?.ok_or("no rowset")?;
    let table = [
        (SUMS, true),
        (
            Kinds {
                value: Role::Agg(AggKind::Max),
                ..SUMS
            },
            true,
        ),
        (
            Kinds {
                nullable: false,
                ..SUMS
            },
            false,
        ),
        (
            Kinds {
                key: ColType::BigInt,
                ..SUMS
            },
            false,
        ),
        (
            Kinds {
                model: Model::Unique,
                value: Role::Plain,
                ..SUMS
            },
            false,
        ),
        (
            Kinds {
                model: Model::Unique,
                value: Role::Key,
                ..SUMS
            },
            false,
        ),
    ];
    for (kinds, wanted) in table {
        let shape = shape(alloc, kinds)?.ok_or("no shape")?;
        assert_eq!(rt; rowset.is_of(&shape), wanted);
    }
    Ok(())
}

#[test]
fn a_rowset_tells_which_of_its_blocks_may_match(rt: HostRuntime) -> Result<(), Fail> {
    let alloc = rt.alloc();
    let rowset = built(alloc, SUMS, &[(2, 1), (1, 5), (2, 7)])?.ok_or("no rowset")?;
    if rowset.len() != 2 {
        return Err("not two rows".into());
    }
    assert_eq!(rt; (rowset.block_of(1), rowset.block_end(0)), (0, 2));
    for (column, literal, wanted) in [(0, 2, true), (0, 3, false), (1, 8, true), (1, 9, false)] {
        let test = Test {
            column,
            op: Op::Eq,
            literal: Cell::Int(literal),
        };
        assert_eq!(rt; rowset.block_may_match(rowset.block_of(0), &test), wanted);
    }
    Ok(())
}
