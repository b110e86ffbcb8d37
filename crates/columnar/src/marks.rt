// What of a shape stands beside stored rows.
ghost use Rattle.std.specs.Prelude.{◌≡◌, ◌↔◌, IfOk, IsTrue, map};
ghost use Rattle.columnar.specs.Marks.{mark_of};

use dl_values::{ColType, NoMemory};
use schema_models::{ColumnDef, Model, Shape};
use std::alloc::Global;

/// What of a column decides which cells it may have.
#[derive(Clone, Copy, Debug, PartialEq, Eq)]
pub struct ColumnMark {
    pub kind: ColType,
    pub nullable: bool,
}

/// What of a shape decides which rows are of it and how they fold by key: its model, how many of its columns are keys, and
/// of each column its type and whether it is nullable. Contracts see it as the record of these.
#[derive(Debug, Drop)]
pub struct Marks {
    model: Model,
    keys: usize,
    columns: Vec<ColumnMark>,
}

impl std::marker::Model for Marks {
    ghost use Rattle.columnar.specs.MarksView.{MarksView};

    ghost Value = { MarksView };

    ghost view = { λ m. record { model = m.model; keys = m.keys; columns = m.columns.items } };
}

// The marks of columns in their order.
fn marks_of_columns(alloc: Global, columns: &[ColumnDef]) -> Result<Vec<ColumnMark>, NoMemory>
    ensures { IfOk result (λ marks. marks.items ≡ map mark_of columns.now) }
{
    let mut marks = Vec::with_capacity(alloc, columns.len())?;
    for column in columns {
        marks.push(ColumnMark {
            kind: column.kind,
            nullable: column.nullable,
        })?;
    }
    Ok(marks)
}

fn is_marked(column: &ColumnDef, mark: ColumnMark) -> bool
    ensures { IsTrue result ↔ (mark ≡ mark_of column.now) }
{
    column.kind == mark.kind && column.nullable == mark.nullable
}

// Whether columns have these marks.
fn are_marked(columns: &[ColumnDef], marks: &[ColumnMark]) -> bool
    ensures { IsTrue result ↔ (marks.now ≡ map mark_of columns.now) }
{
    if columns.len() != marks.len() {
        return false;
    }
    for i in 0..columns.len() {
        if !is_marked(&columns[i], marks[i]) {
            return false;
        }
    }
    true
}

impl Marks {
    ghost use Rattle.std.specs.Prelude.{◌≡◌, ◌↔◌, IfOk, IsTrue};
    ghost use Rattle.columnar.specs.Marks.{marks_of};

    /// The marks of a shape.
    pub fn of(alloc: Global, shape: &Shape) -> Result<Marks, NoMemory>
        ensures { IfOk result (λ m. m ≡ marks_of shape.now) }
    {
        let columns = marks_of_columns(alloc, shape.columns())?;
        Ok(Marks {
            model: shape.model(),
            keys: shape.keys(),
            columns,
        })
    }

    /// Whether these are the marks of a shape. Takes no memory.
    pub fn is_of(&self, shape: &Shape) -> bool
        ensures { IsTrue result ↔ (self.now ≡ marks_of shape.now) }
    {
        self.model == shape.model()
            && self.keys == shape.keys()
            && are_marked(shape.columns(), self.columns.as_slice())
    }
}
