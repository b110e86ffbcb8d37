// The shape of a table's rows.
use crate::column_def::copy_columns;
use crate::faults::shape_fault;
use crate::{ColumnDef, Model, Role, ShapeError};
use dl_values::{Name, NoMemory};
use std::alloc::Global;

/// A model and columns, keys first, that pass every test of `build`.
#[derive(Debug, Drop)]
pub struct Shape {
    model: Model,
    columns: Vec<ColumnDef>,
}

impl std::marker::Model for Shape {
    ghost use Rattle.schema_models.specs.ShapeView.{ShapeView};
    ghost use Rattle.schema_models.specs.ShapeRules.{IsShape};

    ghost Value = { ShapeView };

    ghost view = { λ s. record { model = s.model; columns = s.columns.items } };

    ghost invariant = { λ s. IsShape (record { model = s.model; columns = s.columns.items }) };
}

impl Shape {
    ghost use Rattle.std.specs.Prelude.{◌≡◌, ◌<◌, IfOk, IfErr, Some, None, position};
    ghost use Rattle.std.specs.Str.{bytes_eq};
    ghost use Rattle.schema_models.specs.ShapeRules as rules;
    ghost use Rattle.schema_models.specs.ShapeView.{key_count};

    /// The shape of a model and columns, or their first fault: too many columns or none, and then column by column in
    /// the order in which the variants of the error stand. Takes no memory; on an error the columns are dropped.
    pub fn build(model: Model, columns: Vec<ColumnDef>) -> Result<Shape, ShapeError>
        ensures built { IfOk result (λ s. (rules.shape_fault model columns.items ≡ None) × (s.model ≡ model) × (s.columns ≡ columns.items)) }
        ensures refused { IfErr result (λ e. rules.shape_fault model columns.items ≡ Some e) }
    {
        match shape_fault(model, &columns) {
            None => Ok(Shape { model, columns }),
            Some(fault) => Err(fault),
        }
    }

    /// The model.
    pub fn model(&self) -> Model
        ensures { result ≡ self.now.model }
    {
        self.model
    }

    /// The columns in their order.
    pub fn columns(&self) -> &[ColumnDef]
        ensures { result.now ≡ self.now.columns }
    {
        self.columns.as_slice()
    }

    /// How many columns stand before the first that is no key.
    pub fn keys(&self) -> usize
        ensures { result ≡ key_count self.now.columns }
    {
        for (i, column) in self.columns.iter().enumerate() {
            match column.role {
                Role::Key => {}
                Role::Plain | Role::Agg(_) => return i,
            }
        }
        self.columns.len()
    }

    /// The place of the column with this name, if there is one.
    pub fn position(&self, name: &Name) -> Option<usize>
        ensures { result ≡ position (λ c. bytes_eq c.name name.now) self.now.columns }
    {
        self.columns.iter().position(|c| c.name == *name)
    }

    /// An equal shape of its own.
    pub fn copy(&self, alloc: Global) -> Result<Shape, NoMemory>
        ensures { IfOk result (λ s. s ≡ self.now) }
    {
        match copy_columns(alloc, &self.columns) {
            Ok(columns) => Ok(Shape {
                model: self.model,
                columns,
            }),
            Err(e) => Err(e),
        }
    }

    /// Does nothing: each shape passes every test of `build`, and so has a key, which a proof learns by this call.
    pub fn vouch(&self)
        ensures valid { rules.IsShape self.now }
        ensures has_key { 0 < key_count self.now.columns }
    {
        let _ = &self.columns;
    }
}
