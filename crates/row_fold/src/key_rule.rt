// How the keys of rows are read off and compared.
ghost use Rattle.std.specs.Prelude.{◌≡◌, ◌<◌};
ghost use Rattle.schema_models.specs.ShapeView.{key_count};

use crate::keyed::Keyed;
use crate::prefix::is_exact;
use dl_values::{Cell, compare_slices};
use schema_models::{Model, Shape};
use std::cmp::Ordering;

// A shape with its model and the number of its key columns, read once.
#[derive(Drop)]
pub struct KeyRule<'a> {
    pub shape: &'a Shape,
    model: Model,
    width: usize,
    ghost is_model: { model ≡ shape.now.model },
    ghost is_width: { width ≡ key_count shape.now.columns },
    ghost has_key: { 0 < width },
}

impl<'a> KeyRule<'a> {
    ghost use Rattle.std.specs.Prelude.{◌≡◌, ◌↔◌, IsTrue};
    ghost use Rattle.dl_values.specs.Order.{row_cmp};
    ghost use Rattle.schema_models.specs.Folds.{key_of};
    ghost use Rattle.row_fold.specs.Follows as follow;
    ghost use Rattle.row_fold.specs.Sorted.{IsSingle};
    ghost use Rattle.schema_models.specs.declared.model.Model.TheVariants as model;

    pub fn new(shape: &'a Shape) -> KeyRule<'a>
        ensures { result.shape.now ≡ shape.now }
    {
        shape.vouch();
        KeyRule {
            shape,
            model: shape.model(),
            width: shape.keys(),
        }
    }

    // Whether each row of a key is kept.
    pub fn keeps_all(&self) -> bool
        ensures is { IsTrue result ↔ (self.now.shape.now.model ≡ model.Duplicate) }
        ensures by_model { result ≡ follow.keeps_all self.now.shape.now.model }
    {
        match self.model {
            Model::Duplicate => true,
            Model::Unique | Model::Aggregate => false,
        }
    }

    // The key of a row.
    pub fn key<'r>(&self, row: &'r [Cell]) -> &'r [Cell]
        ensures { result.now ≡ key_of self.now.shape.now row.now }
    {
        match self.model {
            Model::Duplicate => row,
            Model::Unique | Model::Aggregate => &row[..self.width.min(row.len())],
        }
    }

    // Whether a key is one cell.
    fn is_single(&self) -> bool
        ensures { IsTrue result → IsSingle self.now.shape.now }
    {
        self.width == 1 && !self.keeps_all()
    }

    // How the keys of two rows stand to each other. The numbers decide, but where they are the same number of other cells
    // too, or of the first of more cells.
    pub fn compare(&self, a: &Keyed, b: &Keyed) -> Ordering
        ensures { result ≡ row_cmp (key_of self.now.shape.now a.now.row.now) (key_of self.now.shape.now b.now.row.now) }
    {
        if a.prefix < b.prefix {
            return Ordering::Less;
        }
        if b.prefix < a.prefix {
            return Ordering::Greater;
        }
        if self.is_single() && is_exact(a.prefix) {
            return Ordering::Equal;
        }
        compare_slices(self.key(a.row), self.key(b.row))
    }
}
