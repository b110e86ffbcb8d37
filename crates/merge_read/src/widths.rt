// How many of the first cells of a row are its key.
ghost use Rattle.std.specs.Prelude.{◌≡◌, ◌<◌};
ghost use Rattle.merge_read.specs.Keys as keys;

use schema_models::{Model, Shape};

// All cells in the Duplicate model.
pub fn key_width(shape: &Shape) -> usize
    ensures { result ≡ keys.key_width shape.now }
{
    match shape.model() {
        Model::Duplicate => shape.columns().len(),
        Model::Unique | Model::Aggregate => shape.keys(),
    }
}
