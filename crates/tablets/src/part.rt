// The tablets of one partition of an index, by bucket.
ghost use Rattle.std.specs.Prelude.{◌≡◌, IfOk};
ghost use Rattle.tablets.specs.SetView.{empty_part};

use crate::Tablet;
use dl_values::NoMemory;
use schema_models::Shape;
use std::alloc::Global;
use std::marker::Model;

// The tablets by bucket.
#[derive(Drop)]
pub struct Part {
    pub tablets: Vec<Tablet>,
}

impl Model for Part {
    ghost use Rattle.std.specs.Prelude.{List};
    ghost use Rattle.tablets.specs.TabletView.{TabletView};

    ghost Value = { List TabletView };

    ghost view = { λ p. p.tablets.items };
}

impl Part {
    // As many tablets without a rowset.
    pub fn empty(alloc: Global, shape: &Shape, buckets: u64) -> Result<Part, NoMemory>
        ensures { IfOk result (λ p. p ≡ empty_part shape.now buckets) }
    {
        let mut tablets = Vec::new(alloc);
        for _ in 0..buckets {
            tablets.push(Tablet::new(alloc, shape.copy(alloc)?))?;
        }
        Ok(Part { tablets })
    }
}
