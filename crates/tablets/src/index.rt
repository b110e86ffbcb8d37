// An index of a table, with its tablets by partition and bucket.
ghost use Rattle.std.specs.Prelude.{◌≡◌, ◌++◌, ◌∷◌, [], IfOk, OnOk, OnErr, replicate};
ghost use Rattle.tablets.specs.Parting.{cut_to};
ghost use Rattle.tablets.specs.SetView.{empty_index, empty_part, with_part};
ghost use Rattle.tablets.specs.Shadows as shadows;

use crate::Shadow;
use crate::part::Part;
use dl_values::NoMemory;
use schema_models::Shape;
use std::alloc::Global;
use std::marker::Model;

// Its number, whose shadow it is, its shape, and its tablets by partition and bucket.
#[derive(Drop)]
pub struct Index {
    pub number: u64,
    pub shadow: Option<Shadow>,
    pub shape: Shape,
    pub parts: Vec<Part>,
}

impl Model for Index {
    ghost use Rattle.tablets.specs.SetView.{IndexView};

    ghost Value = { IndexView };

    ghost view = { λ i. record { number = i.number; shadow = i.shadow; shape = i.shape; parts = i.parts.items } };
}

impl Index {
    // An index whose tablets have no rowset.
    pub fn empty(
        alloc: Global,
        number: u64,
        shadow: Option<Shadow>,
        shape: Shape,
        size: (u64, u64),
    ) -> Result<Index, NoMemory>
        ensures { IfOk result (λ i. i ≡ empty_index number shadow shape size.0 size.1) }
    {
        let parts = empty_parts(alloc, &shape, size)?;
        Ok(Index {
            number,
            shadow,
            shape,
            parts,
        })
    }

    // One partition more, at the end, its tablets empty.
    pub fn add_part(&mut self, alloc: Global, buckets: u64) -> Result<(), NoMemory>
        ensures ok { OnOk result (self.new ≡ with_part buckets self.old) }
        ensures err { OnErr result (self.new ≡ self.old) }
    {
        let part = Part::empty(alloc, &self.shape, buckets)?;
        self.parts.push(part)?;
        Ok(())
    }

    // The first partitions alone.
    pub fn cut(&mut self, parts: u64)
        ensures { self.new ≡ cut_to parts self.old }
    {
        self.parts.truncate(parts as usize);
    }

    // Whether it is a shadow of a job.
    pub fn is_shadow_of(&self, job: u64) -> bool
        ensures { result ≡ shadows.is_shadow_of job self.now }
    {
        match self.shadow {
            None => false,
            Some(shadow) => shadow.job == job,
        }
    }

    // Whether it is a shadow that is to replace the index of a number.
    pub fn aims_at(&self, number: u64) -> bool
        ensures { result ≡ shadows.is_number number (shadows.aim self.now.shadow) }
    {
        match self.shadow {
            None => false,
            Some(shadow) => shadow.replaces == Some(number),
        }
    }

    // The number whose place a shadow of a job is to take.
    pub fn aim_of(&self, job: u64) -> Option<u64>
        ensures { result ≡ shadows.aim_of job self.now }
    {
        match self.shadow {
            None => None,
            Some(shadow) => {
                if shadow.job == job {
                    shadow.replaces
                } else {
                    None
                }
            }
        }
    }

    // No shadow of a job any more.
    pub fn unmark(&mut self, job: u64)
        ensures { self.new ≡ shadows.unmarked job self.old }
    {
        if self.is_shadow_of(job) {
            self.shadow = None;
        }
    }
}

// As many partitions whose tablets have no rowset.
fn empty_parts(alloc: Global, shape: &Shape, size: (u64, u64)) -> Result<Vec<Part>, NoMemory>
    ensures { IfOk result (λ v. v.items ≡ replicate size.0 (empty_part shape.now size.1)) }
{
    let mut parts = Vec::new(alloc);
    for _ in 0..size.0 {
        parts.push(Part::empty(alloc, shape, size.1)?)?;
    }
    Ok(parts)
}
