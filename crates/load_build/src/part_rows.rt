// The rows of a load in one partition, by bucket. A partition that got no row has no lists; another one has a list for each
// of its buckets, which may be empty.
ghost use Rattle.std.specs.Prelude.{◌≡◌, [], IfOk, OnOk};
ghost use Rattle.load_build.specs.PartLists.{empty_lists, no_lists, opened, with_row};

use dl_values::{Cell, NoMemory, Rows};
use std::alloc::Global;
use std::marker::Model;

// Contracts see it as a record of its number and its lists.
#[derive(Drop)]
pub struct PartRows {
    part: u64,
    lists: Vec<Rows>,
}

impl Model for PartRows {
    ghost use Rattle.load_build.specs.PartLists.{PartLists};

    ghost Value = { PartLists };

    ghost view = { λ p. record { part = p.part; lists = p.lists.items } };
}

impl PartRows {
    // The partition of that number without a row.
    pub fn new(alloc: Global, part: u64) -> PartRows
        ensures { result ≡ no_lists part }
    {
        PartRows {
            part,
            lists: Vec::new(alloc),
        }
    }

    // Gives each bucket a list, where they have none.
    fn open(&mut self, alloc: Global, buckets: u32) -> Result<(), NoMemory>
        ensures { OnOk result (self.new ≡ opened buckets self.old) }
    {
        if self.lists.is_empty() {
            self.lists = lists_without_rows(alloc, buckets)?;
        }
        Ok(())
    }

    // Adds a copy of a row to its bucket.
    pub fn add(
        &mut self,
        alloc: Global,
        buckets: u32,
        bucket: usize,
        row: &[Cell],
    ) -> Result<(), NoMemory>
        ensures { OnOk result (self.new ≡ with_row buckets bucket row.now self.old) }
    {
        self.open(alloc, buckets)?;
        match self.lists.get_mut(bucket) {
            None => Ok(()),
            Some(list) => list.push_copy(alloc, row),
        }
    }

    // Its number.
    pub fn part(&self) -> u64
        ensures { result ≡ self.now.part }
    {
        self.part
    }

    // The rows by bucket.
    pub fn into_lists(self) -> Vec<Rows>
        ensures { result.items ≡ self.lists }
    {
        self.lists
    }
}

// A list without rows for each bucket.
#[tactic(auto, using(crate::proofs::Ranges::empty_more))]
fn lists_without_rows(alloc: Global, buckets: u32) -> Result<Vec<Rows>, NoMemory>
    ensures { IfOk result (λ lists. lists.items ≡ empty_lists buckets) }
{
    let mut lists = Vec::new(alloc);
    for _ in 0..buckets {
        lists.push(Rows::new(alloc))?;
    }
    Ok(lists)
}
