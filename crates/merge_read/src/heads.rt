// The heads of the lists but one, of which the first by key and age comes off first.
ghost use Rattle.std.specs.Prelude.{◌≡◌, ◌<◌, ◌≤◌, ◌∷◌, [], length, IfNone, IfOk, IfSome, IsTrue};
ghost use Rattle.std.specs.BinaryHeap.{IsUpperBound};
ghost use Rattle.std.specs.List.Sorted.{IsPermutation};
ghost use Rattle.merge_read.specs.HeadOrder.{head_cmp};

use crate::head::Head;
use dl_values::NoMemory;
use std::alloc::Global;
use std::collections::BinaryHeap;
use std::marker::Model;

// A heap of heads with room for one of each list, which contracts see as the heads in some order, and the room.
#[derive(Drop)]
pub struct Heads<'a> {
    heap: BinaryHeap<Head<'a>>,
}

impl<'a> Model for Heads<'a> {
    ghost use Rattle.std.specs.BinaryHeap.{IsHeap, heap_capacity, heap_items};
    ghost use Rattle.merge_read.specs.HeadOrder.{head_cmp};
    ghost use Rattle.merge_read.specs.HeadsView.{HeadsView};

    ghost Value = { HeadsView };

    ghost view = { λ h. record { items = heap_items h.heap; room = heap_capacity h.heap } };

    ghost invariant = { λ h. IsHeap head_cmp (heap_items h.heap) };
}

impl<'a> Heads<'a> {
    // No heads, with room for this many.
    pub fn with_room(alloc: Global, room: usize) -> Result<Heads<'a>, NoMemory>
        ensures empty { IfOk result (λ h. h.items ≡ []) }
        ensures room { IfOk result (λ h. room ≤ h.room) }
    {
        let heap = BinaryHeap::with_capacity(alloc, room)?;
        Ok(Heads { heap })
    }

    // One more head.
    pub fn put(&mut self, head: Head<'a>)
        requires { length self.old.items < self.old.room }
        ensures moved { IsPermutation (head.entry ∷ self.old.items) self.new.items }
        ensures room { self.old.room ≤ self.new.room }
    {
        match self.heap.push(head) {
            Ok(()) => {}
            Err(_) => unreachable!(),
        }
    }

    // The first head, taken off.
    pub fn take(&mut self) -> Option<Head<'a>>
        ensures none { IfNone result (self.old.items ≡ []) }
        ensures kept { IfNone result (self.new.items ≡ []) }
        ensures moved { IfSome result (λ x. IsPermutation self.old.items (x ∷ self.new.items)) }
        ensures first { IfSome result (λ x. IsUpperBound head_cmp x self.new.items) }
        ensures room { self.new.room ≡ self.old.room }
    {
        self.heap.pop()
    }

    // Whether no head of these comes before a head.
    fn is_first(&self, head: &Head<'a>) -> bool
        ensures { IsTrue result → IsUpperBound head_cmp head.now self.now.items }
    {
        match self.heap.peek() {
            None => true,
            Some(best) => !(*best > *head),
        }
    }

    // The first of a head and these, of which the others stay. It stands in its caller, so that a head which is first is not moved
    // through memory.
    #[inline(always)]
    pub fn first_of(&mut self, head: Head<'a>) -> Head<'a>
        requires { length self.old.items < self.old.room }
        ensures moved { IsPermutation (head.entry ∷ self.old.items) (result ∷ self.new.items) }
        ensures first { IsUpperBound head_cmp result self.new.items }
        ensures room { self.old.room ≤ self.new.room }
    {
        if self.is_first(&head) {
            return head;
        }
        self.put(head);
        match self.take() {
            Some(first) => first,
            None => unreachable!(),
        }
    }
}
