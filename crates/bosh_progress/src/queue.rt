ghost use Rattle.std.specs.Prelude.{◌≡◌, ◌==◌, [], replicate, slice_index_or, slice_set, false, true};
ghost use Rattle.std.specs.Prelude.{if◌then◌else◌, IfOk};
ghost use Rattle.bosh_progress.specs.Tree.{first_marked, marked_in};

use crate::PlaceSet;
use std::alloc::{AllocError, Global};

/// Items in order by their places, counted from 0. Each is left until it is finished, and while somebody works on it, it
/// is not free. No call takes memory but the first, and each the logarithm of how many items there are.
#[derive(Drop)]
pub struct Queue {
    /// Those that are not finished.
    pub left: PlaceSet,
    /// Those of them that nobody works on.
    pub free: PlaceSet,
}

impl Queue {
    /// No items.
    pub fn empty() -> Queue
        ensures left { result.left ≡ [] }
        ensures free { result.free ≡ [] }
    {
        Queue {
            left: PlaceSet::empty(),
            free: PlaceSet::empty(),
        }
    }

    /// As many items, of which each is left and free.
    pub fn full(alloc: Global, len: usize) -> Result<Queue, AllocError>
        ensures left { IfOk result (λ queue. queue.left ≡ replicate len true) }
        ensures free { IfOk result (λ queue. queue.free ≡ replicate len true) }
    {
        let left = PlaceSet::marked(alloc, len)?;
        let free = PlaceSet::marked(alloc, len)?;
        Ok(Queue { left, free })
    }

    /// Somebody works on an item.
    pub fn take(&mut self, place: usize)
        ensures left { self.new.left ≡ self.old.left }
        ensures free { self.new.free ≡ slice_set self.old.free place false }
    {
        self.free.unmark(place);
    }

    /// Nobody does any more: it is free again, where it is left.
    pub fn give(&mut self, place: usize)
        ensures left { self.new.left ≡ self.old.left }
        ensures free { self.new.free
            ≡ (if slice_index_or self.old.left place false then slice_set self.old.free place true else self.old.free) }
    {
        if self.left.is_marked(place) {
            self.free.mark(place);
        }
    }

    /// An item is finished.
    pub fn finish(&mut self, place: usize)
        ensures left { self.new.left ≡ slice_set self.old.left place false }
        ensures free { self.new.free ≡ slice_set self.old.free place false }
    {
        self.left.unmark(place);
        self.free.unmark(place);
    }

    pub fn is_left(&self, place: usize) -> bool
        ensures { result ≡ slice_index_or self.now.left place false }
    {
        self.left.is_marked(place)
    }

    /// Whether every item is finished.
    pub fn is_over(&self) -> bool
        ensures { result ≡ (marked_in self.now.left == 0) }
    {
        self.left.count() == 0
    }

    /// The first item that is free.
    pub fn first(&self) -> Option<usize>
        ensures { result ≡ first_marked self.now.free }
    {
        self.free.first()
    }
}
