ghost use Rattle.std.specs.Prelude.{◌≡◌, ◌==◌, ◌&&◌, [], replicate, slice_index_or, slice_set, false, true};
ghost use Rattle.std.specs.Prelude.{if◌then◌else◌, IfOk};
ghost use Rattle.bosh_progress.specs.Rolling.{are_past, first_claimable, is_allowed, is_none_below, least};
ghost use Rattle.bosh_progress.specs.Tree.{first_marked, marked_in};

use crate::PlaceSet;
use std::alloc::{AllocError, Global};

/// How far the updates of a group have come: places of its changed instances in order, counted from 0, of which the
/// first are the canaries (bosh.io, "Deployment manifest", "update"). No call takes memory but the first, and each the
/// logarithm of how many instances there are.
#[derive(Drop)]
pub struct Rolling {
    pub canaries: usize,
    /// How many are updated at the same time, canaries too.
    pub limit: usize,
    /// Those whose update has not begun.
    pub waiting: PlaceSet,
    /// Those whose update began and is not done.
    pub busy: PlaceSet,
    /// Those of the busy ones that nobody works on now.
    pub idle: PlaceSet,
}

impl Rolling {
    /// No instances.
    pub fn empty() -> Rolling
        ensures { result ≡ record { canaries = 0; limit = 0; waiting = []; busy = []; idle = [] } }
    {
        Rolling {
            canaries: 0,
            limit: 0,
            waiting: PlaceSet::empty(),
            busy: PlaceSet::empty(),
            idle: PlaceSet::empty(),
        }
    }

    /// As many changed instances, none of which has begun.
    pub fn new(
        alloc: Global,
        canaries: usize,
        limit: usize,
        len: usize,
    ) -> Result<Rolling, AllocError>
        ensures canaries { IfOk result (λ it. it.canaries ≡ canaries) }
        ensures limit { IfOk result (λ it. it.limit ≡ limit) }
        ensures waiting { IfOk result (λ it. it.waiting ≡ replicate len true) }
        ensures busy { IfOk result (λ it. it.busy ≡ replicate len false) }
        ensures idle { IfOk result (λ it. it.idle ≡ replicate len false) }
    {
        let waiting = PlaceSet::marked(alloc, len)?;
        let busy = PlaceSet::unmarked(alloc, len)?;
        let idle = PlaceSet::unmarked(alloc, len)?;
        Ok(Rolling {
            canaries,
            limit,
            waiting,
            busy,
            idle,
        })
    }

    /// The update of an instance begins.
    pub fn begin(&mut self, place: usize)
        ensures waiting { self.new.waiting ≡ slice_set self.old.waiting place false }
        ensures busy { self.new.busy ≡ slice_set self.old.busy place true }
        ensures idle { self.new.idle ≡ slice_set self.old.idle place true }
        ensures canaries { self.new.canaries ≡ self.old.canaries }
        ensures limit { self.new.limit ≡ self.old.limit }
    {
        self.waiting.unmark(place);
        self.busy.mark(place);
        self.idle.mark(place);
    }

    /// The update of an instance is done.
    pub fn finish(&mut self, place: usize)
        ensures waiting { self.new.waiting ≡ slice_set self.old.waiting place false }
        ensures busy { self.new.busy ≡ slice_set self.old.busy place false }
        ensures idle { self.new.idle ≡ slice_set self.old.idle place false }
        ensures canaries { self.new.canaries ≡ self.old.canaries }
        ensures limit { self.new.limit ≡ self.old.limit }
    {
        self.waiting.unmark(place);
        self.busy.unmark(place);
        self.idle.unmark(place);
    }

    /// Somebody works on an instance.
    pub fn take(&mut self, place: usize)
        ensures waiting { self.new.waiting ≡ self.old.waiting }
        ensures busy { self.new.busy ≡ self.old.busy }
        ensures idle { self.new.idle ≡ slice_set self.old.idle place false }
        ensures canaries { self.new.canaries ≡ self.old.canaries }
        ensures limit { self.new.limit ≡ self.old.limit }
    {
        self.idle.unmark(place);
    }

    /// Nobody does any more: it is idle again, where it is busy.
    pub fn give(&mut self, place: usize)
        ensures waiting { self.new.waiting ≡ self.old.waiting }
        ensures busy { self.new.busy ≡ self.old.busy }
        ensures idle { self.new.idle
            ≡ (if slice_index_or self.old.busy place false then slice_set self.old.idle place true else self.old.idle) }
        ensures canaries { self.new.canaries ≡ self.old.canaries }
        ensures limit { self.new.limit ≡ self.old.limit }
    {
        if self.busy.is_marked(place) {
            self.idle.mark(place);
        }
    }

    pub fn is_waiting(&self, place: usize) -> bool
        ensures { result ≡ slice_index_or self.now.waiting place false }
    {
        self.waiting.is_marked(place)
    }

    pub fn is_busy(&self, place: usize) -> bool
        ensures { result ≡ slice_index_or self.now.busy place false }
    {
        self.busy.is_marked(place)
    }

    /// Whether every update is done.
    pub fn is_over(&self) -> bool
        ensures { result ≡ (marked_in self.now.waiting == 0 && marked_in self.now.busy == 0) }
    {
        self.waiting.count() == 0 && self.busy.count() == 0
    }

    /// Whether every canary is done.
    pub fn are_canaries_done(&self) -> bool
        ensures { result ≡ (are_past self.now.canaries self.now.waiting && are_past self.now.canaries self.now.busy) }
    {
        is_past(self.canaries, self.waiting.first()) && is_past(self.canaries, self.busy.first())
    }

    /// Whether one more update is within the limit, and the instance is a canary or every canary is done.
    pub fn is_allowed(&self, place: usize) -> bool
        ensures { result ≡ is_allowed self.now place }
    {
        self.busy.count() < self.limit && (place < self.canaries || self.are_canaries_done())
    }

    /// The first instance that may be worked on now: one that is idle, or the first that waits, where its update is
    /// allowed.
    pub fn first(&self) -> Option<usize>
        ensures { result ≡ first_claimable self.now }
    {
        let next = self.waiting.first().filter(|place| self.is_allowed(*place));
        least(self.idle.first(), next)
    }
}

fn is_past(count: usize, first: Option<usize>) -> bool
    ensures { result ≡ is_none_below count first }
{
    match first {
        Some(place) => count <= place,
        None => true,
    }
}

/// The lesser of two places, where there are two.
pub fn least(one: Option<usize>, other: Option<usize>) -> Option<usize>
    ensures { result ≡ least one other }
{
    match (one, other) {
        (Some(one), Some(other)) => Some(one.min(other)),
        (Some(one), None) => Some(one),
        (None, other) => other,
    }
}
