ghost use Rattle.std.specs.Prelude.{◌≡◌, [], length, replicate, slice_index_or, slice_set, true, false, IfOk};
ghost use Rattle.bosh_progress.specs.Tree.{first_marked, marked_in};

use crate::tree::Tree;
use std::alloc::{AllocError, Global};
use std::marker::Model;

/// Which places of a list are marked, counted from 0. It is seen as a truth for each place.
#[derive(Drop)]
pub struct PlaceSet {
    tree: Tree,
}

impl Model for PlaceSet {
    ghost use Rattle.std.specs.Prelude.{Bool, List};
    ghost use Rattle.bosh_progress.specs.Tree.{IsWell, marks};

    ghost Value = { List Bool };

    ghost view = { λ set. marks set.tree };

    ghost invariant = { λ set. IsWell set.tree };
}

impl PlaceSet {
    /// No place.
    pub fn empty() -> PlaceSet
        ensures { result ≡ [] }
    {
        PlaceSet { tree: Tree::Empty }
    }

    /// As many places, none of which is marked.
    pub fn unmarked(alloc: Global, len: usize) -> Result<PlaceSet, AllocError>
        ensures { IfOk result (λ set. set ≡ replicate len false) }
    {
        Ok(PlaceSet {
            tree: Tree::filled(alloc, len, false)?,
        })
    }

    /// As many places, each of which is marked.
    pub fn marked(alloc: Global, len: usize) -> Result<PlaceSet, AllocError>
        ensures { IfOk result (λ set. set ≡ replicate len true) }
    {
        Ok(PlaceSet {
            tree: Tree::filled(alloc, len, true)?,
        })
    }

    /// How many places there are.
    pub fn len(&self) -> usize
        ensures { result ≡ length self.now }
    {
        self.tree.len()
    }

    /// How many places are marked.
    pub fn count(&self) -> usize
        ensures { result ≡ marked_in self.now }
    {
        self.tree.marked()
    }

    /// Marks a place; one past the last stays out. It takes no memory, and the logarithm of how many places there are.
    pub fn mark(&mut self, place: usize)
        ensures { self.new ≡ slice_set self.old place true }
    {
        self.set(place, true);
    }

    /// Takes the mark of a place away, at the cost of `mark`.
    pub fn unmark(&mut self, place: usize)
        ensures { self.new ≡ slice_set self.old place false }
    {
        self.set(place, false);
    }

    #[tactic(auto, using(crate::proofs::Marks::none_past))]
    fn set(&mut self, place: usize, mark: bool)
        ensures { self.new ≡ slice_set self.old place mark }
    {
        if place < self.tree.len() {
            self.tree.set(place, mark);
        }
    }

    /// Whether a place is marked; one past the last is not.
    pub fn is_marked(&self, place: usize) -> bool
        ensures { result ≡ slice_index_or self.now place false }
    {
        place < self.tree.len() && self.tree.has(place)
    }

    /// The first place that is marked, at the cost of `mark`.
    pub fn first(&self) -> Option<usize>
        ensures { result ≡ first_marked self.now }
    {
        self.tree.first()
    }
}
