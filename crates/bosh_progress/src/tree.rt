ghost use Rattle.std.specs.Prelude.{◌≡◌, ◌<◌, ◌+◌, ◌^◌, ◌++◌, length, replicate, slice_get, slice_set, IfOk, Some};
ghost use Rattle.bosh_progress.specs.Tree.{IsWell, first_marked, marked_in, marks};

use std::alloc::{AllocError, Global};

/// Marks of places in order, halved again and again, with the number of those that are marked at each fork.
#[derive(Drop)]
pub(crate) enum Tree {
    Empty,
    Leaf(bool),
    // How many places there are, and how many are marked.
    Fork(usize, usize, Box<Tree>, Box<Tree>),
}

impl Tree {
    /// As many places, of which all are marked or none.
    #[tactic(auto, using(crate::proofs::Marks::halves))]
    pub(crate) fn filled(alloc: Global, len: usize, mark: bool) -> Result<Tree, AllocError>
        ensures { IfOk result (λ tree. IsWell tree × (marks tree ≡ replicate len mark)) }
    {
        if len == 0 {
            return Ok(Tree::Empty);
        }
        if len == 1 {
            return Ok(Tree::Leaf(mark));
        }
        let half = len / 2;
        let first = boxed(alloc, Tree::filled(alloc, half, mark)?)?;
        let second = boxed(alloc, Tree::filled(alloc, len - half, mark)?)?;
        Ok(fork(first, second))
    }

    pub(crate) fn len(&self) -> usize
        requires { IsWell self.now }
        ensures { result ≡ length (marks self.now) }
    {
        match self {
            Tree::Empty => 0,
            Tree::Leaf(_) => 1,
            Tree::Fork(len, ..) => *len,
        }
    }

    pub(crate) fn marked(&self) -> usize
        requires { IsWell self.now }
        ensures { result ≡ marked_in (marks self.now) }
    {
        match self {
            Tree::Empty => 0,
            Tree::Leaf(mark) => *mark as usize,
            Tree::Fork(_, marked, ..) => *marked,
        }
    }

    #[tactic(auto, using(crate::proofs::Marks::set_first, crate::proofs::Marks::set_second, crate::proofs::Marks::as_long))]
    pub(crate) fn set(&mut self, place: usize, mark: bool)
        requires well { IsWell self.old }
        requires place { place < length (marks self.old) }
        ensures well { IsWell self.new }
        ensures marks { marks self.new ≡ slice_set (marks self.old) place mark }
    {
        match self {
            Tree::Empty => {}
            Tree::Leaf(it) => *it = mark,
            Tree::Fork(len, marked, first, second) => {
                // A number that is looked at lets the prover know that it fits.
                let _room = *len;
                let half = first.len();
                if place < half {
                    first.set(place, mark);
                    *marked = marked_in_both(first, second);
                } else {
                    second.set(place - half, mark);
                    *marked = marked_in_both(first, second);
                }
            }
        }
    }

    pub(crate) fn has(&self, place: usize) -> bool
        requires well { IsWell self.now }
        requires place { place < length (marks self.now) }
        ensures { slice_get (marks self.now) place ≡ Some result }
    {
        match self {
            Tree::Empty => false,
            Tree::Leaf(mark) => *mark,
            Tree::Fork(_, _, first, second) => {
                let half = first.len();
                if place < half {
                    first.has(place)
                } else {
                    second.has(place - half)
                }
            }
        }
    }

    #[tactic(auto, using(crate::proofs::Marks::found_first, crate::proofs::Marks::found_second, crate::proofs::Marks::found_in))]
    pub(crate) fn first(&self) -> Option<usize>
        requires { IsWell self.now }
        ensures { result ≡ first_marked (marks self.now) }
    {
        match self {
            Tree::Empty => None,
            Tree::Leaf(mark) => mark.then_some(0),
            Tree::Fork(len, _, first, second) => {
                let _room = *len;
                if first.marked() > 0 {
                    return first.first();
                }
                match second.first() {
                    Some(place) => Some(first.len() + place),
                    None => None,
                }
            }
        }
    }
}

fn boxed(alloc: Global, tree: Tree) -> Result<Box<Tree>, AllocError>
    ensures { IfOk result (λ it. it.value ≡ tree) }
{
    Ok(Box::new(alloc, tree)?)
}

// How many are marked in two trees that have room beside one another.
#[tactic(auto, using(crate::proofs::Marks::counts_fit))]
fn marked_in_both(first: &Tree, second: &Tree) -> usize
    requires first { IsWell first.now }
    requires second { IsWell second.now }
    requires room { length (marks first.now) + length (marks second.now) < 2 ^ 64 }
    ensures { result ≡ marked_in (marks first.now) + marked_in (marks second.now) }
{
    first.marked() + second.marked()
}

fn fork(first: Box<Tree>, second: Box<Tree>) -> Tree
    requires first { IsWell first.value }
    requires second { IsWell second.value }
    requires room { length (marks first.value) + length (marks second.value) < 2 ^ 64 }
    ensures well { IsWell result }
    ensures marks { marks result ≡ marks first.value ++ marks second.value }
{
    let len = first.len() + second.len();
    let marked = marked_in_both(&first, &second);
    Tree::Fork(len, marked, first, second)
}
