ghost use Rattle.std.specs.Prelude.{◌≡◌, ◌↔◌, [], ◌∷◌, ◌++◌, ◌<◌, length, slice_get, slice_set, IsTrue, OnOk, OnErr, IfErr};
ghost use Rattle.std.specs.Option.{option_copied};
ghost use Rattle.std.specs.Slice.Iter.{iter_rest};

use crate::{CopyFault, Copyable};
use std::alloc::Global;
use std::cmp::Ordering;
use std::marker::Model;
use std::{mem, slice};

/// A list of items.
#[derive(Debug, Drop)]
pub struct Seq<T> {
    items: Vec<T>,
}

/// A list of bytes. Most texts are UTF-8, but nothing rests on it.
pub type Text = Seq<u8>;

impl<T> Model for Seq<T> {
    ghost use Rattle.std.specs.Prelude.{List};

    ghost Value = { List T };

    ghost view = { λ list. list.items.items };
}

impl<T> Seq<T> {
    /// The empty list.
    pub fn new(alloc: Global) -> Self
        ensures { result ≡ [] }
    {
        Seq {
            items: Vec::new(alloc),
        }
    }

    pub fn len(&self) -> usize
        ensures { result ≡ length self.now }
    {
        self.items.len()
    }

    pub fn is_empty(&self) -> bool
        ensures { IsTrue result ↔ (self.now ≡ []) }
    {
        self.items.is_empty()
    }

    /// The item at a place, counted from 0.
    pub fn get(&self, k: usize) -> Option<&T>
        ensures { option_copied result ≡ slice_get self.now k }
    {
        self.items.get(k)
    }

    /// Adds an item at the end. It comes back where there is no memory for it.
    pub fn push(&mut self, item: T) -> Result<(), T>
        ensures ok { OnOk result (self.new ≡ self.old ++ item ∷ []) }
        ensures given_back { IfErr result (λ back. back ≡ item) }
        ensures err { OnErr result (self.new ≡ self.old) }
    {
        match self.items.push(item) {
            Ok(()) => Ok(()),
            Err(failed) => Err(failed.value),
        }
    }

    /// Puts an item in the place of another, and gives that one back. Places are counted from 0.
    pub fn set(&mut self, place: usize, item: T) -> T
        requires { place < length self.old }
        ensures set { self.new ≡ slice_set self.old place item }
        ensures given_back { slice_get self.old place ≡ Some result }
    {
        mem::replace(&mut self.items[place], item)
    }

    pub fn as_slice(&self) -> &[T]
        ensures { result.now ≡ self.now }
    {
        self.items.as_slice()
    }

    pub fn iter(&self) -> slice::Iter<'_, T>
        ensures { iter_rest result ≡ self.now }
    {
        self.items.iter()
    }
}

impl<T> From<Vec<T>> for Seq<T> {
    ghost from_gives = { λ items list. list ≡ items.items };

    fn from(items: Vec<T>) -> Self {
        Seq { items }
    }
}

impl<'a, T> IntoIterator for &'a Seq<T> {
    type Item = &'a T;

    type IntoIter = slice::Iter<'a, T>;

    ghost into_iter_gives = { λ list it. iter_rest it ≡ list.now };

    fn into_iter(self) -> Self::IntoIter {
        self.iter()
    }
}

// Dear to prove, since the copy made so far is alive at each turn; proved once, for lists of any type.
impl<T: Copyable> Copyable for Seq<T> {
    fn copy(&self, alloc: Global) -> Result<Self, CopyFault> {
        let mut items = Vec::with_capacity(alloc, self.items.len())?;
        for item in self.items.iter() {
            items.push(item.copy(alloc)?)?;
        }
        Ok(Seq { items })
    }
}

impl<T: PartialEq> PartialEq for Seq<T> {
    ghost use Rattle.std.specs.Cmp.Lexicographic.{pointwise, lists_per};

    ghost eq = { pointwise T.eq };

    ghost laws = { lists_per T.laws };

    fn eq(&self, other: &Self) -> bool {
        self.items.as_slice() == other.items.as_slice()
    }
}

impl<T: Eq> Eq for Seq<T> {
    ghost use Rattle.std.specs.Cmp.Lexicographic.{lists_equiv};

    ghost laws = { lists_equiv T.Eq.laws };
}

impl<T: PartialOrd> PartialOrd for Seq<T> {
    ghost use Rattle.std.specs.Cmp.Lexicographic.{slice_partial_cmp, lists_po};

    ghost partial_cmp = { slice_partial_cmp T.partial_cmp };

    ghost laws = { lists_po T.PartialOrd.laws };

    fn partial_cmp(&self, other: &Self) -> Option<Ordering> {
        self.items.partial_cmp(&other.items)
    }
}

/// The first items that differ decide, and else the lengths do.
impl<T: Ord> Ord for Seq<T> {
    ghost use Rattle.std.specs.Cmp.Lexicographic.{slice_cmp, lists_agrees, lists_total, lists_ties};

    ghost cmp = { slice_cmp T.cmp };

    ghost total = { lists_total T.total };

    ghost matches_partial_cmp = { lists_agrees T.matches_partial_cmp };

    ghost matches_eq = { lists_ties T.cmp T.matches_eq };

    fn cmp(&self, other: &Self) -> Ordering {
        self.items.cmp(&other.items)
    }
}
