// A list of byte strings.
ghost use Rattle.std.specs.Prelude.{◌≡◌, ◌≤◌, ◌<◌, ◌==◌, ◌++◌, [], ◌∷◌, length, set, slice_get};
ghost use Rattle.std.specs.Prelude.{Some, MatchOption, OnOk, IfOk, IfErr};
ghost use Rattle.std.specs.Slice.Iter.{iter_rest};
ghost use Rattle.bosh_ports.specs.Contents.{contents};

use crate::contents::copy_of;
use std::alloc::{AllocError, Global};
use std::marker::Model;
use std::slice::Iter;

/// A list of byte strings, seen as the bytes of each.
#[derive(Drop)]
pub struct ByteStrings {
    items: Vec<Vec<u8>>,
}

/// The bodies that a keeper keeps, in their order.
pub type Bodies = ByteStrings;

/// The paths that a shelf lists.
pub type Paths = ByteStrings;

impl Model for ByteStrings {
    ghost use Rattle.std.specs.Prelude.{List, ℕ};
    ghost use Rattle.bosh_ports.specs.Contents.{contents};

    ghost Value = { List (List ℕ) };

    ghost view = { λ list. contents list.items.items };
}

impl ByteStrings {
    pub fn new(alloc: Global) -> ByteStrings
        ensures { result ≡ [] }
    {
        ByteStrings {
            items: Vec::new(alloc),
        }
    }

    pub fn len(&self) -> usize
        ensures { result ≡ length self.now }
    {
        self.items.len()
    }

    pub fn is_empty(&self) -> bool
        ensures { result ≡ (length self.now == 0) }
    {
        self.items.is_empty()
    }

    /// The byte string at a place, counted from 0, or none past the end.
    pub fn get(&self, k: usize) -> Option<&Vec<u8>>
        ensures { MatchOption result (length self.now ≤ k) (λ item. slice_get self.now k ≡ Some item.now.items) }
    {
        self.items.get(k)
    }

    /// Puts a byte string at the end, or gives it back for want of memory.
    pub fn push(&mut self, item: Vec<u8>) -> Result<(), Vec<u8>>
        ensures ok { OnOk result (self.new ≡ self.old ++ item.items ∷ []) }
        ensures given_back { IfErr result (λ back. (back ≡ item) × (self.new ≡ self.old)) }
    {
        match self.items.push(item) {
            Ok(()) => Ok(()),
            Err(refused) => Err(refused.value),
        }
    }

    /// Puts another byte string in the place of one.
    pub(crate) fn put(&mut self, k: usize, item: Vec<u8>)
        requires { k < length self.old }
        ensures { self.new ≡ set self.old k item.items }
    {
        self.items[k] = item;
    }

    pub fn as_slice(&self) -> &[Vec<u8>]
        ensures { contents result.now ≡ self.now }
    {
        self.items.as_slice()
    }

    pub fn iter(&self) -> Iter<'_, Vec<u8>>
        ensures { contents (iter_rest result) ≡ self.now }
    {
        self.items.iter()
    }

    pub fn copy(&self, alloc: Global) -> Result<ByteStrings, AllocError>
        ensures { IfOk result (λ copy. copy ≡ self.now) }
    {
        Ok(ByteStrings {
            items: copy_of(alloc, &self.items)?,
        })
    }
}
