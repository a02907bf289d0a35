//! The places of the keys of a large mapping.

ghost use Rattle.std.specs.Prelude.{◌≡◌, ◌≤◌, ℕ, List, None, Some, false, IfOk, OnOk};
ghost use Rattle.std.specs.Str.{bytes_eq};
ghost use Rattle.bosh_yaml.specs.Places.{place_in, place_of};

use crate::hash::hash_of;
use std::alloc::{AllocError, Global};
use std::collections::BTreeMap;

/// How many keys at a mapping's front have no place noted: to look at so few takes no longer than to look for a place.
pub(crate) const FEW: usize = 8;

/// The place of each key of a mapping but the first few. While there are no more it takes no memory.
#[derive(Drop)]
pub(crate) struct Places {
    noted: Option<Box<Noted>>,
}

// The places that are noted for the hashes of keys. Where an earlier key has the same, a place is noted for the key itself.
#[derive(Drop)]
struct Noted {
    by_hash: BTreeMap<u64, usize>,
    by_key: BTreeMap<Vec<u8>, usize>,
}

impl Places {
    pub(crate) fn new() -> Places {
        Places { noted: None }
    }

    /// Notes the place of a key, unless it is one of the first few.
    pub(crate) fn note(&mut self, alloc: Global, key: &[u8], place: usize) -> Result<(), AllocError>
        ensures noted { OnOk result (8 ≤ place → place_in self.new key.now ≡ Some place) }
        ensures others { (other : List ℕ) (at : ℕ) → bytes_eq key.now other ≡ false
            → place_in self.old other ≡ Some at → place_in self.new other ≡ Some at }
    {
        if place < FEW {
            return Ok(());
        }
        match &mut self.noted {
            Some(noted) => noted.note(alloc, key, place),
            None => {
                self.noted = Some(first_noted(alloc, key, place)?);
                Ok(())
            }
        }
    }

    /// The place that is noted for a key, or for another of the same hash.
    pub(crate) fn of(&self, key: &[u8]) -> Option<usize>
        ensures { result ≡ place_in self.now key.now }
    {
        match &self.noted {
            Some(noted) => noted.of(key),
            None => None,
        }
    }
}

// The place of one key.
fn first_noted(alloc: Global, key: &[u8], place: usize) -> Result<Box<Noted>, AllocError>
    ensures { IfOk result (λ noted. place_of noted.value key.now ≡ Some place) }
{
    let mut noted = Noted {
        by_hash: BTreeMap::new(alloc),
        by_key: BTreeMap::new(alloc),
    };
    noted.by_hash.insert(hash_of(key), place)?;
    Ok(Box::new(alloc, noted)?)
}

impl Noted {
    fn note(&mut self, alloc: Global, key: &[u8], place: usize) -> Result<(), AllocError>
        ensures noted { OnOk result (place_of self.new key.now ≡ Some place) }
        ensures others { (other : List ℕ) (at : ℕ) → bytes_eq key.now other ≡ false
            → place_of self.old other ≡ Some at → place_of self.new other ≡ Some at }
    {
        let hash = hash_of(key);
        if self.by_hash.contains_key(&hash) || self.by_key.contains_key(key) {
            self.note_key(alloc, key, place)
        } else {
            self.by_hash.insert(hash, place)?;
            Ok(())
        }
    }

    // Notes the place of a key for the key itself.
    fn note_key(&mut self, alloc: Global, key: &[u8], place: usize) -> Result<(), AllocError>
        ensures noted { OnOk result (place_of self.new key.now ≡ Some place) }
        ensures others { (other : List ℕ) → bytes_eq key.now other ≡ false → place_of self.new other ≡ place_of self.old other }
    {
        let key = Vec::from_slice(alloc, key)?;
        self.by_key.insert(key, place)?;
        Ok(())
    }

    fn of(&self, key: &[u8]) -> Option<usize>
        ensures { result ≡ place_of self.now key.now }
    {
        match self.by_key.get(key) {
            Some(place) => Some(*place),
            None => self.by_hash.get(&hash_of(key)).copied(),
        }
    }
}
