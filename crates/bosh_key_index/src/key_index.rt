ghost use Rattle.std.specs.Prelude.{◌≡◌, ℕ, [], OnErr, OnOk};
ghost use Rattle.bosh_key_index.specs.Listed.{Adds, IsFirstFrom, IsLeast, Removes};

use std::alloc::{AllocError, Global};
use std::collections::BTreeSet;
use std::marker::Model;

/// Which numbers stand under which keys. A call takes the logarithm of how many there are. It is seen as the pairs of a
/// key and a number, in order.
#[derive(Drop)]
pub struct KeyIndex {
    pairs: BTreeSet<(u64, u64)>,
}

impl Model for KeyIndex {
    ghost use Rattle.std.specs.Prelude.{ℕ, List};

    ghost Value = { List (ℕ × ℕ) };

    ghost view = { λ index. index.pairs.keys };
}

impl KeyIndex {
    /// No number stands under any key.
    pub fn new(alloc: Global) -> KeyIndex
        ensures { result ≡ [] }
    {
        KeyIndex {
            pairs: BTreeSet::new(alloc),
        }
    }

    /// Puts a number under a key. Where there is no memory for it nothing changes.
    pub fn add(&mut self, key: u64, number: u64) -> Result<(), AllocError>
        ensures ok { OnOk result (Adds self.old key number self.new) }
        ensures memory { OnErr result (self.new ≡ self.old) }
    {
        self.pairs.insert((key, number))?;
        Ok(())
    }

    /// Takes a number away from under a key. It takes no memory.
    pub fn remove(&mut self, key: u64, number: u64)
        ensures { Removes self.old key number self.new }
    {
        self.pairs.remove(&(key, number));
    }

    /// The least number under a key.
    pub fn least(&self, key: u64) -> Option<u64>
        ensures { IsLeast self.now key result }
    {
        match self.first_from(key) {
            Some((other, number)) if other == key => Some(number),
            _ => None,
        }
    }

    /// The first pair of a key or of a greater one.
    fn first_from(&self, key: u64) -> Option<(u64, u64)>
        ensures { IsFirstFrom self.now key result }
    {
        self.pairs.range((key, 0)..).next().copied()
    }
}
