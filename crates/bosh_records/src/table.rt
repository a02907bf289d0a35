ghost use Rattle.std.specs.Prelude.{◌≡◌, [], None, Option, Some, IfSome, OnErr, OnOk, false, is_some};
ghost use Rattle.std.specs.BTreeMap.{IsOrdered, IsUnchanged, Updates, btree_map_len, get, insert_entry};
ghost use Rattle.std.specs.Map.Iter.{ShowsInOrder, deref_pair};
ghost use Rattle.std.specs.Option.{option_copied};
ghost use Rattle.std.specs.Ordering.{nat_cmp};
ghost use Rattle.bosh_records.specs.Recorded.{taken_places};
ghost use Rattle.bosh_records.specs.Table.{is_past, next_after, put_at, thing_at, with_room, without};

use crate::RecordsFault;
use std::alloc::Global;
use std::collections::BTreeMap;
use std::collections::btree_map::Iter;

/// Things by their keys. A place may be kept free, so that a thing can be put there later without memory.
#[derive(Drop)]
pub struct Table<K: Ord, V> {
    pub places: BTreeMap<K, Option<V>>,
}

impl<K: Ord, V> Table<K, V> {
    pub fn new(alloc: Global) -> Self
        ensures { result.places.entries ≡ [] }
    {
        Table {
            places: BTreeMap::new(alloc),
        }
    }

    /// How many places there are, free ones too.
    pub fn len(&self) -> usize
        ensures { result ≡ btree_map_len self.now.places }
    {
        self.places.len()
    }

    /// The places in the order of their keys; some are free.
    pub fn iter(&self) -> Iter<'_, K, Option<V>>
        ensures rest { result ≡ self.now.places.entries }
        ensures runs { ShowsInOrder (deref_pair {K = K} {X = Option V}) }
        ensures ordered { IsOrdered K.cmp self.now.places }
    {
        self.places.iter()
    }
}

impl<K: Ord + Drop, V: Drop> Table<K, V> {
    pub fn get(&self, key: &K) -> Option<&V>
        ensures { option_copied result ≡ thing_at K.cmp self.now.places key.now }
    {
        self.places.get(key)?.as_ref()
    }

    /// Whether there is a place for a key, free or not.
    pub fn has_place(&self, key: &K) -> bool
        ensures { result ≡ is_some (get K.cmp self.now.places key.now) }
    {
        self.places.contains_key(key)
    }

    /// Keeps a place free for a key that has none.
    pub fn keep_place(&mut self, key: K) -> Result<(), RecordsFault>
        ensures ok { OnOk result
            (self.new.places.entries ≡ insert_entry K.cmp self.old.places.entries key None) }
        ensures err { OnErr result (IsUnchanged self.old.places self.new.places) }
    {
        insert(&mut self.places, key, None)
    }

    /// Puts a thing in the place of its key.
    pub fn put(&mut self, key: &K, value: V)
        ensures { self.new.places.entries ≡ put_at K.cmp key.now value self.old.places.entries }
    {
        if let Some(place) = self.places.get_mut(key) {
            *place = Some(value);
        }
    }

    /// Lets a thing go, with its place.
    pub fn delete(&mut self, key: &K)
        ensures { self.new.places.entries ≡ without K.cmp key.now self.old.places.entries }
    {
        self.places.remove(key);
    }

    /// Takes a thing away, with its place.
    pub fn remove(&mut self, key: &K) -> Option<V>
        ensures value { result ≡ thing_at K.cmp self.old.places key.now }
        ensures entries { self.new.places.entries ≡ without K.cmp key.now self.old.places.entries }
    {
        self.places.remove(key)?
    }
}

impl<V: Drop> Table<u64, V> {
    /// The least number that has a place, above the last one, where one is told. It looks through the places, of which
    /// open tasks have few.
    pub fn next_after(&self, last: Option<u64>) -> Option<u64>
        ensures first { result ≡ next_after self.now.places.entries last }
        ensures ordered { IsOrdered nat_cmp self.now.places }
        ensures there { IfSome result (λ number. is_past last number ≡ false) }
    {
        for (number, _) in self.places.iter() {
            if !is_past(last, *number) {
                return Some(*number);
            }
        }
        None
    }
}

fn is_past(last: Option<u64>, number: u64) -> bool
    ensures { result ≡ is_past last number }
{
    match last {
        Some(last) => number <= last,
        None => false,
    }
}

impl<K: Ord + Drop + Copy, V: Drop> Table<K, V> {
    /// Keeps a place for a key, where it has none yet.
    pub fn ensure(&mut self, key: K) -> Result<(), RecordsFault>
        ensures ok { OnOk result
            (self.new.places.entries ≡ with_room K.cmp key None self.old.places.entries) }
        ensures alike { taken_places self.new.places.entries ≡ taken_places self.old.places.entries }
        ensures err { OnErr result (IsUnchanged self.old.places self.new.places) }
    {
        self.make_place(key)
    }

    fn make_place(&mut self, key: K) -> Result<(), RecordsFault>
        ensures ok { OnOk result
            (self.new.places.entries ≡ with_room K.cmp key None self.old.places.entries) }
        ensures err { OnErr result (IsUnchanged self.old.places self.new.places) }
    {
        if self.has_place(&key) {
            return Ok(());
        }
        self.keep_place(key)
    }
}

/// Puts a value at a key of a map. Generic, since to let a value of many parts go is dear to prove in the body that does
/// it.
pub(crate) fn insert<K: Ord + Drop, V: Drop>(
    map: &mut BTreeMap<K, V>,
    key: K,
    value: V,
) -> Result<(), RecordsFault>
    ensures updates { OnOk result (Updates K.cmp map.old map.new key (Some value)) }
    ensures ok { OnOk result (map.new.entries ≡ insert_entry K.cmp map.old.entries key value) }
    ensures err { OnErr result (IsUnchanged map.old map.new) }
{
    map.insert(key, value)?;
    Ok(())
}
