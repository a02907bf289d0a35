ghost use Rattle.std.specs.Prelude.{◌≡◌, [], IfOk, IsPermutation, None, OnErr, OnOk, Some, is_some};
ghost use Rattle.std.specs.BTreeMap.{IsOrdered, IsUnchanged, insert_entry};
ghost use Rattle.std.specs.List.Sorted.{IsSorted};
ghost use Rattle.bosh_rows.specs.SoundSnapshot.{built_cmp};
ghost use Rattle.bosh_records.specs.Keys.{IsChanged, asked, built_as, built_of, compiled_of, digest_in};
ghost use Rattle.bosh_records.specs.Keys.{is_compiling_in, key_cmp, state_in};
ghost use Rattle.bosh_records.specs.Recorded.{known_keys};
ghost use Rattle.bosh_records.specs.Table.{with_room};

use crate::RecordsFault;
use bosh_base::{BuiltKey, Copyable, Digest, Key, KeyWork, Name, Seq};
use bosh_drops::put;
use std::alloc::Global;
use std::collections::BTreeMap;

/// What is known of a key: how it was compiled, and the open call that compiles it.
#[derive(Drop)]
pub struct KeyState {
    pub name: Name,
    pub digest: Option<Digest>,
    pub call: Option<u64>,
}

/// The keys that are compiled, or that a task asked for, in their order.
#[derive(Drop)]
pub struct Keys {
    by_key: BTreeMap<Key, KeyState>,
}

impl Keys {
    pub fn new(alloc: Global) -> Keys
        ensures { result.by_key.entries ≡ [] }
    {
        Keys {
            by_key: BTreeMap::new(alloc),
        }
    }

    // That the keys stand in order, each once.
    pub(crate) fn tell_order(&self)
        ensures { IsOrdered key_cmp self.now.by_key }
    {
        self.by_key.iter();
    }

    /// The digest of a compiled key.
    pub fn digest(&self, key: &Key) -> Option<Digest>
        ensures { result ≡ digest_in self.now key.now }
    {
        self.by_key.get(key)?.digest
    }

    pub fn is_compiled(&self, key: &Key) -> bool
        ensures { result ≡ is_some (digest_in self.now key.now) }
    {
        self.digest(key).is_some()
    }

    /// Whether an open call compiles a key.
    pub fn is_compiling(&self, key: &Key) -> bool
        ensures { result ≡ is_compiling_in self.now key.now }
    {
        match self.by_key.get(key) {
            Some(state) => state.call.is_some(),
            None => false,
        }
    }

    /// Makes room for a key of a package, where there is none yet.
    pub fn ensure(&mut self, alloc: Global, name: &Name, key: &Key) -> Result<(), RecordsFault>
        ensures ok { OnOk result (self.new.by_key.entries
            ≡ with_room key_cmp key.now (asked name.now) self.old.by_key.entries) }
        ensures alike { known_keys self.new.by_key.entries ≡ known_keys self.old.by_key.entries }
        ensures err { OnErr result (IsUnchanged self.old.by_key self.new.by_key) }
    {
        self.make_place(alloc, name, key)
    }

    fn make_place(&mut self, alloc: Global, name: &Name, key: &Key) -> Result<(), RecordsFault>
        ensures ok { OnOk result (self.new.by_key.entries
            ≡ with_room key_cmp key.now (asked name.now) self.old.by_key.entries) }
        ensures err { OnErr result (IsUnchanged self.old.by_key self.new.by_key) }
    {
        if self.by_key.contains_key(key) {
            return Ok(());
        }
        let state = KeyState {
            name: name.copy(alloc)?,
            digest: None,
            call: None,
        };
        self.add(alloc, key, state)
    }

    fn add(&mut self, alloc: Global, key: &Key, state: KeyState) -> Result<(), RecordsFault>
        ensures ok { OnOk result
            (self.new.by_key.entries ≡ insert_entry key_cmp self.old.by_key.entries key.now state) }
        ensures err { OnErr result (IsUnchanged self.old.by_key self.new.by_key) }
    {
        let key = key.copy(alloc)?;
        self.by_key.insert(key, state)?;
        Ok(())
    }

    /// Notes how a key was compiled, by the name of the package that was: another package may have asked for it first.
    pub fn set_built(&mut self, work: KeyWork, digest: Digest)
        ensures { IsChanged self.old self.new work.key (built_as work digest) }
    {
        let KeyWork { name, key, deps: _ } = work;
        if let Some(state) = self.by_key.get_mut(&key) {
            state.digest = Some(digest);
            put(&mut state.name, name);
        }
    }

    /// Notes how a key was compiled that a snapshot tells of.
    pub fn set_digest(&mut self, key: &Key, digest: Digest)
        ensures { IsChanged self.old self.new key.now (λ it. record it { digest = Some digest }) }
    {
        if let Some(state) = self.by_key.get_mut(key) {
            state.digest = Some(digest);
        }
    }

    /// Notes the open call that compiles a key, or that none does.
    pub fn set_call(&mut self, key: &Key, call: Option<u64>)
        ensures { IsChanged self.old self.new key.now (λ it. record it { call = call }) }
    {
        if let Some(state) = self.by_key.get_mut(key) {
            state.call = call;
        }
    }

    /// The compiled keys, in their order.
    pub fn compiled(&self, alloc: Global) -> Result<Seq<Key>, RecordsFault>
        ensures { IfOk result (λ keys. keys ≡ compiled_of self.now.by_key.entries) }
    {
        let mut keys = Vec::new(alloc);
        for (key, state) in self.by_key.iter() {
            if state.digest.is_some() {
                keys.push(key.copy(alloc)?)?;
            }
        }
        Ok(Seq::from(keys))
    }

    /// What was compiled, by name and key.
    pub fn built(&self, alloc: Global) -> Result<Seq<BuiltKey>, RecordsFault>
        ensures permutation { IfOk result (IsPermutation (built_of self.now.by_key.entries)) }
        ensures sorted { IfOk result (IsSorted built_cmp) }
    {
        let mut built = Vec::new(alloc);
        for (key, state) in self.by_key.iter() {
            if let Some(digest) = state.digest {
                built.push(built_key(alloc, key, &state.name, digest)?)?;
            }
        }
        built.sort_by(|one, other| one.name.cmp(&other.name).then(one.key.cmp(&other.key)))?;
        Ok(Seq::from(built))
    }
}

fn built_key(
    alloc: Global,
    key: &Key,
    name: &Name,
    digest: Digest,
) -> Result<BuiltKey, RecordsFault>
    ensures { IfOk result (λ built. built ≡ record { name = name.now; key = key.now; digest = digest }) }
{
    let name = name.copy(alloc)?;
    let key = key.copy(alloc)?;
    Ok(BuiltKey { name, key, digest })
}
