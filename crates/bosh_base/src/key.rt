use crate::{CopyFault, Copyable, Digest, Name, Seq, Text, copy_both, copy_three};
use std::alloc::Global;

/// What a compiled package depends on beside its dependencies: its contents and the stemcell.
#[derive(PartialEq, Eq, PartialOrd, Ord, Drop)]
pub struct Key {
    pub fingerprint: Digest,
    pub os: Text,
    pub version: Text,
}

impl Copyable for Key {
    fn copy(&self, alloc: Global) -> Result<Self, CopyFault> {
        let (os, version) = copy_both(&self.os, &self.version, alloc)?;
        Ok(Key {
            fingerprint: self.fingerprint,
            os,
            version,
        })
    }
}

/// A package to be compiled for a stemcell, with the keys that it needs compiled before.
#[derive(PartialEq, Eq, Drop)]
pub struct KeyWork {
    /// The package.
    pub name: Name,
    pub key: Key,
    /// By the names of the dependencies, each once.
    pub deps: Seq<Key>,
}

impl Copyable for KeyWork {
    fn copy(&self, alloc: Global) -> Result<Self, CopyFault> {
        let (name, key, deps) = copy_three(&self.name, &self.key, &self.deps, alloc)?;
        Ok(KeyWork { name, key, deps })
    }
}
