//! The packages of a release.
ghost use Rattle.std.specs.Prelude.{◌≡◌, ◌∷◌, ◌++◌, [], IfOk, OnOk, map};
ghost use Rattle.std.specs.Option.{option_copied};
ghost use Rattle.bosh_keys.specs.Works.{key_named, keys_named, package_name};
ghost use Rattle.bosh_lookup.specs.Table.{first_named};
ghost use Rattle.bosh_release_files.specs.Files.{in_order};

use crate::key::key_of;
use bosh_base::{CopyFault, Key, Name, PackageSpec, Release, Seq, Stemcell};
use bosh_lookup::{Table, find, table_of};
use std::alloc::{AllocError, Global};
use std::collections::BTreeSet;
use std::marker::Model;

/// The packages of a release, which are found by name.
#[derive(Drop)]
pub(crate) struct Packages<'a> {
    release: &'a Release,
    table: Table<'a, &'a PackageSpec>,
}

impl<'a> Model for Packages<'a> {
    ghost use Rattle.std.specs.Coded.{codes};
    ghost use Rattle.bosh_base.specs.declared.release.Release.{Release};
    ghost use Rattle.bosh_keys.specs.Works.{package_name};
    ghost use Rattle.bosh_lookup.specs.Table.{IsTable};

    ghost Value = { Release };

    ghost coded = { Prim.hlevel codes };

    ghost view = { λ packages. packages.release.now };

    ghost invariant = { λ packages. IsTable package_name packages.release.now.packages packages.table };
}

// Names in order, each once.
fn in_order<'a>(alloc: Global, names: &'a [Name]) -> Result<BTreeSet<&'a [u8]>, AllocError>
    ensures { IfOk result (λ ordered. map (λ name. name.now) ordered.keys ≡ in_order names.now) }
{
    let mut ordered = BTreeSet::new(alloc);
    for name in names {
        ordered.insert(name.as_bytes())?;
    }
    Ok(ordered)
}

impl<'a> Packages<'a> {
    pub(crate) fn of(alloc: Global, release: &'a Release) -> Result<Packages<'a>, AllocError>
        ensures { IfOk result (λ packages. packages ≡ release.now) }
    {
        let table = table_of(alloc, release.packages.as_slice())?;
        Ok(Packages { release, table })
    }

    pub(crate) fn all(&self) -> &'a [PackageSpec]
        ensures { result.now ≡ self.now.packages }
    {
        self.release.packages.as_slice()
    }

    fn named(&self, name: &[u8]) -> Option<&'a PackageSpec>
        ensures { option_copied result ≡ first_named package_name self.now.packages name.now }
    {
        find(&self.table, name)
    }

    fn key_named(
        &self,
        alloc: Global,
        stemcell: &Stemcell,
        name: &[u8],
    ) -> Result<Option<Key>, CopyFault>
        ensures { IfOk result (λ key. key ≡ key_named self.now stemcell.now name.now) }
    {
        match self.named(name) {
            Some(pack) => Ok(Some(key_of(alloc, stemcell, pack)?)),
            None => Ok(None),
        }
    }

    /// Adds the key of the package of a name.
    pub(crate) fn add_key(
        &self,
        alloc: Global,
        stemcell: &Stemcell,
        name: &[u8],
        keys: &mut Vec<Key>,
    ) -> Result<(), CopyFault>
        ensures { OnOk result (keys.new.items ≡ keys.old.items ++ keys_named self.now stemcell.now (name.now ∷ [])) }
    {
        if let Some(key) = self.key_named(alloc, stemcell, name)? {
            keys.push(key)?;
        }
        Ok(())
    }

    /// The keys of the packages that a package needs, by their names, each once.
    pub(crate) fn deps(
        &self,
        alloc: Global,
        stemcell: &Stemcell,
        pack: &PackageSpec,
    ) -> Result<Seq<Key>, CopyFault>
        ensures { IfOk result (λ deps. deps ≡ keys_named self.now stemcell.now (in_order pack.now.deps)) }
    {
        let mut keys = Vec::new(alloc);
        for name in in_order(alloc, pack.deps.as_slice())? {
            self.add_key(alloc, stemcell, name, &mut keys)?;
        }
        Ok(Seq::from(keys))
    }
}
