//! Packages without repeats.
ghost use Rattle.std.specs.Prelude.{◌≡◌, IfOk, List, OnOk, map};
ghost use Rattle.bosh_base.specs.declared.release.PackageSpec.{PackageSpec};
ghost use Rattle.bosh_instances.specs.Applied.{distinct, with_package};
ghost use Rattle.bosh_instances.specs.Known.{AreKnown, IsPackage};

use bosh_base::PackageSpec;
use std::alloc::{AllocError, Global};
use std::collections::BTreeMap;

/// What tells packages apart.
#[derive(Clone, Copy, PartialEq, Eq, PartialOrd, Ord)]
pub(crate) struct PackageId<'a> {
    pub(crate) name: &'a [u8],
    pub(crate) fingerprint: &'a [u8],
}

// The packages that came before.
type Known<'a> = BTreeMap<PackageId<'a>, ()>;

fn id_of(pack: &PackageSpec) -> PackageId<'_>
    ensures { IsPackage pack.now result }
{
    PackageId {
        name: pack.name.as_bytes(),
        fingerprint: pack.fingerprint.0.as_slice(),
    }
}

fn add<'a>(
    pack: &'a PackageSpec,
    known: &mut Known<'a>,
    packages: &mut Vec<&'a PackageSpec>,
) -> Result<(), AllocError>
    ensures { OnOk result ((before : List PackageSpec) → AreKnown before known.old
        → map (λ p. p.now) packages.old.items ≡ before
        → AreKnown (with_package before pack.now) known.new
        × (map (λ p. p.now) packages.new.items ≡ with_package before pack.now)) }
{
    let id = id_of(pack);
    if !known.contains_key(&id) {
        known.insert(id, ())?;
        packages.push(pack)?;
    }
    Ok(())
}

/// Each package once, where it stands first.
pub(crate) fn distinct<'a>(
    alloc: Global,
    packages: &[&'a PackageSpec],
) -> Result<Vec<&'a PackageSpec>, AllocError>
    ensures { IfOk result (λ all. map (λ p. p.now) all.items ≡ distinct (map (λ p. p.now) packages.now)) }
{
    let mut known = BTreeMap::new(alloc);
    let mut all = Vec::new(alloc);
    for pack in packages {
        add(pack, &mut known, &mut all)?;
    }
    Ok(all)
}
