//! What the groups of a manifest need compiled.
ghost use Rattle.std.specs.Prelude.{◌≡◌, ◌∷◌, [], IfOk, OnOk, map};
ghost use Rattle.bosh_keys.specs.Once.{Adds, IsGathered, each_once};
ghost use Rattle.bosh_keys.specs.Works.{all_works, asked_keys, group_keys, group_works, job_keys, job_works, keys_named, work_of};
ghost use Rattle.bosh_release_files.specs.Files.{in_order};

use crate::key::key_of;
use crate::packages::Packages;
use bosh_base::{CopyFault, Copyable, Key, KeyWork, Name, PackageSpec, Seq, Stemcell};
use bosh_manifest_names::{UsedGroup, UsedJob};
use std::alloc::Global;
use std::collections::BTreeSet;

/// The works of packages, each key once, and the keys that are asked for.
#[derive(Drop)]
pub(crate) struct Gathered {
    pub(crate) works: Vec<KeyWork>,
    /// The keys of the works.
    seen: BTreeSet<Key>,
    pub(crate) asked: Vec<Key>,
}

fn name_and_deps(
    alloc: Global,
    packages: &Packages<'_>,
    stemcell: &Stemcell,
    pack: &PackageSpec,
) -> Result<(Name, Seq<Key>), CopyFault>
    ensures { IfOk result (λ both. (both.0 ≡ pack.now.name)
        × (both.1 ≡ keys_named packages.now stemcell.now (in_order pack.now.deps))) }
{
    let deps = packages.deps(alloc, stemcell, pack)?;
    Ok((pack.name.copy(alloc)?, deps))
}

fn work_of(
    alloc: Global,
    packages: &Packages<'_>,
    stemcell: &Stemcell,
    pack: &PackageSpec,
) -> Result<KeyWork, CopyFault>
    ensures { IfOk result (λ work. work ≡ work_of packages.now stemcell.now pack.now) }
{
    let (name, deps) = name_and_deps(alloc, packages, stemcell, pack)?;
    Ok(KeyWork {
        name,
        key: key_of(alloc, stemcell, pack)?,
        deps,
    })
}

impl Gathered {
    fn new(alloc: Global) -> Gathered
        ensures { IsGathered [] [] result }
    {
        Gathered {
            works: Vec::new(alloc),
            seen: BTreeSet::new(alloc),
            asked: Vec::new(alloc),
        }
    }

    // Adds the work of a package, unless its key is there.
    fn add_package(
        &mut self,
        alloc: Global,
        packages: &Packages<'_>,
        stemcell: &Stemcell,
        pack: &PackageSpec,
    ) -> Result<(), CopyFault>
        ensures { OnOk result (Adds (work_of packages.now stemcell.now pack.now ∷ []) [] self.old self.new) }
    {
        let key = key_of(alloc, stemcell, pack)?;
        if self.seen.contains(&key) {
            return Ok(());
        }
        self.seen.insert(key)?;
        self.works.push(work_of(alloc, packages, stemcell, pack)?)?;
        Ok(())
    }

    fn add_packages(
        &mut self,
        alloc: Global,
        packages: &Packages<'_>,
        stemcell: &Stemcell,
    ) -> Result<(), CopyFault>
        ensures { OnOk result (Adds (map (work_of packages.now stemcell.now) packages.now.packages) []
            self.old self.new) }
    {
        for pack in packages.all() {
            self.add_package(alloc, packages, stemcell, pack)?;
        }
        Ok(())
    }

    fn add_asked(
        &mut self,
        alloc: Global,
        packages: &Packages<'_>,
        stemcell: &Stemcell,
        names: &[Name],
    ) -> Result<(), CopyFault>
        ensures { OnOk result (Adds [] (keys_named packages.now stemcell.now names.now) self.old self.new) }
    {
        for name in names {
            packages.add_key(alloc, stemcell, name.as_bytes(), &mut self.asked)?;
        }
        Ok(())
    }

    fn add_job(
        &mut self,
        alloc: Global,
        stemcell: &Stemcell,
        used: &UsedJob<'_>,
    ) -> Result<(), CopyFault>
        ensures { OnOk result (Adds (job_works stemcell.now used.now) (job_keys stemcell.now used.now)
            self.old self.new) }
    {
        let packages = Packages::of(alloc, used.release())?;
        self.add_packages(alloc, &packages, stemcell)?;
        self.add_asked(alloc, &packages, stemcell, used.spec().packages.as_slice())
    }

    fn add_group(&mut self, alloc: Global, group: &UsedGroup<'_>) -> Result<(), CopyFault>
        ensures { OnOk result (Adds (group_works group.now) (group_keys group.now) self.old self.new) }
    {
        for used in group.jobs() {
            self.add_job(alloc, group.stemcell(), used)?;
        }
        Ok(())
    }

    /// What the jobs of groups need: the packages of their releases for the stemcells of the groups, each key once, and
    /// the keys that the jobs themselves ask for.
    pub(crate) fn of(alloc: Global, groups: &[UsedGroup<'_>]) -> Result<Gathered, CopyFault>
        ensures { IfOk result (IsGathered (each_once (all_works groups.now)) (asked_keys groups.now)) }
    {
        let mut gathered = Gathered::new(alloc);
        for group in groups {
            gathered.add_group(alloc, group)?;
        }
        Ok(gathered)
    }
}
