//! The keys of a deployment.
ghost use Rattle.std.specs.Prelude.{◌≡◌, IfOk, All};
ghost use Rattle.bosh_alike.specs.Alike.{AreAlike};
ghost use Rattle.bosh_keys.specs.Works.{AreKeys, releases_of};
ghost use Rattle.bosh_release.specs.Sound.{IsSound};

use crate::gathered::Gathered;
use bosh_base::{Key, KeyWork, Seq};
use bosh_compile::CompileFault;
use bosh_manifest_names::UsedGroup;
use bosh_needed::needed;
use std::alloc::Global;

/// The packages that the jobs of groups need compiled for the stemcells of the groups, with all that they need compiled
/// before, but for those that are compiled; each key once, in the order of compilation. Groups without instances count.
/// Only want of memory is refused.
///
/// It takes a logarithm for each package of the release of each job.
pub fn keys(
    alloc: Global,
    groups: &[UsedGroup<'_>],
    compiled: &[Key],
) -> Result<Seq<KeyWork>, CompileFault>
    requires sound { All IsSound (releases_of groups.now) }
    requires alike { AreAlike (releases_of groups.now) }
    ensures { IfOk result (AreKeys groups.now compiled.now) }
{
    let gathered = Gathered::of(alloc, groups)?;
    needed(
        alloc,
        gathered.works.as_slice(),
        gathered.asked.as_slice(),
        compiled,
    )
}
