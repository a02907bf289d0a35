//! That the keys of a deployment are determined, and that what is asked of its releases holds.
ghost use Rattle.std.specs.Prelude.{◌≡◌, All, List, Ok};
ghost use Rattle.bosh_alike.specs.Alike.{AreAlike};
ghost use Rattle.bosh_base.specs.declared.key.Key.{Key};
ghost use Rattle.bosh_base.specs.declared.key.KeyWork.{KeyWork};
ghost use Rattle.bosh_base.specs.declared.release.Release.{Release};
ghost use Rattle.bosh_base.specs.declared.stemcell.Stemcell.{Stemcell};
ghost use Rattle.bosh_cloudcfg.specs.declared.config.Config.{Config};
ghost use Rattle.bosh_keys.specs.Works.{AreKeys, releases_of};
ghost use Rattle.bosh_manifest.specs.declared.manifest.Contents.{Contents};
ghost use Rattle.bosh_release.specs.Sound.{IsSound};
ghost use Rattle.bosh_manifest_names.specs.Used.{UsedGroup};
ghost use Rattle.bosh_manifest_names.specs.Uses.{uses};

/// There is one answer: where the releases are sound and alike, two lists of keys for one deployment are the same list.
pub fn keys_are_determined()
    ensures { (groups : List UsedGroup) (compiled : List Key) (one other : List KeyWork)
        → All IsSound (releases_of groups) → AreAlike (releases_of groups)
        → AreKeys groups compiled one → AreKeys groups compiled other → one ≡ other }
{}

/// The releases that a manifest uses are sound where those that are there are.
pub fn used_releases_are_sound()
    ensures { (manifest : Contents) (config : Config) (releases : List Release) (stemcells : List Stemcell)
        (groups : List UsedGroup) → uses manifest config releases stemcells ≡ Ok groups
        → All IsSound releases → All IsSound (releases_of groups) }
{}

/// The releases that a manifest uses are alike where those that are there are.
pub fn used_releases_are_alike()
    ensures { (manifest : Contents) (config : Config) (releases : List Release) (stemcells : List Stemcell)
        (groups : List UsedGroup) → uses manifest config releases stemcells ≡ Ok groups
        → AreAlike releases → AreAlike (releases_of groups) }
{}
