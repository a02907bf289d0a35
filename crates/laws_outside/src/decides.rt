ghost use Rattle.std.specs.Prelude.{◌≡◌, ◌↔◌, ◌∷◌, ◌++◌, ℕ, [], All, List, true};
ghost use Rattle.bosh_alike.specs.Alike.{AreAlike};
ghost use Rattle.bosh_base.specs.declared.digest.Digest.{Digest};
ghost use Rattle.bosh_base.specs.declared.key.KeyWork.{KeyWork};
ghost use Rattle.bosh_base.specs.declared.release.PackageSpec.{PackageSpec};
ghost use Rattle.bosh_base.specs.declared.release.Release.{Release};
ghost use Rattle.bosh_compile.specs.Listing.{listing};
ghost use Rattle.bosh_release.specs.Sound.{Depends, IsSound};
ghost use Rattle.laws_outside.specs.Configs.{Spells};
ghost use Rattle.laws_outside.specs.Packages.{has_no_cycle};
ghost use Rattle.laws_outside.specs.Releases.{are_alike, is_sound};
ghost use Rattle.laws_outside.specs.Shipped.{shipped};
ghost use Rattle.sha2.specs.Sha256.{sha256};

/// Nothing is left of packages exactly where none of them needs itself, at once or by others.
#[tactic(auto, using(crate::proofs::ReleaseLemmas::no_cycle_decides))]
pub fn it_is_decided_whether_a_package_needs_itself()
    ensures { (packages : List PackageSpec) →
        (has_no_cycle packages ≡ true) ↔ ((name : List ℕ) → ¬ Depends packages name name) }
{}

/// A release goes with recorded ones exactly where these are sound, and so are they with it: each is sound by itself,
/// and packages of one fingerprint are one package.
pub fn it_is_decided_which_releases_go_with_one_another()
    ensures goes_with { (releases : List Release) (release : Release) →
        (shipped.goes_with releases release ≡ true)
        ↔ ((All IsSound releases × AreAlike releases) × (IsSound release × AreAlike (releases ++ release ∷ []))) }
    ensures sound { (release : Release) → (is_sound release ≡ true) ↔ IsSound release }
    ensures alike { (releases : List Release) → (are_alike releases ≡ true) ↔ AreAlike releases }
{}

/// A text is a cloud config exactly where it reads, and what it reads as is a config without a fault.
#[tactic(auto, using(crate::proofs::ConfigLemmas::config_decides))]
pub fn it_is_decided_whether_a_text_is_a_cloud_config()
    ensures { (text : List ℕ) → (shipped.is_config text ≡ true) ↔ Spells text }
{}

/// A compilation gives the digest of its listing, and no other one has that.
#[tactic(auto, using(crate::proofs::ConfigLemmas::told_by_bytes))]
pub fn what_a_compilation_gives_is_shipped()
    ensures digest { (work : KeyWork) (deps : List Digest) → (shipped.built work deps).0 ≡ sha256 (listing work deps) }
    ensures alone { (work : KeyWork) (deps : List Digest) (digest : Digest) →
        digest.0 ≡ sha256 (listing work deps) → digest ≡ shipped.built work deps }
{}
