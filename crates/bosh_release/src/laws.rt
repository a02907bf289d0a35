ghost use Rattle.bosh_release.specs.Sound.{CollectedIsSound};

/// A release that files spell is sound by itself: its jobs and its packages have different names, they name only its
/// packages, and none of these needs itself.
#[tactic(auto, using(crate::proofs::SoundLemmas::collected_is_sound))]
pub fn a_collected_release_is_sound()
    ensures { CollectedIsSound }
{}
