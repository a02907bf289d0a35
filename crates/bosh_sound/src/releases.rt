//! Releases beside one another.
ghost use Rattle.std.specs.Prelude.{◌∷◌, ◌++◌, [], All, IfOk, IsFalse, IsTrue};
ghost use Rattle.bosh_alike.specs.Alike.{AreAlike};
ghost use Rattle.bosh_release.specs.Sound.{IsSound};

use crate::release::is_sound;
use bosh_alike::stay_alike;
use bosh_base::Release;
use std::alloc::{AllocError, Global};

/// Whether a further release is sound, and goes with those that are recorded, which go with one another: so a record of
/// releases keeps that all are sound and go with one another. The one fault is want of memory.
///
/// In the packages of the release and what they need it takes as much as a sort does, and at most a walk from each
/// package, as `order_of` does; and each of its packages is compared with all others, up to the first of its
/// fingerprint.
pub fn are_sound_with(
    alloc: Global,
    recorded: &[Release],
    release: &Release,
) -> Result<bool, AllocError>
    requires { AreAlike recorded.now }
    ensures yes { IfOk result (λ yes. IsTrue yes
        → IsSound release.now × AreAlike (recorded.now ++ release.now ∷ [])) }
    ensures no { IfOk result (λ yes. IsFalse yes
        → ¬ (IsSound release.now × AreAlike (recorded.now ++ release.now ∷ []))) }
{
    if !is_sound(alloc, release)? {
        return Ok(false);
    }
    Ok(stay_alike(recorded, release))
}

/// Whether each of some releases is sound, and they go with one another. The one fault is want of memory.
///
/// It asks so of each one beside those before it.
pub fn are_sound(alloc: Global, releases: &[Release]) -> Result<bool, AllocError>
    ensures yes { IfOk result (λ yes. IsTrue yes → All IsSound releases.now × AreAlike releases.now) }
    ensures no { IfOk result (λ yes. IsFalse yes → ¬ (All IsSound releases.now × AreAlike releases.now)) }
{
    for (place, release) in releases.iter().enumerate() {
        if !are_sound_with(alloc, &releases[..place], release)? {
            return Ok(false);
        }
    }
    Ok(true)
}
