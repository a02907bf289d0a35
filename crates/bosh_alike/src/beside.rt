//! A release beside others.
ghost use Rattle.std.specs.Prelude.{◌≡◌, ◌∷◌, ◌++◌, [], IsFalse, IsTrue};
ghost use Rattle.std.specs.Option.{option_map};
ghost use Rattle.bosh_alike.specs.Alike.{AreAlike};
ghost use Rattle.bosh_alike.specs.Search.{agrees_with, find_in, first_of, goes_with, is_print};

use crate::alike::agree;
use bosh_base::{Digest, PackageSpec, Release};

fn is_print(one: Digest, other: Digest) -> bool
    ensures { result ≡ is_print one other }
{
    one == other
}

fn find_in(release: &Release, print: Digest) -> Option<(&Release, &PackageSpec)>
    ensures { option_map (λ found. (found.0.now, found.1.now)) result ≡ find_in release.now print }
{
    let pack = release
        .packages
        .iter()
        .find(|pack| is_print(pack.fingerprint, print))?;
    Some((release, pack))
}

fn first_of(releases: &[Release], print: Digest) -> Option<(&Release, &PackageSpec)>
    ensures { option_map (λ found. (found.0.now, found.1.now)) result ≡ first_of releases.now print }
{
    for release in releases {
        if let Some(found) = find_in(release, print) {
            return Some(found);
        }
    }
    None
}

// The first package of a fingerprint, in the release where none before has one.
fn first_with<'a>(
    releases: &'a [Release],
    release: &'a Release,
    print: Digest,
) -> Option<(&'a Release, &'a PackageSpec)>
    ensures { option_map (λ found. (found.0.now, found.1.now)) result ≡ first_of (releases.now ++ release.now ∷ []) print }
{
    match first_of(releases, print) {
        Some(found) => Some(found),
        None => find_in(release, print),
    }
}

fn agrees_with_first(releases: &[Release], release: &Release, pack: &PackageSpec) -> bool
    ensures { result ≡ agrees_with release.now pack.now (first_of (releases.now ++ release.now ∷ []) pack.now.fingerprint) }
{
    match first_with(releases, release, pack.fingerprint) {
        None => true,
        Some((first_release, first)) => agree(release, pack, first_release, first),
    }
}

fn goes_with(releases: &[Release], release: &Release) -> bool
    ensures { result ≡ goes_with releases.now release.now }
{
    release
        .packages
        .iter()
        .all(|pack| agrees_with_first(releases, release, pack))
}

/// Whether a further release goes with those that are recorded: any two packages of one fingerprint, in one release or in
/// two, have the same name, and need packages of the same fingerprints. What needs that a fingerprint has is told by
/// SHA-256, so it is refused only where two listings collide.
///
/// It takes no memory. Each package of the release is compared with the first one of its fingerprint alone, since those
/// that are recorded go with one another.
pub fn stay_alike(recorded: &[Release], release: &Release) -> bool
    requires { AreAlike recorded.now }
    ensures alike { IsTrue result → AreAlike (recorded.now ++ release.now ∷ []) }
    ensures unlike { IsFalse result → ¬ AreAlike (recorded.now ++ release.now ∷ []) }
{
    goes_with(recorded, release)
}
