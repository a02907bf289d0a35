//! Two packages, each of its release.
ghost use Rattle.std.specs.Prelude.{◌≡◌};
ghost use Rattle.std.specs.List.{list_any};
ghost use Rattle.std.specs.Str.{bytes_eq};
ghost use Rattle.bosh_alike.specs.Alike.{print_in};
ghost use Rattle.bosh_alike.specs.Search.{agree, covers, needs, needs_also};

use bosh_base::{Digest, Name, PackageSpec, Release};

fn print_in(release: &Release, name: &Name) -> Option<Digest>
    ensures { result ≡ print_in release.now name.now }
{
    release
        .packages
        .iter()
        .find(|pack| pack.name == *name)
        .map(|pack| pack.fingerprint)
}

fn lists(pack: &PackageSpec, name: &Name) -> bool
    ensures { result ≡ list_any (λ dep. bytes_eq dep name.now) pack.now.deps }
{
    pack.deps.iter().any(|dep| dep == name)
}

// Whether a package needs one of this name and this fingerprint.
fn needs(release: &Release, pack: &PackageSpec, name: &Name, print: Digest) -> bool
    ensures { result ≡ needs release.now pack.now name.now print }
{
    lists(pack, name) && print_in(release, name) == Some(print)
}

fn needs_also(release: &Release, pack: &PackageSpec, name: &Name, print: Option<Digest>) -> bool
    ensures { result ≡ needs_also release.now pack.now name.now print }
{
    match print {
        None => true,
        Some(print) => needs(release, pack, name, print),
    }
}

// Whether what a package needs, another one needs as well.
fn covers(
    release: &Release,
    pack: &PackageSpec,
    other_release: &Release,
    other: &PackageSpec,
) -> bool
    ensures { result ≡ covers release.now pack.now other_release.now other.now }
{
    pack.deps.iter().all(|name| needs_also(other_release, other, name, print_in(release, name)))
}

/// Whether two packages have one name, and need packages of the same names and fingerprints.
pub(crate) fn agree(
    release: &Release,
    pack: &PackageSpec,
    other_release: &Release,
    other: &PackageSpec,
) -> bool
    ensures { result ≡ agree release.now pack.now other_release.now other.now }
{
    pack.name == other.name
        && covers(release, pack, other_release, other)
        && covers(other_release, other, release, pack)
}
