//! Which release or stemcell a version asks for.
ghost use Rattle.std.specs.Prelude.{◌≡◌, ◌&&◌, find, Some};
ghost use Rattle.std.specs.Option.{option_copied, option_map};
ghost use Rattle.std.specs.Str.{bytes_eq};
ghost use Rattle.bosh_base.specs.Version.{version_order};
ghost use Rattle.bosh_manifest_names.specs.Edition.{edition, greater, is_equal, is_less, latest};

use bosh_base::{Name, Release, Stemcell, Text, version_order};
use std::cmp::Ordering;

/// What is uploaded in versions.
pub(crate) trait Versioned {
    ghost use Rattle.std.specs.Prelude.{List, ℕ};

    ghost name_of: { Self → List ℕ };

    ghost version_of: { Self → List ℕ };

    fn name(&self) -> &Name
        ensures { result.now ≡ name_of self.now };

    fn version(&self) -> &Text
        ensures { result.now ≡ version_of self.now };
}

impl Versioned for Release {
    ghost name_of = { λ release. release.name };

    ghost version_of = { λ release. release.version };

    fn name(&self) -> &Name {
        &self.name
    }

    fn version(&self) -> &Text {
        &self.version
    }
}

impl Versioned for Stemcell {
    ghost name_of = { λ stemcell. stemcell.os };

    ghost version_of = { λ stemcell. stemcell.version };

    fn name(&self) -> &Name {
        &self.os
    }

    fn version(&self) -> &Text {
        &self.version
    }
}

fn is_less(one: &Text, other: &Text) -> bool
    ensures { result ≡ is_less (version_order one.now other.now) }
{
    matches!(
        version_order(one.as_slice(), other.as_slice()),
        Some(Ordering::Less)
    )
}

fn is_equal(one: &Text, other: &Text) -> bool
    ensures { result ≡ is_equal (version_order one.now other.now) }
{
    matches!(
        version_order(one.as_slice(), other.as_slice()),
        Some(Ordering::Equal)
    )
}

// The one so far, or another of a greater version.
fn greater<'a, T: Versioned>(best: Option<&'a T>, other: &'a T) -> &'a T
    ensures { result.now ≡ greater T.version_of (option_copied best.entry) other.now }
{
    match best {
        None => other,
        Some(best) => {
            if is_less(best.version(), other.version()) {
                other
            } else {
                best
            }
        }
    }
}

fn latest<'a, T: Versioned>(all: &'a [T], name: &Name) -> Option<&'a T>
    ensures { option_copied result ≡ edition T.name_of T.version_of all.now name.now None }
{
    let mut best = None;
    for thing in all {
        if *thing.name() == *name {
            best = Some(greater(best, thing));
        }
    }
    best
}

fn of_version<'a, T: Versioned>(all: &'a [T], name: &Name, version: &Text) -> Option<&'a T>
    ensures { option_copied result ≡ edition T.name_of T.version_of all.now name.now (Some version.now) }
{
    all.iter().find(|thing| *thing.name() == *name && is_equal(thing.version(), version))
}

/// Of those of a name the one of a version, or the latest where none is asked for.
pub(crate) fn edition<'a, T: Versioned>(
    all: &'a [T],
    name: &Name,
    version: &Option<Text>,
) -> Option<&'a T>
    ensures { option_copied result ≡ edition T.name_of T.version_of all.now name.now version.now }
{
    match version {
        None => latest(all, name),
        Some(version) => of_version(all, name, version),
    }
}
