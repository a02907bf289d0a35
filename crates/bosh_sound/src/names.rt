//! Names in order, and their places.
ghost use Rattle.std.specs.Prelude.{◌≡◌, ◌<◌, IfNone, IfOk, IfSome, IsFalse, IsTrue, All, Contains, length, map};
ghost use Rattle.std.specs.Cmp.Lexicographic.{slice_cmp};
ghost use Rattle.std.specs.Ordering.{is_lt, nat_cmp};
ghost use Rattle.bosh_release.specs.Sound.{names_of};
ghost use Rattle.bosh_release_files.specs.Sources.{IsInOrder};
ghost use Rattle.bosh_sound.specs.Places.{name_at, texts_of};

use bosh_base::{JobSpec, Name, PackageSpec};
use std::alloc::{AllocError, Global};

/// The names of jobs, as they stand.
pub(crate) fn job_names(alloc: Global, jobs: &[JobSpec]) -> Result<Vec<&Name>, AllocError>
    ensures { IfOk result (λ names. texts_of names.items ≡ map (λ job. job.name) jobs.now) }
{
    let mut names = Vec::new(alloc);
    for job in jobs {
        names.push(&job.name)?;
    }
    Ok(names)
}

/// The names of packages, as they stand.
pub(crate) fn package_names(
    alloc: Global,
    packages: &[PackageSpec],
) -> Result<Vec<&Name>, AllocError>
    ensures { IfOk result (λ names. texts_of names.items ≡ names_of packages.now) }
{
    let mut names = Vec::new(alloc);
    for package in packages {
        names.push(&package.name)?;
    }
    Ok(names)
}

fn is_before(name: &Name, later: &Name) -> bool
    ensures { result ≡ is_lt (slice_cmp nat_cmp name.now later.now) }
{
    name.cmp(later).is_lt()
}

/// Whether each name is less than those after it.
pub(crate) fn are_in_order(names: &[&Name]) -> bool
    ensures yes { IsTrue result → IsInOrder (texts_of names.now) }
    ensures no { IsFalse result → ¬ IsInOrder (texts_of names.now) }
{
    for place in 1..names.len() {
        if !is_before(names[place - 1], names[place]) {
            return false;
        }
    }
    true
}

/// The place of a name among names in order.
pub(crate) fn place_of(names: &[&Name], name: &Name) -> Option<usize>
    requires { IsInOrder (texts_of names.now) }
    ensures found { IfSome result (λ place. (place < length (texts_of names.now))
        × (name_at (texts_of names.now) place ≡ name.now)) }
    ensures missing { IfNone result (¬ Contains (texts_of names.now) name.now) }
{
    names.binary_search(&name).ok()
}

fn is_known(names: &[&Name], name: &Name) -> bool
    requires { IsInOrder (texts_of names.now) }
    ensures yes { IsTrue result → Contains (texts_of names.now) name.now }
    ensures no { IsFalse result → ¬ Contains (texts_of names.now) name.now }
{
    place_of(names, name).is_some()
}

/// Whether these names are all among names in order.
pub(crate) fn are_known(names: &[&Name], wanted: &[Name]) -> bool
    requires { IsInOrder (texts_of names.now) }
    ensures yes { IsTrue result → All (Contains (texts_of names.now)) wanted.now }
    ensures no { IsFalse result → ¬ All (Contains (texts_of names.now)) wanted.now }
{
    for name in wanted {
        if !is_known(names, name) {
            return false;
        }
    }
    true
}
