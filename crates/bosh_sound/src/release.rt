//! A release by itself.
ghost use Rattle.std.specs.Prelude.{IfOk, IsFalse, IsTrue, map};
ghost use Rattle.bosh_release.specs.Sound.{IsSound};
ghost use Rattle.bosh_release_files.specs.Sources.{IsInOrder};
ghost use Rattle.bosh_sound.specs.Needs.{ArePackagesSound, JobsKnow};
ghost use Rattle.bosh_sound.specs.Places.{texts_of};

use crate::names::{are_in_order, are_known, job_names, package_names};
use crate::needs::are_needs_sound;
use bosh_base::{JobSpec, Name, Release};
use std::alloc::{AllocError, Global};

fn are_jobs_in_order(alloc: Global, jobs: &[JobSpec]) -> Result<bool, AllocError>
    ensures yes { IfOk result (λ yes. IsTrue yes → IsInOrder (map (λ job. job.name) jobs.now)) }
    ensures no { IfOk result (λ yes. IsFalse yes → ¬ IsInOrder (map (λ job. job.name) jobs.now)) }
{
    let names = job_names(alloc, jobs)?;
    Ok(are_in_order(&names))
}

// Whether jobs need only packages of these names.
fn are_jobs_known(names: &[&Name], jobs: &[JobSpec]) -> bool
    requires { IsInOrder (texts_of names.now) }
    ensures yes { IsTrue result → JobsKnow (texts_of names.now) jobs.now }
    ensures no { IsFalse result → ¬ JobsKnow (texts_of names.now) jobs.now }
{
    for job in jobs {
        if !are_known(names, job.packages.as_slice()) {
            return false;
        }
    }
    true
}

// Whether the packages stand by name, jobs and packages need only these, and no package needs itself.
fn are_packages_sound(alloc: Global, release: &Release) -> Result<bool, AllocError>
    ensures yes { IfOk result (λ yes. IsTrue yes → ArePackagesSound release.now) }
    ensures no { IfOk result (λ yes. IsFalse yes → ¬ ArePackagesSound release.now) }
{
    let packages = release.packages.as_slice();
    let names = package_names(alloc, packages)?;
    if !are_in_order(&names) {
        return Ok(false);
    }
    if !are_jobs_known(&names, release.jobs.as_slice()) {
        return Ok(false);
    }
    are_needs_sound(alloc, &names, packages)
}

/// Whether a release is sound by itself.
pub(crate) fn is_sound(alloc: Global, release: &Release) -> Result<bool, AllocError>
    ensures yes { IfOk result (λ yes. IsTrue yes → IsSound release.now) }
    ensures no { IfOk result (λ yes. IsFalse yes → ¬ IsSound release.now) }
{
    if !are_jobs_in_order(alloc, release.jobs.as_slice())? {
        return Ok(false);
    }
    are_packages_sound(alloc, release)
}
