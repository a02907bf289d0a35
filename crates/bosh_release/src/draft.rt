//! What files say of a release, before its packages have fingerprints.
ghost use Rattle.std.specs.Prelude.{◌≡◌, codes};
ghost use Rattle.bosh_release.specs.Draft.{draft_of, job_of, jobs_and_packages, jobs_of, named, package_of, packages_of, with_needs};
ghost use Rattle.bosh_release_files.specs.Answer.{IsAnswer, each};
ghost use Rattle.bosh_release_files.specs.Files.{files_below};

use crate::drafted_package::{PackageDraft, package_of};
use crate::job::job_of;
use crate::needs::graph_of;
use crate::reading::release_at;
use crate::required::required_at;
use bosh_base::{JobSpec, Name, Seq, Text};
use bosh_release_files::{File, Folder, ReleaseFault, Sources, folders_below};
use std::alloc::Global;

/// A release without its version, whose packages have no fingerprints yet.
#[derive(Drop)]
pub(crate) struct Draft {
    pub name: Name,
    /// By name.
    pub jobs: Seq<JobSpec>,
    /// By name.
    pub packages: Seq<PackageDraft>,
    /// For each package the places of those that it needs.
    pub needs: Seq<Seq<usize>>,
}

fn named(alloc: Global, folder: &Folder<'_>) -> Result<Name, ReleaseFault>
    ensures { IsAnswer result (named folder.now) }
{
    let text = required_at(alloc, folder, b"config/final.yml")?;
    release_at(alloc, b"config/final.yml", text)
}

fn each_job(
    alloc: Global,
    folder: &Folder<'_>,
    names: &[Text],
) -> Result<Seq<JobSpec>, ReleaseFault>
    ensures { IsAnswer result (each (job_of folder.now) names.now) }
{
    let mut jobs = Vec::new(alloc);
    for name in names {
        jobs.push(job_of(alloc, folder, name.as_slice())?)?;
    }
    Ok(Seq::from(jobs))
}

fn jobs_of(alloc: Global, folder: &Folder<'_>, files: &[File]) -> Result<Seq<JobSpec>, ReleaseFault>
    ensures { IsAnswer result (jobs_of folder.now files.now) }
{
    let names = folders_below(alloc, b"jobs/", files)?;
    each_job(alloc, folder, names.as_slice())
}

fn each_package(
    alloc: Global,
    folder: &Folder<'_>,
    sources: &Sources<'_>,
    names: &[Text],
) -> Result<Seq<PackageDraft>, ReleaseFault>
    ensures { IsAnswer result (each (package_of folder.now sources.now) names.now) }
{
    let mut packages = Vec::new(alloc);
    for name in names {
        packages.push(package_of(alloc, folder, sources, name.as_slice())?)?;
    }
    Ok(Seq::from(packages))
}

fn packages_of(
    alloc: Global,
    folder: &Folder<'_>,
    sources: &Sources<'_>,
    files: &[File],
) -> Result<Seq<PackageDraft>, ReleaseFault>
    requires { sources.now ≡ files_below (codes "src/") files.now }
    ensures { IsAnswer result (packages_of folder.now files.now) }
{
    let names = folders_below(alloc, b"packages/", files)?;
    each_package(alloc, folder, sources, names.as_slice())
}

fn jobs_and_packages(
    alloc: Global,
    folder: &Folder<'_>,
    sources: &Sources<'_>,
    files: &[File],
) -> Result<(Seq<JobSpec>, Seq<PackageDraft>), ReleaseFault>
    requires { sources.now ≡ files_below (codes "src/") files.now }
    ensures { IsAnswer result (jobs_and_packages folder.now files.now) }
{
    let jobs = jobs_of(alloc, folder, files)?;
    Ok((jobs, packages_of(alloc, folder, sources, files)?))
}

fn with_needs(
    alloc: Global,
    name: Name,
    jobs: Seq<JobSpec>,
    packages: Seq<PackageDraft>,
) -> Result<Draft, ReleaseFault>
    ensures { IsAnswer result (with_needs name jobs packages) }
{
    let needs = graph_of(alloc, jobs.as_slice(), packages.as_slice())?;
    Ok(Draft {
        name,
        jobs,
        packages,
        needs,
    })
}

/// What files say of a release, or the first fault that comes before those of all packages together.
pub(crate) fn drafted(
    alloc: Global,
    sources: &Sources<'_>,
    files: &[File],
) -> Result<Draft, ReleaseFault>
    requires { sources.now ≡ files_below (codes "src/") files.now }
    ensures { IsAnswer result (draft_of files.now) }
{
    let folder = Folder::of(alloc, files)?;
    let name = named(alloc, &folder)?;
    let (jobs, packages) = jobs_and_packages(alloc, &folder, sources, files)?;
    with_needs(alloc, name, jobs, packages)
}
