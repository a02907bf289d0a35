ghost use Rattle.std.specs.Prelude.{◌≡◌, ℕ, List, true, Ok, codes, length};
ghost use Rattle.bosh_release.specs.Collected.{AnswersDraft, Collects, exceeded, package_spec, package_specs, release_of, within_limits};
ghost use Rattle.bosh_release.specs.Prints.{IsFit};
ghost use Rattle.bosh_release_files.specs.Answer.{IsAnswer, IsAnswerSeen};
ghost use Rattle.bosh_release_files.specs.Files.{files_below};
ghost use Rattle.bosh_release_files.specs.declared.folder.File.{File as FileSeen};
ghost use Rattle.bosh_release_order.specs.Graph.{HasNoCycle, IsFirstOnCycle, IsOrder};

use crate::draft::{Draft, drafted};
use crate::drafted_package::PackageDraft;
use crate::prints::prints_of;
use crate::{File, ReleaseFault};
use bosh_base::{Digest, PackageSpec, Release, Seq, Text, copy_both};
use bosh_release_files::{Sources, cycle, limit};
use bosh_release_order::{Order, order_of};
use std::alloc::Global;

const MAX_JOBS: usize = 256;

const MAX_PACKAGES: usize = 256;

const MAX_FILES: usize = 4096;

fn check_limits(alloc: Global, files: &[File], draft: &Draft) -> Result<(), ReleaseFault>
    ensures { IsAnswerSeen (λ _. true) result (within_limits (exceeded files.now draft.now)) }
{
    if draft.jobs.len() > MAX_JOBS {
        limit(alloc, b"jobs")
    } else if draft.packages.len() > MAX_PACKAGES {
        limit(alloc, b"packages")
    } else if files.len() > MAX_FILES {
        limit(alloc, b"files")
    } else {
        Ok(())
    }
}

fn package_spec(
    alloc: Global,
    draft: &PackageDraft,
    print: Digest,
) -> Result<PackageSpec, ReleaseFault>
    ensures { IsAnswer result (Ok (package_spec draft.now print)) }
{
    let (name, deps) = copy_both(&draft.name, &draft.dependencies, alloc)?;
    Ok(PackageSpec {
        name,
        fingerprint: print,
        deps,
    })
}

fn package_specs(
    alloc: Global,
    packages: &[PackageDraft],
    prints: &[Digest],
) -> Result<Seq<PackageSpec>, ReleaseFault>
    requires { length prints.now ≡ length packages.now }
    ensures { IsAnswer result (Ok (package_specs packages.now prints.now)) }
{
    let mut specs = Vec::new(alloc);
    for (place, package) in packages.iter().enumerate() {
        specs.push(package_spec(alloc, package, prints[place])?)?;
    }
    Ok(Seq::from(specs))
}

// Dear to prove: the draft is alive while its packages are copied.
fn release_of(
    alloc: Global,
    version: &[u8],
    draft: Draft,
    prints: &[Digest],
) -> Result<Release, ReleaseFault>
    requires { length prints.now ≡ length draft.packages }
    ensures { IsAnswer result (Ok (release_of version.now draft prints.now)) }
{
    let packages = package_specs(alloc, draft.packages.as_slice(), prints)?;
    let version = Text::from(Vec::from_slice(alloc, version)?);
    Ok(Release {
        name: draft.name,
        version,
        jobs: draft.jobs,
        packages,
    })
}

// The release of a draft whose packages have no cycle. Dear to prove: the draft is alive while fingerprints are found.
fn in_order(
    alloc: Global,
    sources: &Sources<'_>,
    files: &[File],
    version: &[u8],
    draft: Draft,
    order: &[usize],
) -> Result<Release, ReleaseFault>
    requires sources { sources.now ≡ files_below (codes "src/") files.now }
    requires fit { IsFit draft }
    requires no_cycle { HasNoCycle draft.needs }
    requires order { IsOrder draft.needs order.now }
    ensures { AnswersDraft files.now version.now draft result }
{
    check_limits(alloc, files, &draft)?;
    let prints = prints_of(alloc, sources, &draft, order)?;
    release_of(alloc, version, draft, prints.as_slice())
}

fn cycle_at(alloc: Global, draft: &Draft, place: usize) -> Result<Release, ReleaseFault>
    requires fit { IsFit draft.now }
    requires first { IsFirstOnCycle draft.now.needs place }
    ensures { (files : List FileSeen) (version : List ℕ) → AnswersDraft files version draft.now result }
{
    cycle(alloc, draft.packages.as_slice()[place].name.as_bytes())
}

// Dear to prove: the draft is alive while its packages are ordered.
fn finished(
    alloc: Global,
    sources: &Sources<'_>,
    files: &[File],
    version: &[u8],
    draft: Draft,
) -> Result<Release, ReleaseFault>
    requires sources { sources.now ≡ files_below (codes "src/") files.now }
    requires fit { IsFit draft }
    ensures { AnswersDraft files.now version.now draft result }
{
    match order_of(alloc, draft.needs.as_slice())? {
        Order::Whole(order) => in_order(alloc, sources, files, version, draft, order.as_slice()),
        Order::Cycle(place) => cycle_at(alloc, &draft, place),
    }
}

/// The release of a version that the files of a folder spell, or their first fault: first those of `config/final.yml`,
/// of the jobs by name and of the packages by name, then a package that is needed and not there, then the package of
/// the least name that needs itself, and last what is more than a release may have: 256 jobs, 256 packages, 4,096 files.
/// A fault names a path of the folder, a package, a text of `files`, or `jobs`, `packages` or `files`.
pub fn collect(alloc: Global, files: &[File], version: &[u8]) -> Result<Release, ReleaseFault>
    ensures { Collects files.now version.now result }
{
    let sources = Sources::below(alloc, b"src/", files)?;
    let draft = drafted(alloc, &sources, files)?;
    finished(alloc, &sources, files, version, draft)
}
