ghost use Rattle.std.specs.Prelude.{◌≡◌, IfOk, map};
ghost use Rattle.bosh_shown.specs.Releases.{job_mark, package_mark, release_line};

use bosh_base::{
    CopyFault, Copyable, JobSpec, Mark, PackageSpec, Release, ReleaseLine, Seq, copy_both,
};
use std::alloc::Global;

fn job_marks(alloc: Global, jobs: &[JobSpec]) -> Result<Seq<Mark>, CopyFault>
    ensures { IfOk result (λ marks. marks ≡ map job_mark jobs.now) }
{
    let mut marks = Vec::new(alloc);
    for job in jobs {
        marks.push(Mark {
            name: job.name.copy(alloc)?,
            fingerprint: job.fingerprint,
        })?;
    }
    Ok(Seq::from(marks))
}

fn package_marks(alloc: Global, packages: &[PackageSpec]) -> Result<Seq<Mark>, CopyFault>
    ensures { IfOk result (λ marks. marks ≡ map package_mark packages.now) }
{
    let mut marks = Vec::new(alloc);
    for pack in packages {
        marks.push(Mark {
            name: pack.name.copy(alloc)?,
            fingerprint: pack.fingerprint,
        })?;
    }
    Ok(Seq::from(marks))
}

fn marks(alloc: Global, release: &Release) -> Result<(Seq<Mark>, Seq<Mark>), CopyFault>
    ensures { IfOk result (λ both. (both.0 ≡ map job_mark release.now.jobs)
        × (both.1 ≡ map package_mark release.now.packages)) }
{
    let jobs = job_marks(alloc, release.jobs.as_slice())?;
    Ok((jobs, package_marks(alloc, release.packages.as_slice())?))
}

fn release_line(alloc: Global, release: &Release) -> Result<ReleaseLine, CopyFault>
    ensures { IfOk result (λ line. line ≡ release_line release.now) }
{
    let (jobs, packages) = marks(alloc, release)?;
    let (name, version) = copy_both(&release.name, &release.version, alloc)?;
    Ok(ReleaseLine {
        name,
        version,
        jobs,
        packages,
    })
}

/// Releases in their order, each with its jobs and packages in theirs. Want of memory is the one fault.
pub fn release_lines(alloc: Global, releases: &[Release]) -> Result<Seq<ReleaseLine>, CopyFault>
    ensures { IfOk result (λ lines. lines ≡ map release_line releases.now) }
{
    let mut lines = Vec::new(alloc);
    for release in releases {
        lines.push(release_line(alloc, release)?)?;
    }
    Ok(Seq::from(lines))
}
