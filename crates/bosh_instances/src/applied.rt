//! The jobs of a group and their packages, as they are applied to its machines.
ghost use Rattle.std.specs.Prelude.{◌≡◌, ◌++◌, IfOk, OnOk, map};
ghost use Rattle.std.specs.Option.{option_copied, option_to_list};
ghost use Rattle.bosh_instances.specs.Applied.{all_packages, distinct, job_mark, job_marks, own_packages, package_mark, package_marks};

use crate::known::distinct;
use bosh_base::{CopyFault, Copyable, Mark, PackageSpec, Placed, Seq, Spec, copy_both};
use bosh_lookup::{find, table_of};
use bosh_manifest_names::UsedJob;
use std::alloc::{AllocError, Global};

/// The marks of a group: those of its jobs, and those of the packages that these list.
#[derive(Drop)]
pub(crate) struct Applied {
    pub(crate) jobs: Seq<Mark>,
    pub(crate) packages: Seq<Mark>,
}

fn job_mark(alloc: Global, used: &UsedJob) -> Result<Mark, CopyFault>
    ensures { IfOk result (λ mark. mark ≡ job_mark used.now) }
{
    Ok(Mark {
        name: used.job().name.copy(alloc)?,
        fingerprint: used.spec().fingerprint,
    })
}

fn job_marks(alloc: Global, jobs: &[UsedJob]) -> Result<Seq<Mark>, CopyFault>
    ensures { IfOk result (λ marks. marks ≡ job_marks jobs.now) }
{
    let mut marks = Vec::new(alloc);
    for used in jobs {
        marks.push(job_mark(alloc, used)?)?;
    }
    Ok(Seq::from(marks))
}

fn add_found<'a>(
    found: Option<&'a PackageSpec>,
    packages: &mut Vec<&'a PackageSpec>,
) -> Result<(), AllocError>
    ensures { OnOk result (map (λ pack. pack.now) packages.new.items
        ≡ map (λ pack. pack.now) packages.old.items ++ option_to_list (option_copied found.entry)) }
{
    if let Some(pack) = found {
        packages.push(pack)?;
    }
    Ok(())
}

// Adds the packages that the specification of a job lists.
fn add_packages<'a>(
    alloc: Global,
    used: &UsedJob<'a>,
    packages: &mut Vec<&'a PackageSpec>,
) -> Result<(), AllocError>
    ensures { OnOk result (map (λ pack. pack.now) packages.new.items
        ≡ map (λ pack. pack.now) packages.old.items ++ own_packages used.now) }
{
    let table = table_of(alloc, used.release().packages.as_slice())?;
    let names = used.spec().packages.as_slice();
    for name in names {
        add_found(find(&table, name.as_bytes()), packages)?;
    }
    Ok(())
}

fn all_packages<'a>(alloc: Global, jobs: &[UsedJob<'a>]) -> Result<Vec<&'a PackageSpec>, AllocError>
    ensures { IfOk result (λ packages. map (λ pack. pack.now) packages.items ≡ all_packages jobs.now) }
{
    let mut packages = Vec::new(alloc);
    for used in jobs {
        add_packages(alloc, used, &mut packages)?;
    }
    Ok(packages)
}

fn package_mark(alloc: Global, pack: &PackageSpec) -> Result<Mark, CopyFault>
    ensures { IfOk result (λ mark. mark ≡ package_mark pack.now) }
{
    Ok(Mark {
        name: pack.name.copy(alloc)?,
        fingerprint: pack.fingerprint,
    })
}

fn marks_of(alloc: Global, packages: &[&PackageSpec]) -> Result<Seq<Mark>, CopyFault>
    ensures { IfOk result (λ marks. marks ≡ map package_mark (map (λ pack. pack.now) packages.now)) }
{
    let mut marks = Vec::new(alloc);
    for pack in packages {
        marks.push(package_mark(alloc, pack)?)?;
    }
    Ok(Seq::from(marks))
}

fn package_marks(alloc: Global, jobs: &[UsedJob]) -> Result<Seq<Mark>, CopyFault>
    ensures { IfOk result (λ marks. marks ≡ package_marks jobs.now) }
{
    let packages = distinct(alloc, all_packages(alloc, jobs)?.as_slice())?;
    marks_of(alloc, packages.as_slice())
}

impl Applied {
    pub(crate) fn of(alloc: Global, jobs: &[UsedJob]) -> Result<Applied, CopyFault>
        ensures { IfOk result (λ applied. applied
            ≡ record { jobs = job_marks jobs.now; packages = package_marks jobs.now }) }
    {
        let packages = package_marks(alloc, jobs)?;
        let jobs = job_marks(alloc, jobs)?;
        Ok(Applied { jobs, packages })
    }

    /// What is applied to an instance with these files.
    pub(crate) fn with_files(&self, alloc: Global, files: Vec<Placed>) -> Result<Spec, CopyFault>
        ensures { IfOk result (λ spec. spec
            ≡ record { jobs = self.now.jobs; packages = self.now.packages; files = files.items }) }
    {
        let (jobs, packages) = copy_both(&self.jobs, &self.packages, alloc)?;
        Ok(Spec {
            jobs,
            packages,
            files: Seq::from(files),
        })
    }
}
