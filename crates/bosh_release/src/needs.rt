//! Which packages are needed, by their places.
ghost use Rattle.std.specs.Prelude.{◌≡◌, ℕ, List, true, IfErr, IfOk, OnOk};
ghost use Rattle.bosh_release.specs.Draft.{check_job, graph_of, needs_of, package_names, place_of, places_of};
ghost use Rattle.bosh_release.specs.Table.{IsTable, place_in, place_with};
ghost use Rattle.bosh_release_files.specs.Answer.{IsAnswer, IsAnswerSeen, check_each, each};
ghost use Rattle.bosh_release_files.specs.declared.fault.ReleaseFault.TheVariants.{Memory};

use crate::drafted_package::PackageDraft;
use bosh_base::{JobSpec, Name, Seq};
use bosh_release_files::{ReleaseFault, unknown_package};
use std::alloc::Global;
use std::collections::BTreeMap;

/// The place of each package by its name.
type Table<'a> = BTreeMap<&'a [u8], usize>;

fn add_place<'a>(name: &'a [u8], place: usize, table: &mut Table<'a>) -> Result<(), ReleaseFault>
    ensures added { OnOk result ((q : List ℕ) → place_in table.new q
        ≡ place_with (place_in table.old q) name.now place q) }
    ensures err { IfErr result (λ fault. fault ≡ Memory) }
{
    if table.contains_key(name) {
        return Ok(());
    }
    table.insert(name, place)?;
    Ok(())
}

// Of two packages of one name the first counts.
fn table_of<'a>(alloc: Global, packages: &'a [PackageDraft]) -> Result<Table<'a>, ReleaseFault>
    ensures table { IfOk result (λ table. IsTable (package_names packages.now) table) }
    ensures err { IfErr result (λ fault. fault ≡ Memory) }
{
    let mut table = BTreeMap::new(alloc);
    for (place, package) in packages.iter().enumerate() {
        add_place(package.name.as_bytes(), place, &mut table)?;
    }
    Ok(table)
}

fn place_of(alloc: Global, table: &Table<'_>, name: &Name) -> Result<usize, ReleaseFault>
    ensures { (names : List (List ℕ)) → IsTable names table.now → IsAnswer result (place_of names name.now) }
{
    match table.get(name.as_bytes()) {
        Some(place) => Ok(*place),
        None => unknown_package(alloc, name.as_bytes()),
    }
}

fn places_of(alloc: Global, table: &Table<'_>, needs: &[Name]) -> Result<Seq<usize>, ReleaseFault>
    ensures { (names : List (List ℕ)) → IsTable names table.now → IsAnswer result (places_of names needs.now) }
{
    let mut places = Vec::new(alloc);
    for name in needs {
        places.push(place_of(alloc, table, name)?)?;
    }
    Ok(Seq::from(places))
}

fn check_job(alloc: Global, table: &Table<'_>, job: &JobSpec) -> Result<(), ReleaseFault>
    ensures { (names : List (List ℕ)) → IsTable names table.now → IsAnswerSeen
        (λ _. true) result (check_job names job.now) }
{
    let _places = places_of(alloc, table, job.packages.as_slice())?;
    Ok(())
}

fn check_jobs(alloc: Global, table: &Table<'_>, jobs: &[JobSpec]) -> Result<(), ReleaseFault>
    ensures { (names : List (List ℕ)) → IsTable names table.now → IsAnswerSeen
        (λ _. true) result (check_each (check_job names) jobs.now) }
{
    for job in jobs {
        check_job(alloc, table, job)?;
    }
    Ok(())
}

fn all_needs(
    alloc: Global,
    table: &Table<'_>,
    packages: &[PackageDraft],
) -> Result<Seq<Seq<usize>>, ReleaseFault>
    ensures { (names : List (List ℕ)) → IsTable names table.now → IsAnswer result (each (needs_of names) packages.now) }
{
    let mut needs = Vec::new(alloc);
    for package in packages {
        needs.push(places_of(alloc, table, package.dependencies.as_slice())?)?;
    }
    Ok(Seq::from(needs))
}

/// The places of the packages that each package needs; and jobs and packages need no other.
pub(crate) fn graph_of(
    alloc: Global,
    jobs: &[JobSpec],
    packages: &[PackageDraft],
) -> Result<Seq<Seq<usize>>, ReleaseFault>
    ensures { IsAnswer result (graph_of jobs.now packages.now) }
{
    let table = table_of(alloc, packages)?;
    check_jobs(alloc, &table, jobs)?;
    all_needs(alloc, &table, packages)
}
