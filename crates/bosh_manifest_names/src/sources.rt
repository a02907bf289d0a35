//! The releases and stemcells that a manifest lists.
ghost use Rattle.std.specs.Prelude.{◌≡◌, ℕ, List, IfOk};
ghost use Rattle.std.specs.Option.{option_copied};
ghost use Rattle.bosh_base.specs.declared.release.Release.{Release};
ghost use Rattle.bosh_base.specs.declared.stemcell.Stemcell.{Stemcell};
ghost use Rattle.bosh_manifest_names.specs.Answer.{IsAnswerFor, IsAnswerSeen, each};
ghost use Rattle.bosh_manifest_names.specs.Sources.{AreReleases, AreSources, AreStemcells};
ghost use Rattle.bosh_lookup.specs.Table.{first_named};
ghost use Rattle.bosh_manifest_names.specs.Uses.{job_name, or_unknown, release_name, sources, stemcell_for, stemcell_of_alias, used_release, used_stemcell};
ghost use Rattle.bosh_manifest_names.specs.declared.fault.Kind.TheVariants as kinds;

use crate::edition::edition;
use crate::known::known;
use crate::{GoalFault, Kind};
use bosh_base::{JobSpec, Name, Release, Stemcell};
use bosh_lookup::{Table, add, find, table_of};
use bosh_manifest_parts::{ReleaseUse, StemcellUse};
use std::alloc::{AllocError, Global};
use std::collections::BTreeMap;
use std::marker::Model;

/// A release that the manifest lists.
#[derive(Drop)]
pub(crate) struct Listed<'a> {
    release: &'a Release,
    jobs: Table<'a, &'a JobSpec>,
}

impl<'a> Model for Listed<'a> {
    ghost use Rattle.std.specs.Coded.{codes};
    ghost use Rattle.bosh_base.specs.declared.release.Release.{Release};

    ghost Value = { Release };

    ghost coded = { Prim.hlevel codes };

    ghost use Rattle.bosh_lookup.specs.Table.{IsTable};
    ghost use Rattle.bosh_manifest_names.specs.Uses.{job_name};

    ghost view = { λ listed. listed.release.now };

    ghost invariant = { λ listed. IsTable job_name listed.release.now.jobs listed.jobs };
}

impl<'a> Listed<'a> {
    fn of(alloc: Global, release: &'a Release) -> Result<Listed<'a>, AllocError>
        ensures { IfOk result (λ listed. listed ≡ release.now) }
    {
        let jobs = table_of(alloc, release.jobs.as_slice())?;
        Ok(Listed { release, jobs })
    }

    pub(crate) fn release(&self) -> &'a Release
        ensures { result.now ≡ self.now }
    {
        self.release
    }

    /// What the release says of a job.
    pub(crate) fn job(&self, alloc: Global, name: &Name) -> Result<&'a JobSpec, GoalFault>
        ensures { IsAnswerSeen (λ spec. spec.now) result (or_unknown kinds.Job name.now (first_named job_name self.now.jobs name.now)) }
    {
        known(alloc, Kind::Job, name, find(&self.jobs, name.as_bytes()))
    }
}

/// What a manifest lists, by name.
#[derive(Drop)]
pub(crate) struct Sources<'a> {
    releases: Table<'a, Listed<'a>>,
    stemcells: Table<'a, &'a Stemcell>,
}

fn used_release<'a>(
    alloc: Global,
    releases: &'a [Release],
    asked: &ReleaseUse,
) -> Result<&'a Release, GoalFault>
    ensures { IsAnswerSeen (λ release. release.now) result (used_release releases.now asked.now) }
{
    let found = edition(releases, &asked.name, &asked.version);
    known(alloc, Kind::Release, &asked.name, found)
}

fn used_stemcell<'a>(
    alloc: Global,
    stemcells: &'a [Stemcell],
    asked: &StemcellUse,
) -> Result<&'a Stemcell, GoalFault>
    ensures { IsAnswerSeen (λ stemcell. stemcell.now) result (stemcell_for stemcells.now asked.now) }
{
    let found = edition(stemcells, &asked.os, &asked.version);
    known(alloc, Kind::Stemcell, &asked.os, found)
}

// Dear to prove: the table is alive where a release may be unknown.
fn listed_releases<'a>(
    alloc: Global,
    releases: &'a [Release],
    asked: &[ReleaseUse],
) -> Result<Table<'a, Listed<'a>>, GoalFault>
    ensures { IsAnswerFor AreReleases result (each (used_release releases.now) asked.now) }
{
    let mut table = BTreeMap::new(alloc);
    for asked in asked {
        let release = used_release(alloc, releases, asked)?;
        add(
            &mut table,
            release.name.as_bytes(),
            Listed::of(alloc, release)?,
        )?;
    }
    Ok(table)
}

fn listed_stemcells<'a>(
    alloc: Global,
    stemcells: &'a [Stemcell],
    asked: &'a [StemcellUse],
) -> Result<Table<'a, &'a Stemcell>, GoalFault>
    ensures { IsAnswerFor AreStemcells result (each (used_stemcell stemcells.now) asked.now) }
{
    let mut table = BTreeMap::new(alloc);
    for asked in asked {
        let stemcell = used_stemcell(alloc, stemcells, asked)?;
        add(&mut table, asked.alias.as_bytes(), stemcell)?;
    }
    Ok(table)
}

impl<'a> Sources<'a> {
    /// The releases, and then the stemcells, that a manifest asks for.
    pub(crate) fn of(
        alloc: Global,
        releases: &'a [Release],
        stemcells: &'a [Stemcell],
        asked_releases: &'a [ReleaseUse],
        asked_stemcells: &'a [StemcellUse],
    ) -> Result<Sources<'a>, GoalFault>
        ensures { IsAnswerFor AreSources result (sources releases.now stemcells.now asked_releases.now asked_stemcells.now) }
    {
        let releases = listed_releases(alloc, releases, asked_releases)?;
        let stemcells = listed_stemcells(alloc, stemcells, asked_stemcells)?;
        Ok(Sources {
            releases,
            stemcells,
        })
    }

    pub(crate) fn release(&self, alloc: Global, name: &Name) -> Result<&Listed<'a>, GoalFault>
        ensures { (releases : List Release) → AreReleases releases self.now.releases
            → IsAnswerSeen (λ listed. listed.now) result (or_unknown kinds.Release name.now (first_named release_name releases name.now)) }
    {
        known(
            alloc,
            Kind::Release,
            name,
            self.releases.get(name.as_bytes()),
        )
    }

    pub(crate) fn stemcell(&self, alloc: Global, alias: &Name) -> Result<&'a Stemcell, GoalFault>
        ensures { (stemcells : List (List ℕ × Stemcell)) → AreStemcells stemcells self.now.stemcells
            → IsAnswerSeen (λ stemcell. stemcell.now) result (or_unknown kinds.Stemcell alias.now (stemcell_of_alias stemcells alias.now)) }
    {
        let found = self.stemcells.get(alias.as_bytes()).copied();
        known(alloc, Kind::Stemcell, alias, found)
    }
}
