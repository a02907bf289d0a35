//! The links that jobs provide and consume.
ghost use Rattle.std.specs.Prelude.{◌≡◌, Some, IfOk, unwrap_or};
ghost use Rattle.std.specs.Option.{option_copied};
ghost use Rattle.bosh_ties.specs.Links.{across, across_by, across_from, consumer, consumer_by, consumer_from, named_or_implicit, provider, public_provider};
ghost use Rattle.bosh_ties.specs.Spot.{spot_joint};

use crate::gathering::{OfJob, push_some};
use crate::spot::Spot;
use bosh_base::{CopyFault, Copyable, LinkSpec, Name, Text, copy_three};
use bosh_links::{Consumer, Provider, Source};
use bosh_lookup::{find, table_of};
use bosh_manifest_names::{GoalFault, UsedJob};
use bosh_manifest_parts::{Consume, Origin, Provide};
use bosh_share::Across;
use std::alloc::Global;

// The name that a link is public by.
fn public_name(alloc: Global, link: &LinkSpec, alias: Option<&Text>) -> Result<Text, CopyFault>
    ensures { IfOk result (λ name. name ≡ unwrap_or (option_copied alias.entry) link.now.name) }
{
    match alias {
        Some(alias) => alias.copy(alloc),
        None => Ok(Text::from(Vec::from_slice(alloc, link.name.as_bytes())?)),
    }
}

fn public_provider(
    alloc: Global,
    spot: Spot<'_>,
    alias: Option<&Text>,
) -> Result<Provider, CopyFault>
    ensures { IfOk result (λ provider. provider
        ≡ public_provider (spot_joint spot.entry) spot.entry.link.now (option_copied alias.entry)) }
{
    let public_name = public_name(alloc, spot.link, alias)?;
    let kind = spot.link.kind.copy(alloc)?;
    let joint = spot.joint(alloc)?;
    Ok(Provider {
        joint,
        kind,
        public_name,
    })
}

/// What a job provides by a link, which the manifest may change or withdraw.
pub fn provider(
    alloc: Global,
    spot: Spot<'_>,
    said: Option<&Provide>,
) -> Result<Option<Provider>, CopyFault>
    ensures { IfOk result (λ found. found ≡ provider (spot_joint spot.entry) spot.entry.link.now (option_copied said.entry)) }
{
    let Some(provide) = said else {
        return Ok(Some(public_provider(alloc, spot, None)?));
    };
    match &provide.offering {
        None => Ok(None),
        Some(offering) => Ok(Some(public_provider(alloc, spot, offering.alias.as_ref())?)),
    }
}

impl OfJob for Provider {
    ghost use Rattle.bosh_ties.specs.Links.{job_providers};

    ghost of_job = { job_providers };

    // Dear to prove: the table is alive where there may be no memory.
    fn add_of_job(
        alloc: Global,
        dep: &Name,
        group: &Name,
        job: &UsedJob,
        items: &mut Vec<Self>,
    ) -> Result<(), GoalFault> {
        let said = table_of(alloc, job.job().provides.as_slice())?;
        let links = job.spec().provides.as_slice();
        for link in links {
            let spot = Spot::of(dep, group, job, link);
            push_some(
                provider(alloc, spot, find(&said, link.name.as_bytes()))?,
                items,
            )?;
        }
        Ok(())
    }
}

fn source_of(alloc: Global, from: &Option<Text>) -> Result<Source, CopyFault>
    ensures { IfOk result (λ source. source ≡ named_or_implicit from.now) }
{
    match from {
        None => Ok(Source::Implicit),
        Some(name) => Ok(Source::Named(name.copy(alloc)?)),
    }
}

fn consumer_from(alloc: Global, spot: Spot<'_>, from: Source) -> Result<Consumer, CopyFault>
    ensures { IfOk result (λ consumer. consumer ≡ consumer_from (spot_joint spot.entry) spot.entry.link.now from) }
{
    let kind = spot.link.kind.copy(alloc)?;
    let joint = spot.joint(alloc)?;
    Ok(Consumer {
        joint,
        kind,
        optional: spot.link.optional,
        from,
    })
}

// The consumer of a link of its own deployment, or none of one of another.
fn consumer_by(
    alloc: Global,
    spot: Spot<'_>,
    origin: &Option<Origin>,
) -> Result<Option<Consumer>, CopyFault>
    ensures { IfOk result (λ found. found ≡ consumer_by (spot_joint spot.entry) spot.entry.link.now origin.now) }
{
    let Some(origin) = origin else {
        return Ok(Some(consumer_from(alloc, spot, Source::Blocked)?));
    };
    if origin.deployment.is_some() {
        return Ok(None);
    }
    let from = source_of(alloc, &origin.from)?;
    Ok(Some(consumer_from(alloc, spot, from)?))
}

fn consumer(
    alloc: Global,
    spot: Spot<'_>,
    said: Option<&Consume>,
) -> Result<Option<Consumer>, CopyFault>
    ensures { IfOk result (λ found. found ≡ consumer (spot_joint spot.entry) spot.entry.link.now (option_copied said.entry)) }
{
    match said {
        None => Ok(Some(consumer_from(alloc, spot, Source::Implicit)?)),
        Some(consume) => consumer_by(alloc, spot, &consume.origin),
    }
}

impl OfJob for Consumer {
    ghost use Rattle.bosh_ties.specs.Links.{job_consumers};

    ghost of_job = { job_consumers };

    // Dear to prove: the table is alive where there may be no memory.
    fn add_of_job(
        alloc: Global,
        dep: &Name,
        group: &Name,
        job: &UsedJob,
        items: &mut Vec<Self>,
    ) -> Result<(), GoalFault> {
        let said = table_of(alloc, job.job().consumes.as_slice())?;
        let links = job.spec().consumes.as_slice();
        for link in links {
            let spot = Spot::of(dep, group, job, link);
            push_some(
                consumer(alloc, spot, find(&said, link.name.as_bytes()))?,
                items,
            )?;
        }
        Ok(())
    }
}

fn across_from(
    alloc: Global,
    spot: Spot<'_>,
    from: &Option<Text>,
    dep: &Name,
) -> Result<Across, CopyFault>
    ensures { IfOk result (λ found. across_from (spot_joint spot.entry) spot.entry.link.now from.now (Some dep.now) ≡ Some found) }
{
    let (dep, kind, from) = copy_three(dep, &spot.link.kind, from, alloc)?;
    let consumer = spot.joint(alloc)?;
    Ok(Across {
        consumer,
        kind,
        optional: spot.link.optional,
        dep,
        from,
    })
}

// The consumer of a link of another deployment, or none of one of its own.
fn across_by(
    alloc: Global,
    spot: Spot<'_>,
    origin: &Option<Origin>,
) -> Result<Option<Across>, CopyFault>
    ensures { IfOk result (λ found. found ≡ across_by (spot_joint spot.entry) spot.entry.link.now origin.now) }
{
    let Some(origin) = origin else {
        return Ok(None);
    };
    match &origin.deployment {
        None => Ok(None),
        Some(dep) => Ok(Some(across_from(alloc, spot, &origin.from, dep)?)),
    }
}

fn across(
    alloc: Global,
    spot: Spot<'_>,
    said: Option<&Consume>,
) -> Result<Option<Across>, CopyFault>
    ensures { IfOk result (λ found. found ≡ across (spot_joint spot.entry) spot.entry.link.now (option_copied said.entry)) }
{
    match said {
        None => Ok(None),
        Some(consume) => across_by(alloc, spot, &consume.origin),
    }
}

impl OfJob for Across {
    ghost use Rattle.bosh_ties.specs.Links.{job_across};

    ghost of_job = { job_across };

    // Dear to prove: the table is alive where there may be no memory.
    fn add_of_job(
        alloc: Global,
        dep: &Name,
        group: &Name,
        job: &UsedJob,
        items: &mut Vec<Self>,
    ) -> Result<(), GoalFault> {
        let said = table_of(alloc, job.job().consumes.as_slice())?;
        let links = job.spec().consumes.as_slice();
        for link in links {
            let spot = Spot::of(dep, group, job, link);
            push_some(
                across(alloc, spot, find(&said, link.name.as_bytes()))?,
                items,
            )?;
        }
        Ok(())
    }
}
