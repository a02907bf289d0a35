//! What jobs offer.
ghost use Rattle.std.specs.Prelude.{◌≡◌, ◌++◌, IfOk, None, OnOk, cond, option_map};
ghost use Rattle.std.specs.Option.{option_copied};
ghost use Rattle.bosh_lookup.specs.Table.{IsTable};
ghost use Rattle.bosh_ties.specs.Links.{provider};
ghost use Rattle.bosh_ties.specs.Spot.{spot_joint};
ghost use Rattle.bosh_offers.specs.Offers.{giving, group_offers, is_chosen, job_offers, link_props, offer_of, offers};
ghost use Rattle.bosh_offers.specs.Sited.{gateway_addrs};

use crate::Sited;
use crate::properties::{giving, link_props};
use crate::pushing::push_some;
use bosh_base::{Addr, CopyFault, Copyable, LinkSpec, Name, Offer, Prop, Seq, Text};
use bosh_links::Provider;
use bosh_lookup::{Table, find, table_of};
use bosh_manifest_names::UsedJob;
use bosh_manifest_parts::Provide;
use bosh_template::JobEnv;
use bosh_ties::{Spot, provider};
use std::alloc::Global;

/// Which offers are meant.
#[derive(Clone, Copy)]
pub enum Choice {
    /// All that jobs offer.
    All,
    /// What other deployments may take.
    Shared,
}

fn is_chosen(choice: Choice, said: Option<&Provide>) -> bool
    ensures { result ≡ is_chosen choice (option_copied said.entry) }
{
    match (choice, said) {
        (Choice::All, _) => true,
        (Choice::Shared, None) => false,
        (Choice::Shared, Some(said)) => match &said.offering {
            None => false,
            Some(offering) => offering.shared,
        },
    }
}

// The properties that a link lists, and those of them that have a value.
fn properties_of(
    alloc: Global,
    job: &JobEnv,
    link: &LinkSpec,
) -> Result<(Seq<Text>, Seq<Prop>), CopyFault>
    ensures { IfOk result (λ both. both ≡ (link.now.properties, link_props job.now link.now)) }
{
    let listed = link.properties.copy(alloc)?;
    Ok((listed, link_props(alloc, job, link)?))
}

// What a link gives beside them: the addresses of the instances.
fn gifts(
    alloc: Global,
    group: &Sited,
    job: &JobEnv,
    link: &LinkSpec,
) -> Result<(Seq<Addr>, (Seq<Text>, Seq<Prop>)), CopyFault>
    ensures { IfOk result (λ all. all
        ≡ (gateway_addrs group.now, (link.now.properties, link_props job.now link.now))) }
{
    let addrs = group.gateway_addrs(alloc)?;
    Ok((addrs, properties_of(alloc, job, link)?))
}

fn offer_of(
    alloc: Global,
    group: &Sited,
    job: &JobEnv,
    link: &LinkSpec,
    found: Provider,
) -> Result<Offer, CopyFault>
    ensures { IfOk result (λ offer. offer ≡ offer_of group.now job.now link.now found) }
{
    let (addrs, (listed, properties)) = gifts(alloc, group, job, link)?;
    Ok(Offer {
        joint: found.joint,
        kind: found.kind,
        public_name: found.public_name,
        addrs,
        listed,
        properties,
    })
}

fn offered(
    alloc: Global,
    group: &Sited,
    job: &JobEnv,
    spot: Spot<'_>,
    said: Option<&Provide>,
) -> Result<Option<Offer>, CopyFault>
    ensures { IfOk result (λ offer. offer
        ≡ option_map (offer_of group.now job.now spot.entry.link.now)
        (provider (spot_joint spot.entry) spot.entry.link.now (option_copied said.entry))) }
{
    match provider(alloc, spot, said)? {
        None => Ok(None),
        Some(found) => Ok(Some(offer_of(alloc, group, job, spot.link, found)?)),
    }
}

fn chosen(
    alloc: Global,
    choice: Choice,
    group: &Sited,
    job: &JobEnv,
    spot: Spot<'_>,
    said: Option<&Provide>,
) -> Result<Option<Offer>, CopyFault>
    ensures { IfOk result (λ offer. offer
        ≡ cond (is_chosen choice (option_copied said.entry))
        (option_map (offer_of group.now job.now spot.entry.link.now)
        (provider (spot_joint spot.entry) spot.entry.link.now (option_copied said.entry)))
        None) }
{
    if is_chosen(choice, said) {
        offered(alloc, group, job, spot, said)
    } else {
        Ok(None)
    }
}

fn add_links<'a>(
    alloc: Global,
    choice: Choice,
    dep: &'a Name,
    group: &Sited<'a, '_>,
    used: &UsedJob<'a>,
    job: &JobEnv<'a, 'a>,
    said: &Table<'a, &'a Provide>,
    offers: &mut Vec<Offer>,
) -> Result<(), CopyFault>
    requires job { job.now ≡ giving dep.now group.now.used.group.name used.now }
    requires said { IsTable (λ provide. provide.link) used.now.job.provides said.now }
    ensures { OnOk result (offers.new.items ≡ offers.old.items ++ job_offers choice dep.now group.now used.now) }
{
    let name = &group.used().group().name;
    let links = used.spec().provides.as_slice();
    for link in links {
        let spot = Spot::of(dep, name, used, link);
        let provide = find(said, link.name.as_bytes());
        push_some(chosen(alloc, choice, group, job, spot, provide)?, offers)?;
    }
    Ok(())
}

fn add_job<'a>(
    alloc: Global,
    choice: Choice,
    dep: &'a Name,
    group: &Sited<'a, '_>,
    used: &UsedJob<'a>,
    offers: &mut Vec<Offer>,
) -> Result<(), CopyFault>
    ensures { OnOk result (offers.new.items ≡ offers.old.items ++ job_offers choice dep.now group.now used.now) }
{
    let job = giving(alloc, dep, &group.used().group().name, used)?;
    let said = table_of(alloc, used.job().provides.as_slice())?;
    add_links(alloc, choice, dep, group, used, &job, &said, offers)
}

fn add_group<'a>(
    alloc: Global,
    choice: Choice,
    dep: &'a Name,
    group: &Sited<'a, '_>,
    offers: &mut Vec<Offer>,
) -> Result<(), CopyFault>
    ensures { OnOk result (offers.new.items ≡ offers.old.items ++ group_offers choice dep.now group.now) }
{
    let jobs = group.used().jobs();
    for used in jobs {
        add_job(alloc, choice, dep, group, used, offers)?;
    }
    Ok(())
}

/// What the jobs of a deployment offer by the links that they provide, in the order of the manifest: the addresses of the
/// provider's instances by index, and those of the properties that the link lists which have a value.
pub fn offers<'a>(
    alloc: Global,
    choice: Choice,
    dep: &'a Name,
    groups: &[Sited<'a, '_>],
) -> Result<Seq<Offer>, CopyFault>
    ensures { IfOk result (λ all. all ≡ offers choice dep.now groups.now) }
{
    let mut all = Vec::new(alloc);
    for group in groups {
        add_group(alloc, choice, dep, group, &mut all)?;
    }
    Ok(Seq::from(all))
}
