//! What a manifest uses.
ghost use Rattle.std.specs.Prelude.{◌≡◌, List, ℕ, not, find, map, true, option_map};
ghost use Rattle.std.specs.Option.{option_copied};
ghost use Rattle.bosh_base.specs.Plan.{is_listed};
ghost use Rattle.bosh_base.specs.declared.release.Release.{Release};
ghost use Rattle.bosh_base.specs.declared.stemcell.Stemcell.{Stemcell};
ghost use Rattle.bosh_manifest_names.specs.Answer.{IsAnswer, IsAnswerSeen, each};
ghost use Rattle.bosh_manifest_names.specs.Disk.{want_of};
ghost use Rattle.bosh_manifest_names.specs.Sources.{AreReleases, AreSources};
ghost use Rattle.bosh_lookup.specs.Table.{first_named};
ghost use Rattle.bosh_manifest_names.specs.Uses.{all_known, disk_name, disk_of_type, disk_want, machine_name, machine_properties, net_name, used_disk, used_group, used_job, used_machine, uses};
ghost use Rattle.bosh_manifest_names.specs.declared.fault.Kind.TheVariants as kinds;

use crate::known::{known, none_unknown};
use crate::sources::Sources;
use crate::used::UsedDisk;
use crate::{GoalFault, Kind, UsedGroup, UsedJob};
use bosh_base::{DiskWant, Name, Release, Seq, Stemcell, Text};
use bosh_cloudcfg::Config;
use bosh_manifest::{Group, Manifest};
use bosh_manifest_parts::{DiskUse, JobUse, NetUse};
use std::alloc::Global;

fn is_listed(name: &Name, names: &Seq<Name>) -> bool
    ensures { result ≡ is_listed name.now names.now }
{
    names.iter().any(|listed| *listed == *name)
}

// The first of a group's zones that the config does not have.
fn unknown_zone<'a>(config: &Config, zones: &'a [Name]) -> Option<&'a Name>
    ensures { option_copied result ≡ find (λ name. not (is_listed name config.now.azs)) zones.now }
{
    zones.iter().find(|name| !is_listed(name, &config.azs))
}

// The first of a group's networks that the config does not have.
fn unknown_network<'a>(config: &Config, networks: &'a [NetUse]) -> Option<&'a NetUse>
    ensures { option_copied result ≡ find (λ network. not (is_listed network.net config.now.networks)) networks.now }
{
    networks
        .iter()
        .find(|network| !is_listed(&network.net, &config.networks))
}

fn unknown_net_name<'a>(config: &Config, networks: &'a [NetUse]) -> Option<&'a Name>
    ensures { option_copied result
        ≡ find (λ name. not (is_listed name config.now.networks)) (map net_name networks.now) }
{
    match unknown_network(config, networks) {
        Some(network) => Some(&network.net),
        None => None,
    }
}

fn check_zones(alloc: Global, config: &Config, group: &Group) -> Result<(), GoalFault>
    ensures { IsAnswerSeen (λ _. true) result (all_known kinds.Az config.now.azs group.now.azs) }
{
    none_unknown(alloc, Kind::Az, unknown_zone(config, group.azs.as_slice()))
}

fn check_networks(alloc: Global, config: &Config, group: &Group) -> Result<(), GoalFault>
    ensures { IsAnswerSeen (λ _. true) result
        (all_known kinds.Network config.now.networks (map net_name group.now.networks)) }
{
    none_unknown(
        alloc,
        Kind::Network,
        unknown_net_name(config, group.networks.as_slice()),
    )
}

fn machine_of<'a>(config: &'a Config, name: &Name) -> Option<&'a Text>
    ensures { option_copied result ≡ option_map machine_properties (first_named machine_name config.now.vm_types name.now) }
{
    match config.vm_types.iter().find(|kind| kind.name == *name) {
        Some(kind) => Some(&kind.properties),
        None => None,
    }
}

fn used_machine<'a>(alloc: Global, config: &'a Config, name: &Name) -> Result<&'a Text, GoalFault>
    ensures { IsAnswerSeen (λ machine. machine.now) result (used_machine config.now name.now) }
{
    known(alloc, Kind::VmType, name, machine_of(config, name))
}

fn disk_named<'a>(config: &'a Config, name: &Name) -> Option<&'a DiskWant>
    ensures { option_copied result ≡ option_map disk_want (first_named disk_name config.now.disk_types name.now) }
{
    match config.disk_types.iter().find(|kind| kind.name == *name) {
        Some(kind) => Some(&kind.want),
        None => None,
    }
}

fn disk_of_type<'a>(
    alloc: Global,
    config: &'a Config,
    name: &Name,
) -> Result<&'a DiskWant, GoalFault>
    ensures { IsAnswerSeen (λ want. want.now) result (disk_of_type config.now name.now) }
{
    known(alloc, Kind::DiskType, name, disk_named(config, name))
}

fn used_disk<'a>(
    alloc: Global,
    config: &'a Config,
    disk: &Option<DiskUse>,
) -> Result<Option<UsedDisk<'a>>, GoalFault>
    ensures { IsAnswerSeen (option_map want_of) result (used_disk config.now disk.now) }
{
    match disk {
        None => Ok(None),
        Some(DiskUse::Size(size)) => Ok(Some(UsedDisk::Size(*size))),
        Some(DiskUse::Kind(name)) => Ok(Some(UsedDisk::Typed(disk_of_type(alloc, config, name)?))),
    }
}

fn used_job<'a>(
    alloc: Global,
    sources: &Sources<'a>,
    asked: &'a JobUse,
) -> Result<UsedJob<'a>, GoalFault>
    ensures { (releases : List Release) → AreReleases releases sources.now.releases
        → IsAnswer result (used_job releases asked.now) }
{
    let listed = sources.release(alloc, &asked.release)?;
    let spec = listed.job(alloc, &asked.name)?;
    Ok(UsedJob::new(asked, listed.release(), spec))
}

fn used_jobs<'a>(
    alloc: Global,
    sources: &Sources<'a>,
    asked: &'a [JobUse],
) -> Result<Seq<UsedJob<'a>>, GoalFault>
    ensures { (releases : List Release) → AreReleases releases sources.now.releases
        → IsAnswer result (each (used_job releases) asked.now) }
{
    let mut jobs = Vec::new(alloc);
    for job in asked {
        jobs.push(used_job(alloc, sources, job)?)?;
    }
    Ok(Seq::from(jobs))
}

// Dear to prove: one of six names may be unknown.
fn used_group<'a>(
    alloc: Global,
    config: &'a Config,
    sources: &Sources<'a>,
    group: &'a Group,
) -> Result<UsedGroup<'a>, GoalFault>
    ensures { (listed : List Release × List (List ℕ × Stemcell)) → AreSources listed sources.now
        → IsAnswer result (used_group config.now listed.0 listed.1 group.now) }
{
    check_zones(alloc, config, group)?;
    let machine = used_machine(alloc, config, &group.vm_type)?;
    let stemcell = sources.stemcell(alloc, &group.stemcell)?;
    check_networks(alloc, config, group)?;
    let disk = used_disk(alloc, config, &group.disk)?;
    let jobs = used_jobs(alloc, sources, group.jobs.as_slice())?;
    Ok(UsedGroup::new(group, stemcell, machine, disk, jobs))
}

fn used_groups<'a>(
    alloc: Global,
    config: &'a Config,
    sources: &Sources<'a>,
    groups: &'a [Group],
) -> Result<Seq<UsedGroup<'a>>, GoalFault>
    ensures { (listed : List Release × List (List ℕ × Stemcell)) → AreSources listed sources.now
        → IsAnswer result (each (used_group config.now listed.0 listed.1) groups.now) }
{
    let mut used = Vec::new(alloc);
    for group in groups {
        used.push(used_group(alloc, config, sources, group)?)?;
    }
    Ok(Seq::from(used))
}

/// What the groups of a manifest use, of what is uploaded and what the cloud config has. The refusal is that of the first
/// name that is not known: the releases come first, then the stemcells, then each group, and in a group its zones, its
/// type of machines, its stemcell, its networks, its type of disk and its jobs, each with its release and its name.
pub fn uses<'a>(
    alloc: Global,
    manifest: &'a Manifest,
    config: &'a Config,
    releases: &'a [Release],
    stemcells: &'a [Stemcell],
) -> Result<Seq<UsedGroup<'a>>, GoalFault>
    ensures { IsAnswer result (uses manifest.now config.now releases.now stemcells.now) }
{
    let contents = manifest.contents();
    let sources = Sources::of(
        alloc,
        releases,
        stemcells,
        contents.releases.as_slice(),
        contents.stemcells.as_slice(),
    )?;
    used_groups(alloc, config, &sources, contents.groups.as_slice())
}
