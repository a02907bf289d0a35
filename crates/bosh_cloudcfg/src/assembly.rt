//! The config that tables make.
ghost use Rattle.std.specs.Prelude.{◌≡◌, ◌++◌, map, unwrap_or, OnOk, Ok, IfOk, IsOkUnless};
ghost use Rattle.std.specs.List.{flat_map};
ghost use Rattle.bosh_cloudcfg.specs.Answer.{IsAnswer};
ghost use Rattle.bosh_cloudcfg.specs.Config.{config_of, network_name, subnet_of, subnets_of, zone_name};
ghost use Rattle.bosh_cloudcfg.specs.declared.fault.ConfigFault.TheVariants.{Memory};

use crate::items::Zone;
use crate::subnet::{NetworkFields, SubnetFields};
use crate::tables::Tables;
use crate::{Config, ConfigFault};
use bosh_base::{Band, Copyable, Name, NetPlan, Seq, Subnet, copy_both};
use std::alloc::{AllocError, Global};

/// What has a name.
trait Titled {
    ghost use Rattle.std.specs.Prelude.{ℕ, List};

    ghost title: { Self → List ℕ };

    fn title(&self) -> &Name
        ensures { result.now ≡ title self.now };
}

impl Titled for Zone {
    ghost use Rattle.bosh_cloudcfg.specs.Config.{zone_name};

    ghost title = { zone_name };

    fn title(&self) -> &Name {
        &self.name
    }
}

impl Titled for NetworkFields {
    ghost use Rattle.bosh_cloudcfg.specs.Config.{network_name};

    ghost title = { network_name };

    fn title(&self) -> &Name {
        &self.name
    }
}

fn titles<T: Titled>(alloc: Global, items: &[T]) -> Result<Seq<Name>, ConfigFault>
    ensures { IsAnswer result (Ok (map T.title items.now)) }
{
    let mut names = Vec::new(alloc);
    for item in items {
        names.push(item.title().copy(alloc)?)?;
    }
    Ok(Seq::from(names))
}

fn copy_bands(
    alloc: Global,
    first: &Seq<Band>,
    second: &Seq<Band>,
) -> Result<(Seq<Band>, Seq<Band>), AllocError>
    ensures { IfOk result (λ both. (both.0 ≡ first.now) × (both.1 ≡ second.now)) }
{
    let copied = Vec::from_slice(alloc, first.as_slice())?;
    let other = Vec::from_slice(alloc, second.as_slice())?;
    Ok((Seq::from(copied), Seq::from(other)))
}

fn zones_of<'a>(fields: &'a SubnetFields, azs: &'a Seq<Name>) -> &'a Seq<Name>
    ensures { result.now ≡ unwrap_or fields.now.azs azs.now }
{
    match &fields.azs {
        Some(listed) => listed,
        None => azs,
    }
}

fn subnet_of(
    alloc: Global,
    azs: &Seq<Name>,
    net: &Name,
    fields: &SubnetFields,
) -> Result<Subnet, ConfigFault>
    ensures { IsAnswer result (Ok (subnet_of azs.now net.now fields.now)) }
{
    let (reserved, fixed) = copy_bands(alloc, &fields.reserved, &fields.fixed)?;
    let (net, azs) = copy_both(net, zones_of(fields, azs), alloc)?;
    Ok(Subnet {
        net,
        range: fields.range,
        gateway: fields.gateway,
        reserved,
        fixed,
        azs,
    })
}

fn add_subnets(
    alloc: Global,
    azs: &Seq<Name>,
    network: &NetworkFields,
    subnets: &mut Vec<Subnet>,
) -> Result<(), ConfigFault>
    ensures ok { OnOk result (subnets.new.items ≡ subnets.old.items ++ subnets_of azs.now network.now) }
    ensures err { IsOkUnless result Memory }
{
    for fields in network.subnets.as_slice() {
        subnets.push(subnet_of(alloc, azs, &network.name, fields)?)?;
    }
    Ok(())
}

fn plan_of(
    alloc: Global,
    azs: &Seq<Name>,
    networks: &[NetworkFields],
) -> Result<NetPlan, ConfigFault>
    ensures ok { IfOk result (λ plan. plan.subnets ≡ flat_map (subnets_of azs.now) networks.now) }
    ensures err { IsOkUnless result Memory }
{
    let mut subnets = Vec::new(alloc);
    for network in networks {
        add_subnets(alloc, azs, network, &mut subnets)?;
    }
    Ok(NetPlan {
        subnets: Seq::from(subnets),
    })
}

// The names of the networks, and their subnets.
fn networks_of(
    alloc: Global,
    azs: &Seq<Name>,
    networks: &[NetworkFields],
) -> Result<(Seq<Name>, NetPlan), ConfigFault>
    ensures ok { IfOk result (λ both. (both.0 ≡ map network_name networks.now)
        × (both.1.subnets ≡ flat_map (subnets_of azs.now) networks.now)) }
    ensures err { IsOkUnless result Memory }
{
    let names = titles(alloc, networks)?;
    Ok((names, plan_of(alloc, azs, networks)?))
}

// The zones, the names of the networks, and their subnets.
fn places_of(
    alloc: Global,
    tables: &Tables,
) -> Result<(Seq<Name>, (Seq<Name>, NetPlan)), ConfigFault>
    ensures ok { IfOk result (λ all. (all.0 ≡ map zone_name tables.now.azs)
        × (all.1.0 ≡ map network_name tables.now.networks)
        × (all.1.1.subnets ≡ flat_map (subnets_of (map zone_name tables.now.azs)) tables.now.networks)) }
    ensures err { IsOkUnless result Memory }
{
    let azs = titles(alloc, tables.azs.as_slice())?;
    let networks = networks_of(alloc, &azs, tables.networks.as_slice())?;
    Ok((azs, networks))
}

/// The config that tables make.
pub(crate) fn config_of(alloc: Global, tables: Tables) -> Result<Config, ConfigFault>
    ensures { IsAnswer result (Ok (config_of tables)) }
{
    let (azs, (networks, plan)) = places_of(alloc, &tables)?;
    let Tables {
        azs: _,
        networks: _,
        vm_types,
        disk_types,
        compilation,
    } = tables;
    Ok(Config {
        azs,
        networks,
        plan,
        vm_types,
        disk_types,
        compilation,
    })
}
