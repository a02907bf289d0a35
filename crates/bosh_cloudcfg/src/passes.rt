//! What is looked for in a config once its tables are read.
ghost use Rattle.std.specs.Prelude.{◌≡◌, not, find, None, Some, option_map, if◌then◌else◌};
ghost use Rattle.std.specs.List.{list_any};
ghost use Rattle.std.specs.Option.{option_copied};
ghost use Rattle.bosh_base.specs.Plan.{is_listed};
ghost use Rattle.bosh_cloudcfg.specs.Answer.{IsTest};
ghost use Rattle.bosh_cloudcfg.specs.Passes.{first_fault, first_in, have_common, is_vm_type, out_of_place, overlap, unknown_name, unknown_zone, unless_known};
ghost use Rattle.bosh_cloudcfg.specs.declared.fault.ConfigFault.TheVariants.{Overlap};

use crate::place::{outside_range, static_reserved};
use crate::{Config, ConfigFault, VmKind};
use bosh_base::{Band, Copyable, Name, Seq, Subnet};
use std::alloc::Global;

fn is_listed(name: &Name, names: &Seq<Name>) -> bool
    ensures { result ≡ is_listed name.now names.now }
{
    names.iter().any(|listed| *listed == *name)
}

fn is_vm_type(name: &Name, kinds: &Seq<VmKind>) -> bool
    ensures { result ≡ is_vm_type name.now kinds.now }
{
    kinds.iter().any(|kind| kind.name == *name)
}

// Refuses a name that is not known.
fn check_known(alloc: Global, known: bool, name: &Name) -> Result<(), ConfigFault>
    ensures { IsTest result (unless_known known name.now) }
{
    if known {
        return Ok(());
    }
    let name = Seq::from(Vec::from_slice(alloc, name.as_bytes())?);
    Err(ConfigFault::Unknown { name })
}

// The first zone of a subnet that is none of the config's.
fn unknown_zone<'a>(azs: &Seq<Name>, subnet: &'a Subnet) -> Option<&'a Name>
    ensures { option_copied result ≡ find (λ az. not (is_listed az azs.now)) subnet.now.azs }
{
    subnet.azs.iter().find(|az| !is_listed(az, azs))
}

fn check_zones(alloc: Global, azs: &Seq<Name>, subnet: &Subnet) -> Result<(), ConfigFault>
    ensures { IsTest result (unknown_zone azs.now subnet.now) }
{
    match unknown_zone(azs, subnet) {
        Some(az) => check_known(alloc, false, az),
        None => Ok(()),
    }
}

fn check_all_zones(alloc: Global, azs: &Seq<Name>, subnets: &[Subnet]) -> Result<(), ConfigFault>
    ensures { IsTest result (first_in (unknown_zone azs.now) subnets.now) }
{
    for subnet in subnets {
        check_zones(alloc, azs, subnet)?;
    }
    Ok(())
}

fn check_names(alloc: Global, config: &Config) -> Result<(), ConfigFault>
    ensures { IsTest result (unknown_name config.now) }
{
    let wanted = &config.compilation;
    check_all_zones(alloc, &config.azs, config.plan.subnets.as_slice())?;
    check_known(alloc, is_listed(&wanted.az, &config.azs), &wanted.az)?;
    let vm_type = &wanted.vm_type;
    check_known(alloc, is_vm_type(vm_type, &config.vm_types), vm_type)?;
    let network = &wanted.network;
    check_known(alloc, is_listed(network, &config.networks), network)
}

fn check_place(alloc: Global, subnet: &Subnet) -> Result<(), ConfigFault>
    ensures { IsTest result (out_of_place subnet.now) }
{
    if let Some(addr) = outside_range(subnet) {
        return Err(ConfigFault::OutsideRange { addr });
    }
    match static_reserved(alloc, subnet)? {
        Some(addr) => Err(ConfigFault::StaticReserved { addr }),
        None => Ok(()),
    }
}

fn check_places(alloc: Global, subnets: &[Subnet]) -> Result<(), ConfigFault>
    ensures { IsTest result (first_in out_of_place subnets.now) }
{
    for subnet in subnets {
        check_place(alloc, subnet)?;
    }
    Ok(())
}

fn have_common(one: Band, other: Band) -> bool
    ensures { result ≡ have_common one other }
{
    one.first.0 <= other.last.0 && other.first.0 <= one.last.0
}

// Whether a range has an address in common with that of some subnet.
fn meets_some(range: Band, others: &[Subnet]) -> bool
    ensures { result ≡ list_any (λ other. have_common range other.range) others.now }
{
    others.iter().any(|other| have_common(range, other.range))
}

fn overlap(subnets: &[Subnet]) -> bool
    ensures { result ≡ overlap subnets.now }
{
    for (i, subnet) in subnets.iter().enumerate() {
        if meets_some(subnet.range, &subnets[i + 1..]) {
            return true;
        }
    }
    false
}

fn check_apart(subnets: &[Subnet]) -> Result<(), ConfigFault>
    ensures { IsTest result (if overlap subnets.now then Some Overlap else None) }
{
    if overlap(subnets) {
        Err(ConfigFault::Overlap)
    } else {
        Ok(())
    }
}

/// Refuses a config with a fault, with the first.
pub(crate) fn check_config(alloc: Global, config: &Config) -> Result<(), ConfigFault>
    ensures { IsTest result (first_fault config.now) }
{
    let subnets = config.plan.subnets.as_slice();
    check_names(alloc, config)?;
    check_places(alloc, subnets)?;
    check_apart(subnets)
}
