//! The addresses that the instances of a deployment need.
ghost use Rattle.std.specs.Prelude.{◌≡◌, ◌++◌, ◌≤◌, All, IfOk, OnOk, length, map};
ghost use Rattle.bosh_manifest.specs.Sound.{IsSoundGroup};
ghost use Rattle.bosh_wants.specs.Statics.{addr_in};
ghost use Rattle.bosh_wants.specs.Wants.{group_wants, instance_wants, wants};
ghost use Rattle.bosh_wants.specs.Zones.{inst_of};

use crate::statics::addr_in;
use crate::zone::zone_of;
use bosh_base::{CopyFault, Inst, Name, Row, copy_four};
use bosh_manifest::Group;
use bosh_manifest_parts::NetUse;
use bosh_pool::Want;
use std::alloc::Global;

fn want_at(
    alloc: Global,
    dep: &Name,
    group: &Group,
    index: u32,
    az: &Name,
    network: &NetUse,
) -> Result<Want, CopyFault>
    ensures { IfOk result (λ want. want ≡ record {
      inst = inst_of dep.now group.now index;
      net = network.now.net;
      az = az.now;
      fixed = addr_in network.now.fixed index;
    }) }
{
    let fixed = addr_in(network.fixed.as_slice(), index);
    let (dep, group, net, az) = copy_four(dep, &group.name, &network.net, az, alloc)?;
    Ok(Want {
        inst: Inst { dep, group, index },
        net,
        az,
        fixed,
    })
}

fn add_instance(
    alloc: Global,
    dep: &Name,
    rows: &[Row],
    group: &Group,
    index: u32,
    wants: &mut Vec<Want>,
) -> Result<(), CopyFault>
    requires { 1 ≤ length group.now.azs }
    ensures { OnOk result (wants.new.items ≡ wants.old.items ++ instance_wants dep.now rows.now group.now index) }
{
    let az = zone_of(rows, dep, group, index);
    let networks = group.networks.as_slice();
    for network in networks {
        wants.push(want_at(alloc, dep, group, index, az, network)?)?;
    }
    Ok(())
}

fn add_group(
    alloc: Global,
    dep: &Name,
    rows: &[Row],
    group: &Group,
    wants: &mut Vec<Want>,
) -> Result<(), CopyFault>
    requires { 1 ≤ length group.now.azs }
    ensures { OnOk result (wants.new.items ≡ wants.old.items ++ group_wants dep.now rows.now group.now) }
{
    for index in 0..group.instances {
        add_instance(alloc, dep, rows, group, index, wants)?;
    }
    Ok(())
}

/// The addresses that the instances of these groups need, by group, by index and by network.
pub fn wants(
    alloc: Global,
    dep: &Name,
    rows: &[Row],
    groups: &[Group],
) -> Result<Vec<Want>, CopyFault>
    requires { All IsSoundGroup groups.now }
    ensures { IfOk result (λ all. all.items ≡ wants dep.now rows.now groups.now) }
{
    let mut wants = Vec::new(alloc);
    for group in groups {
        add_group(alloc, dep, rows, group, &mut wants)?;
    }
    Ok(wants)
}
