//! What the machine of an instance is made from.
ghost use Rattle.std.specs.Prelude.{◌≡◌, IfOk};
ghost use Rattle.bosh_instances.specs.Machines.{make_of, net_addrs};

use bosh_base::{Addr, CopyFault, Copyable, Make, Name, NetAddr, Seq, Text, copy_three};
use bosh_manifest_names::UsedGroup;
use bosh_manifest_parts::NetUse;
use std::alloc::Global;

fn net_addr(alloc: Global, network: &NetUse, addr: Addr) -> Result<NetAddr, CopyFault>
    ensures { IfOk result (λ it. it ≡ record { net = network.now.net; addr = addr }) }
{
    Ok(NetAddr {
        net: network.net.copy(alloc)?,
        addr,
    })
}

// An address a network.
fn net_addrs(alloc: Global, networks: &[NetUse], own: &[Addr]) -> Result<Seq<NetAddr>, CopyFault>
    ensures { IfOk result (λ addrs. addrs ≡ net_addrs networks.now own.now) }
{
    let mut addrs = Vec::new(alloc);
    for place in 0..networks.len().min(own.len()) {
        addrs.push(net_addr(alloc, &networks[place], own[place])?)?;
    }
    Ok(Seq::from(addrs))
}

// The version and the cloud properties of a machine, and its zone.
fn parts(alloc: Global, used: &UsedGroup, az: &Name) -> Result<(Text, Text, Name, Text), CopyFault>
    ensures { IfOk result (λ all. all
        ≡ (used.now.stemcell.os, used.now.stemcell.version, az.now, used.now.machine)) }
{
    let stemcell = used.stemcell();
    let (version, az, vm) = copy_three(&stemcell.version, az, used.machine(), alloc)?;
    let os = Text::from(Vec::from_slice(alloc, stemcell.os.as_bytes())?);
    Ok((os, version, az, vm))
}

/// What a machine of a group is made from in an availability zone, with the addresses of its instance.
pub(crate) fn make_of(
    alloc: Global,
    used: &UsedGroup,
    az: &Name,
    own: &[Addr],
) -> Result<Make, CopyFault>
    ensures { IfOk result (λ make. make ≡ make_of used.now az.now own.now) }
{
    let nets = net_addrs(alloc, used.group().networks.as_slice(), own)?;
    let (os, version, az, vm) = parts(alloc, used, az)?;
    Ok(Make {
        os,
        version,
        az,
        vm,
        nets,
    })
}
