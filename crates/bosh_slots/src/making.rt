//! The machines, each with an address of its own.
ghost use Rattle.std.specs.Prelude.{◌≡◌, ◌∷◌, [], IfOk, map, option_map};
ghost use Rattle.std.specs.Option.{option_copied};
ghost use Rattle.bosh_lookup.specs.Table.{first_named};
ghost use Rattle.bosh_slots.specs.Slots.{addrs_for, machine, slot_with, slots, with_addrs};
ghost use Rattle.bosh_manifest_names.specs.Answer.{IsAnswer};
ghost use Rattle.bosh_manifest_names.specs.Uses.{machine_name, machine_properties};

use crate::holding::held_and;
use bosh_base::{Addr, CopyFault, Copyable, Make, Name, NetAddr, Seq, Text, View, copy_three};
use bosh_cloudcfg::{Compilation, Config};
use bosh_manifest_names::GoalFault;
use bosh_pool::{PoolFault, spare};
use std::alloc::{AllocError, Global};

fn properties_of<'a>(config: &'a Config, name: &Name) -> Option<&'a Text>
    ensures { option_copied result ≡ option_map machine_properties (first_named machine_name config.now.vm_types name.now) }
{
    match config.vm_types.iter().find(|kind| kind.name == *name) {
        Some(kind) => Some(&kind.properties),
        None => None,
    }
}

fn machine(alloc: Global, config: &Config) -> Result<Text, CopyFault>
    ensures { IfOk result (λ properties. properties ≡ machine config.now) }
{
    match properties_of(config, &config.compilation.vm_type) {
        Some(properties) => properties.copy(alloc),
        None => Ok(Text::from(Vec::from_slice(alloc, b"null".as_slice())?)),
    }
}

fn on_network(alloc: Global, net: Name, addr: Addr) -> Result<Seq<NetAddr>, AllocError>
    ensures { IfOk result (λ nets. nets ≡ record { net = net; addr = addr } ∷ []) }
{
    let mut nets = Vec::new(alloc);
    nets.push(NetAddr { net, addr })?;
    Ok(Seq::from(nets))
}

fn slot(
    alloc: Global,
    compilation: &Compilation,
    machine: &Text,
    addr: Addr,
) -> Result<Make, CopyFault>
    ensures { IfOk result (λ make. make ≡ slot_with compilation.now machine.now addr) }
{
    let (net, az, vm) = copy_three(&compilation.network, &compilation.az, machine, alloc)?;
    Ok(Make {
        os: Text::from(Vec::new(alloc)),
        version: Text::from(Vec::new(alloc)),
        az,
        vm,
        nets: on_network(alloc, net, addr)?,
    })
}

fn with_machine(
    alloc: Global,
    compilation: &Compilation,
    machine: &Text,
    addrs: &[Addr],
) -> Result<Seq<Make>, CopyFault>
    ensures { IfOk result (λ makes. makes ≡ map (slot_with compilation.now machine.now) addrs.now) }
{
    let mut makes = Vec::new(alloc);
    for addr in addrs {
        makes.push(slot(alloc, compilation, machine, *addr)?)?;
    }
    Ok(Seq::from(makes))
}

fn with_addrs(alloc: Global, config: &Config, addrs: &[Addr]) -> Result<Seq<Make>, GoalFault>
    ensures { IsAnswer result (with_addrs config.now addrs.now) }
{
    if addrs.is_empty() {
        return Err(GoalFault::Pool(PoolFault::Empty {
            net: config.compilation.network.copy(alloc)?,
        }));
    }
    let machine = machine(alloc, config)?;
    Ok(with_machine(alloc, &config.compilation, &machine, addrs)?)
}

fn addrs_for(
    alloc: Global,
    config: &Config,
    keys: usize,
    held: &[Addr],
) -> Result<Seq<Addr>, AllocError>
    ensures { IfOk result (λ addrs. addrs ≡ addrs_for config.now keys held.now) }
{
    let compilation = &config.compilation;
    let most = (compilation.workers as usize).min(keys) as u32;
    spare(
        alloc,
        most,
        &compilation.network,
        &compilation.az,
        &config.plan,
        held,
    )
}

/// The makes of the compile machines for so many keys: as many as there are workers, keys and spare addresses. `own` are the
/// addresses that the goal itself takes. Where there are keys and no address is spare, `Empty` names the network.
pub fn slots(
    alloc: Global,
    config: &Config,
    keys: usize,
    own: &[Addr],
    view: &View,
) -> Result<Seq<Make>, GoalFault>
    ensures { IsAnswer result (slots config.now keys own.now view.now) }
{
    if keys == 0 {
        return Ok(Seq::from(Vec::new(alloc)));
    }
    let held = held_and(alloc, view, own)?;
    let addrs = addrs_for(alloc, config, keys, held.as_slice())?;
    with_addrs(alloc, config, addrs.as_slice())
}
