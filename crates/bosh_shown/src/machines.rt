ghost use Rattle.std.specs.Prelude.{◌≡◌, ◌++◌, IfOk, OnOk, filter_map, map, option_map};
ghost use Rattle.std.specs.Option.{option_copied, option_to_list};
ghost use Rattle.bosh_shown.specs.Cloud.{has_disk, held_disk, machine_line, machine_lines};

use bosh_base::{
    Addr, CopyFault, HeldDisk, Machine, MachineLine, Name, NetAddr, Owner, Seq, copy_both,
};
use std::alloc::{AllocError, Global};

/// The addresses on networks, in their order.
pub(crate) fn addresses(alloc: Global, nets: &[NetAddr]) -> Result<Seq<Addr>, AllocError>
    ensures { IfOk result (λ addrs. addrs ≡ map (λ net. net.addr) nets.now) }
{
    let mut addrs = Vec::new(alloc);
    for net in nets {
        addrs.push(net.addr)?;
    }
    Ok(Seq::from(addrs))
}

fn has_disk(disks: &[u64], disk: u64) -> bool
    ensures { result ≡ has_disk disks.now disk }
{
    disks.iter().any(|other| *other == disk)
}

fn held_disks(alloc: Global, machine: &Machine) -> Result<Seq<HeldDisk>, AllocError>
    ensures { IfOk result (λ disks. disks ≡ map (held_disk machine.now) machine.now.attached) }
{
    let mut disks = Vec::new(alloc);
    for disk in machine.attached.as_slice() {
        disks.push(HeldDisk {
            disk: *disk,
            mounted: has_disk(machine.mounted.as_slice(), *disk),
        })?;
    }
    Ok(Seq::from(disks))
}

fn held(alloc: Global, machine: &Machine) -> Result<(Seq<Addr>, Seq<HeldDisk>), AllocError>
    ensures { IfOk result (λ both. (both.0 ≡ map (λ net. net.addr) machine.now.make.nets)
        × (both.1 ≡ map (held_disk machine.now) machine.now.attached)) }
{
    let addrs = addresses(alloc, machine.make.nets.as_slice())?;
    Ok((addrs, held_disks(alloc, machine)?))
}

fn named(alloc: Global, machine: &Machine) -> Result<(Owner, Name), CopyFault>
    ensures { IfOk result (λ both. (both.0 ≡ machine.now.owner) × (both.1 ≡ machine.now.make.az)) }
{
    copy_both(&machine.owner, &machine.make.az, alloc)
}

fn machine_line(alloc: Global, machine: &Machine) -> Result<MachineLine, CopyFault>
    ensures { IfOk result (λ line. line ≡ machine_line machine.now) }
{
    let (addrs, disks) = held(alloc, machine)?;
    let (owner, az) = named(alloc, machine)?;
    Ok(MachineLine {
        vm: machine.vm,
        owner,
        az,
        addrs,
        running: machine.running,
        disks,
    })
}

fn push_line(
    alloc: Global,
    machine: Option<&Machine>,
    lines: &mut Vec<MachineLine>,
) -> Result<(), CopyFault>
    ensures { OnOk result (lines.new.items ≡ lines.old.items
        ++ option_to_list (option_map machine_line (option_copied machine.entry))) }
{
    if let Some(machine) = machine {
        lines.push(machine_line(alloc, machine)?)?;
    }
    Ok(())
}

/// The machines that stand in slots.
pub(crate) fn machine_lines(
    alloc: Global,
    slots: &[Option<Machine>],
) -> Result<Seq<MachineLine>, CopyFault>
    ensures { IfOk result (λ lines. lines ≡ machine_lines slots.now) }
{
    let mut lines = Vec::new(alloc);
    for slot in slots {
        push_line(alloc, slot.as_ref(), &mut lines)?;
    }
    Ok(Seq::from(lines))
}
