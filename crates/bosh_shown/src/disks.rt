ghost use Rattle.std.specs.Prelude.{◌≡◌, ◌∷◌, ◌++◌, [], ℕ, IfOk, OnOk, option_map};
ghost use Rattle.std.specs.BTreeMap.{get};
ghost use Rattle.std.specs.Option.{option_copied, option_or, option_to_list};
ghost use Rattle.std.specs.Ordering.{nat_cmp};
ghost use Rattle.bosh_shown.specs.Cloud.{AreHolders, disk_line, disk_lines, held_by, holder, holder_in};

use bosh_base::{CloudDiskLine, CopyFault, Copyable, Disk, Machine, Seq};
use std::alloc::{AllocError, Global};
use std::collections::BTreeMap;

/// Which machine a disk is attached to, by number.
type Holders = BTreeMap<u64, u64>;

// Notes the machine of a disk, where none is noted.
fn hold(holders: &mut Holders, disk: u64, vm: u64) -> Result<(), AllocError>
    ensures { OnOk result ((d : ℕ) → get nat_cmp holders.new d
        ≡ option_or (get nat_cmp holders.old d) (held_by vm disk d)) }
{
    if !holders.contains_key(&disk) {
        holders.insert(disk, vm)?;
    }
    Ok(())
}

fn hold_disks(holders: &mut Holders, disks: &[u64], vm: u64) -> Result<(), AllocError>
    ensures { OnOk result ((d : ℕ) → get nat_cmp holders.new d
        ≡ option_or (get nat_cmp holders.old d) (holder_in vm disks.now d)) }
{
    for disk in disks {
        hold(holders, *disk, vm)?;
    }
    Ok(())
}

fn hold_slot(holders: &mut Holders, slot: &Option<Machine>) -> Result<(), AllocError>
    ensures { OnOk result ((d : ℕ) → get nat_cmp holders.new d
        ≡ option_or (get nat_cmp holders.old d) (holder (slot.now ∷ []) d)) }
{
    match slot {
        Some(machine) => hold_disks(holders, machine.attached.as_slice(), machine.vm),
        None => Ok(()),
    }
}

// The first machine of slots that each disk is attached to.
fn holders_of(alloc: Global, slots: &[Option<Machine>]) -> Result<Holders, AllocError>
    ensures { IfOk result (AreHolders slots.now) }
{
    let mut holders = BTreeMap::new(alloc);
    for slot in slots {
        hold_slot(&mut holders, slot)?;
    }
    Ok(holders)
}

fn holder(holders: &Holders, disk: u64) -> Option<u64>
    ensures { result ≡ get nat_cmp holders.now disk }
{
    holders.get(&disk).copied()
}

fn disk_line(alloc: Global, disk: &Disk, vm: Option<u64>) -> Result<CloudDiskLine, CopyFault>
    ensures { IfOk result (λ line. line ≡ disk_line disk.now vm) }
{
    Ok(CloudDiskLine {
        disk: disk.disk,
        owner: disk.owner.copy(alloc)?,
        size: disk.want.size,
        vm,
    })
}

fn push_line(
    alloc: Global,
    holders: &Holders,
    disk: Option<&Disk>,
    lines: &mut Vec<CloudDiskLine>,
) -> Result<(), CopyFault>
    ensures { OnOk result (lines.new.items ≡ lines.old.items
        ++ option_to_list (option_map (λ it. disk_line it (get nat_cmp holders.now it.disk)) (option_copied disk.entry))) }
{
    if let Some(disk) = disk {
        let vm = holder(holders, disk.disk);
        lines.push(disk_line(alloc, disk, vm)?)?;
    }
    Ok(())
}

/// The disks that stand in slots, each with the first of the machines that it is attached to.
pub(crate) fn disk_lines(
    alloc: Global,
    machines: &[Option<Machine>],
    slots: &[Option<Disk>],
) -> Result<Seq<CloudDiskLine>, CopyFault>
    ensures { IfOk result (λ lines. lines ≡ disk_lines machines.now slots.now) }
{
    let holders = holders_of(alloc, machines)?;
    let mut lines = Vec::new(alloc);
    for slot in slots {
        push_line(alloc, &holders, slot.as_ref(), &mut lines)?;
    }
    Ok(Seq::from(lines))
}
