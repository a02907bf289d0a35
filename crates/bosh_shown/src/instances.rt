ghost use Rattle.std.specs.Prelude.{◌≡◌, ◌++◌, IfOk, OnOk, map, option_map};
ghost use Rattle.std.specs.Option.{option_copied, option_to_list};
ghost use Rattle.bosh_shown.specs.Instances.{active, instance_line, instance_lines, is_active, placed, row_in, shown};

use crate::machines::addresses;
use bosh_base::{
    Addr, CopyFault, Copyable, DiskRow, Inst, InstanceLine, Make, Name, Role, Row, Seq, Shown,
    copy_both,
};
use bosh_records::{Instance, Records};
use std::alloc::Global;

// The first that holds: a call is in doubt, there is no machine, it runs, it is stopped.
fn shown(row: &Row) -> Shown
    ensures { result ≡ shown row.now }
{
    if row.doubt.is_some() {
        return Shown::Doubt;
    }
    if row.vm.is_none() {
        return Shown::Absent;
    }
    if row.running {
        Shown::Running
    } else {
        Shown::Stopped
    }
}

fn is_active(role: Role) -> bool
    ensures { result ≡ is_active role }
{
    matches!(role, Role::Active)
}

// The disk that holds the contents.
fn active(disks: &[DiskRow]) -> Option<u64>
    ensures { result ≡ active disks.now }
{
    Some(disks.iter().find(|it| is_active(it.role))?.disk)
}

// The group, and where its machine stands by what it was made from.
fn placed(
    alloc: Global,
    group: &Name,
    make: Option<&Make>,
) -> Result<(Name, Option<Name>, Seq<Addr>), CopyFault>
    ensures { IfOk result (λ all. all ≡ placed group.now (option_copied make.entry)) }
{
    match make {
        Some(make) => placed_by(alloc, group, make),
        None => Ok((group.copy(alloc)?, None, Seq::new(alloc))),
    }
}

fn placed_by(
    alloc: Global,
    group: &Name,
    make: &Make,
) -> Result<(Name, Option<Name>, Seq<Addr>), CopyFault>
    ensures { IfOk result (λ all. all ≡ (group.now, Some make.now.az, map (λ net. net.addr) make.now.nets)) }
{
    let (group, az) = copy_both(group, &make.az, alloc)?;
    Ok((group, Some(az), addresses(alloc, make.nets.as_slice())?))
}

fn instance_line(alloc: Global, row: &Row) -> Result<InstanceLine, CopyFault>
    ensures { IfOk result (λ line. line ≡ instance_line row.now) }
{
    let (group, az, addrs) = placed(alloc, &row.inst.group, row.make.as_ref())?;
    Ok(InstanceLine {
        group,
        index: row.inst.index,
        state: shown(row),
        az,
        addrs,
        vm: match row.vm {
            Some(vm) => Some(vm.vm),
            None => None,
        },
        disk: active(row.disks.as_slice()),
    })
}

// What is recorded of an instance, where it is one of the deployment.
fn row_in<'a>(dep: &Name, inst: &Inst, instance: &'a Instance) -> Option<&'a Row>
    ensures { option_copied result ≡ row_in dep.now (inst.now, instance.now) }
{
    if inst.dep == *dep {
        instance.row.as_ref()
    } else {
        None
    }
}

fn push_line(
    alloc: Global,
    row: Option<&Row>,
    lines: &mut Vec<InstanceLine>,
) -> Result<(), CopyFault>
    ensures { OnOk result (lines.new.items ≡ lines.old.items
        ++ option_to_list (option_map instance_line (option_copied row.entry))) }
{
    if let Some(row) = row {
        lines.push(instance_line(alloc, row)?)?;
    }
    Ok(())
}

/// The recorded instances of a deployment, by group and index. Want of memory is the one fault.
pub fn instance_lines(
    alloc: Global,
    records: &Records,
    dep: &Name,
) -> Result<Seq<InstanceLine>, CopyFault>
    ensures { IfOk result (λ lines. lines ≡ instance_lines dep.now records.now.instances.by_inst.entries) }
{
    let mut lines = Vec::new(alloc);
    for (inst, instance) in records.instances() {
        push_line(alloc, row_in(dep, inst, instance), &mut lines)?;
    }
    Ok(Seq::from(lines))
}
