//! What the recorded instances hold that stay.
ghost use Rattle.std.specs.Prelude.{◌≡◌, ◌++◌, IfOk, OnOk, map};
ghost use Rattle.std.specs.List.{list_any};
ghost use Rattle.bosh_wants.specs.Wants.{held_of, is_in, kept, row_holds, stays};

use bosh_base::{CopyFault, Copyable, Held, Inst, Name, NetAddr, Owner, Row, copy_both};
use bosh_manifest::Group;
use std::alloc::Global;

fn is_in(inst: &Inst, group: &Group) -> bool
    ensures { result ≡ is_in inst.now group.now }
{
    group.name == inst.group && inst.index < group.instances
}

fn is_in_some(inst: &Inst, groups: &[Group]) -> bool
    ensures { result ≡ list_any (is_in inst.now) groups.now }
{
    groups.iter().any(|group| is_in(inst, group))
}

fn stays(dep: &Name, groups: &[Group], row: &Row) -> bool
    ensures { result ≡ stays dep.now groups.now row.now }
{
    row.inst.dep == *dep && is_in_some(&row.inst, groups)
}

fn held_of(alloc: Global, inst: &Inst, net: &NetAddr) -> Result<Held, CopyFault>
    ensures { IfOk result (λ held. held ≡ held_of inst.now net.now) }
{
    let (inst, name) = copy_both(inst, &net.net, alloc)?;
    Ok(Held {
        owner: Owner::Instance(inst),
        net: name,
        addr: net.addr,
    })
}

fn add_nets(
    alloc: Global,
    inst: &Inst,
    nets: &[NetAddr],
    held: &mut Vec<Held>,
) -> Result<(), CopyFault>
    ensures { OnOk result (held.new.items ≡ held.old.items ++ map (held_of inst.now) nets.now) }
{
    for net in nets {
        held.push(held_of(alloc, inst, net)?)?;
    }
    Ok(())
}

fn add_row(alloc: Global, row: &Row, held: &mut Vec<Held>) -> Result<(), CopyFault>
    ensures { OnOk result (held.new.items ≡ held.old.items ++ row_holds row.now) }
{
    match &row.make {
        None => Ok(()),
        Some(make) => add_nets(alloc, &row.inst, make.nets.as_slice(), held),
    }
}

/// What the recorded instances hold that are in a group of the manifest.
pub fn kept(
    alloc: Global,
    dep: &Name,
    groups: &[Group],
    rows: &[Row],
) -> Result<Vec<Held>, CopyFault>
    ensures { IfOk result (λ held. held.items ≡ kept dep.now groups.now rows.now) }
{
    let mut held = Vec::new(alloc);
    for row in rows {
        if stays(dep, groups, row) {
            add_row(alloc, row, &mut held)?;
        }
    }
    Ok(held)
}
