//! Machines by the instances that own them.
ghost use Rattle.std.specs.Prelude.{◌≡◌, ◌∷◌, ◌++◌, [], IfOk, OnOk};
ghost use Rattle.bosh_base.specs.declared.inst.Inst.{Inst};
ghost use Rattle.bosh_cck.specs.Tables.{AreOwned, all_there, listed, owned, owned_by};

use bosh_base::{Inst, Machine, Owner};
use std::alloc::{AllocError, Global};
use std::collections::BTreeMap;

/// The machines of each instance, in their order.
pub(crate) type Owned<'a> = BTreeMap<&'a Inst, Vec<&'a Machine>>;

// The machines of an instance, with one more.
fn with<'a>(
    alloc: Global,
    found: Option<Vec<&'a Machine>>,
    machine: &'a Machine,
) -> Result<Vec<&'a Machine>, AllocError>
    ensures { IfOk result (λ machines. listed (Some machines) ≡ listed found.entry ++ machine.now ∷ []) }
{
    let mut machines = match found {
        None => Vec::new(alloc),
        Some(machines) => machines,
    };
    machines.push(machine)?;
    Ok(machines)
}

// Adds a machine where an instance owns it.
fn add<'a>(alloc: Global, machine: &'a Machine, table: &mut Owned<'a>) -> Result<(), AllocError>
    ensures { OnOk result ((inst : Inst) → owned_by table.new inst
        ≡ owned_by table.old inst ++ owned inst (machine.now ∷ [])) }
{
    match &machine.owner {
        Owner::Instance(inst) => {
            let machines = with(alloc, table.remove(&inst), machine)?;
            table.insert(inst, machines)?;
            Ok(())
        }
        Owner::Compile(_, _) | Owner::Disk(_) => Ok(()),
    }
}

// Adds the machine of a slot, unless it is empty.
fn add_slot<'a>(
    alloc: Global,
    slot: &'a Option<Machine>,
    table: &mut Owned<'a>,
) -> Result<(), AllocError>
    ensures { OnOk result ((inst : Inst) → owned_by table.new inst
        ≡ owned_by table.old inst ++ owned inst (all_there (slot.now ∷ []))) }
{
    match slot {
        None => Ok(()),
        Some(machine) => add(alloc, machine, table),
    }
}

/// The machines that stand in slots, by instance.
pub(crate) fn by_instance(alloc: Global, slots: &[Option<Machine>]) -> Result<Owned<'_>, AllocError>
    ensures { IfOk result (AreOwned (all_there slots.now)) }
{
    let mut table = BTreeMap::new(alloc);
    for slot in slots {
        add_slot(alloc, slot, &mut table)?;
    }
    Ok(table)
}
