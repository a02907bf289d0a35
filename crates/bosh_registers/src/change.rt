ghost use Rattle.std.specs.Prelude.{◌≡◌};
ghost use Rattle.std.specs.Option.{option_map};
ghost use Rattle.bosh_agent.specs.Agent.{with_contents};
ghost use Rattle.bosh_agent.specs.Change.{disks_changed, IsIn, IsMade, machine_changed};
ghost use Rattle.bosh_agent.specs.Slots.{at, with_slot};
ghost use Rattle.bosh_registers.specs.Changes.{tables_after, holding, IsFitting, IsThere, silenced};

use crate::{Register, Tables};
use bosh_agent::{Change as AgentChange, put_contents};
use bosh_base::{Disk, Machine, Seq, Text};

/// What changes in the tables, where nothing is made. All that takes memory is in it.
#[derive(Drop)]
pub enum Change {
    /// A machine goes.
    NoVm(u64),
    /// A disk goes.
    NoDisk(u64),
    /// A disk has this holder from now on, and the machine has these disks, by number.
    Moved {
        vm: u64,
        disk: u64,
        holder: Option<u64>,
        attached: Seq<u64>,
    },
    /// The agent of a machine did a call.
    Acted {
        vm: u64,
        change: AgentChange,
    },
    /// The agent of a machine falls silent.
    Silent(u64),
    /// A disk has these contents from now on.
    Written {
        disk: u64,
        text: Text,
    },
}

impl Change {
    /// Makes the change. It takes no memory.
    pub fn carry(self, tables: &mut Tables)
        requires { IsFitting self tables.old }
        ensures { tables.new ≡ tables_after tables.old self }
    {
        match self {
            Change::NoVm(vm) => tables.vms.remove(vm),
            Change::NoDisk(disk) => tables.disks.remove(disk),
            Change::Moved {
                vm,
                disk,
                holder,
                attached,
            } => move_disk(tables, vm, disk, holder, attached),
            Change::Acted { vm, change } => act(&mut tables.vms, &mut tables.disks, vm, change),
            Change::Silent(vm) => silence(&mut tables.vms, vm),
            Change::Written { disk, text } => write(&mut tables.disks, disk, text),
        }
    }
}

fn move_disk(tables: &mut Tables, vm: u64, disk: u64, holder: Option<u64>, attached: Seq<u64>)
    requires { IsFitting (Change.Moved vm disk holder attached) tables.old }
    ensures { tables.new ≡ tables_after tables.old (Change.Moved vm disk holder attached) }
{
    tables.holders.set(disk, holder);
    hold(&mut tables.vms, vm, attached);
}

fn hold(vms: &mut Register<Machine>, vm: u64, attached: Seq<u64>)
    requires { IsThere vms.old vm }
    ensures { vms.new ≡ with_slot vms.old vm (option_map (holding attached) (at vms.old vm)) }
{
    if let Some(mut machine) = vms.things.take(vm) {
        machine.attached = attached;
        vms.things.set(vm, Some(machine));
    }
}

fn act(vms: &mut Register<Machine>, disks: &mut Register<Disk>, vm: u64, change: AgentChange)
    requires there { IsThere vms.old vm }
    requires fits { IsIn change disks.old }
    ensures vms { vms.new ≡ with_slot vms.old vm
        (option_map (λ machine. machine_changed machine change) (at vms.old vm)) }
    ensures disks { disks.new ≡ disks_changed disks.old change }
{
    if let Some(mut machine) = vms.things.take(vm) {
        change.carry(&mut machine, &mut disks.things);
        vms.things.set(vm, Some(machine));
    }
}

fn silence(vms: &mut Register<Machine>, vm: u64)
    requires { IsThere vms.old vm }
    ensures { vms.new ≡ with_slot vms.old vm (option_map silenced (at vms.old vm)) }
{
    if let Some(mut machine) = vms.things.take(vm) {
        machine.silent = true;
        vms.things.set(vm, Some(machine));
    }
}

fn write(disks: &mut Register<Disk>, disk: u64, text: Text)
    requires { IsMade disks.old disk }
    ensures { disks.new ≡ with_contents disks.old disk text }
{
    put_contents(&mut disks.things, disk, text);
}
