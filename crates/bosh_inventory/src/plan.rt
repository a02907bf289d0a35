ghost use Rattle.std.specs.Prelude.{◌≡◌, Some, IfOk, IsTrue, IsFalse};
ghost use Rattle.bosh_agent.specs.Agent.{can_act, vm_of};
ghost use Rattle.bosh_agent.specs.Compiled.{compiled_digest};
ghost use Rattle.bosh_base.specs.Call.{method_of};
ghost use Rattle.bosh_base.specs.CallStep.{is_movable, takes_effect};
ghost use Rattle.bosh_base.specs.Cloud.{creates_disk, creates_vm, is_disk_there, is_vm_there, machine_of};
ghost use Rattle.bosh_base.specs.declared.entry.Effect as effect;
ghost use Rattle.bosh_inventory.specs.Changes.{IsActing, Leads, LeadsBy};

use crate::inventory::Inventory;
use bosh_agent::{change_of, vm_of, with_number, without_number};
use bosh_base::{Call, Copyable, Entry, Text};
use bosh_registers::{Change, InventoryFault};
use std::alloc::Global;

impl Inventory {
    /// What a call changes that has its effect and makes nothing. All memory for it is taken here.
    pub fn change(&self, alloc: Global, call: &Call) -> Result<Change, InventoryFault>
        requires effect { IsTrue (takes_effect compiled_digest self.now call.now) }
        requires no_vm { IsFalse (creates_vm call.now) }
        requires no_disk { IsFalse (creates_disk call.now) }
        ensures { IfOk result (λ change. LeadsBy self.now call.now change) }
    {
        if let Some(vm) = vm_of(call) {
            return self.act(alloc, vm, call);
        }
        match call {
            Call::DeleteVm { vm } => Ok(Change::NoVm(*vm)),
            Call::DeleteDisk { disk } => Ok(Change::NoDisk(*disk)),
            Call::AttachDisk { vm, disk } => self.attach(alloc, *vm, *disk),
            Call::DetachDisk { vm, disk } => self.detach(alloc, *vm, *disk),
            _ => unreachable!(),
        }
    }

    fn attach(&self, alloc: Global, vm: u64, disk: u64) -> Result<Change, InventoryFault>
        requires there { IsTrue (is_vm_there self.now vm) }
        requires movable { IsTrue (is_movable self.now vm disk) }
        ensures { IfOk result (λ change. LeadsBy self.now (Call.AttachDisk vm disk) change) }
    {
        match self.machine(vm) {
            Some(machine) => Ok(Change::Moved {
                vm,
                disk,
                holder: Some(vm),
                attached: with_number(alloc, &machine.attached, disk)?,
            }),
            None => unreachable!(),
        }
    }

    fn detach(&self, alloc: Global, vm: u64, disk: u64) -> Result<Change, InventoryFault>
        requires there { IsTrue (is_vm_there self.now vm) }
        requires movable { IsTrue (is_movable self.now vm disk) }
        ensures { IfOk result (λ change. LeadsBy self.now (Call.DetachDisk vm disk) change) }
    {
        match self.machine(vm) {
            Some(machine) => Ok(Change::Moved {
                vm,
                disk,
                holder: None,
                attached: without_number(alloc, &machine.attached, disk)?,
            }),
            None => unreachable!(),
        }
    }

    fn act(&self, alloc: Global, vm: u64, call: &Call) -> Result<Change, InventoryFault>
        requires names { vm_of call.now ≡ Some vm }
        requires effect { IsTrue (takes_effect compiled_digest self.now call.now) }
        ensures { IfOk result (λ change. LeadsBy self.now call.now change) }
    {
        match self.machine(vm) {
            Some(machine) => Ok(Change::Acted {
                vm,
                change: change_of(alloc, machine, self.tables.disks.things(), call)?,
            }),
            None => unreachable!(),
        }
    }

    /// What a write to a disk changes.
    pub fn write_change(
        &self,
        alloc: Global,
        disk: u64,
        text: &Text,
    ) -> Result<Change, InventoryFault>
        requires { IsTrue (is_disk_there self.now disk) }
        ensures { IfOk result (λ it. Leads self.now (Entry.Write (record { disk = disk; text = text.now })) it) }
    {
        Ok(Change::Written {
            disk,
            text: text.copy(alloc)?,
        })
    }

    /// What a loss changes.
    pub fn loss_change(&self, vm: u64, whole: bool) -> Change
        requires { IsTrue (is_vm_there self.now vm) }
        ensures { Leads self.now (Entry.Lost (record { vm = vm; whole = whole })) result }
    {
        if whole {
            Change::NoVm(vm)
        } else {
            Change::Silent(vm)
        }
    }
}
