ghost use Rattle.std.specs.Prelude.{◌≡◌, ◌+◌, IfOk, IsTrue};
ghost use Rattle.bosh_agent.specs.Compiled.{compiled_digest};
ghost use Rattle.bosh_base.specs.CallStep.{takes_effect};
ghost use Rattle.bosh_base.specs.Cloud.{disks_created, vms_created};
ghost use Rattle.bosh_inventory.specs.Happens.{Happens};
ghost use Rattle.bosh_inventory.specs.Made.{new_disk, new_machine};
ghost use Rattle.bosh_inventory.specs.Steps.{IsStep};

use crate::inventory::Inventory;
use bosh_base::{
    Call, Disk, DiskWant, Effect, Entry, Machine, Make, Seq, Write, copy_both, copy_three,
};
use bosh_registers::{Change, InventoryFault};
use std::alloc::Global;

/// What is done to the tables. All that takes memory is in it.
#[derive(Drop)]
pub enum Step {
    /// A machine is made.
    Vm(Machine),
    /// A disk is made.
    Disk(Disk),
    Change(Change),
}

impl Inventory {
    /// What an entry does that may happen now. All memory for it is taken here.
    pub fn step(&self, alloc: Global, entry: &Entry) -> Result<Step, InventoryFault>
        requires { Happens self.now entry.now }
        ensures { IfOk result (λ step. IsStep self.now entry.now step) }
    {
        match entry {
            Entry::Effect(effect) => self.effect_step(alloc, effect),
            Entry::Write(write) => self.write_step(alloc, write),
            Entry::Lost(loss) => Ok(Step::Change(self.loss_change(loss.vm, loss.whole))),
            _ => unreachable!(),
        }
    }

    fn effect_step(&self, alloc: Global, effect: &Effect) -> Result<Step, InventoryFault>
        requires { IsTrue (takes_effect compiled_digest self.now effect.now.call) }
        ensures { IfOk result (λ step. IsStep self.now (Entry.Effect effect.now) step) }
    {
        match &effect.call {
            Call::CreateVm { make, .. } => Ok(Step::Vm(self.new_vm(alloc, effect, make)?)),
            Call::CreateDisk { want, .. } => Ok(Step::Disk(self.new_disk(alloc, effect, want)?)),
            call => Ok(Step::Change(self.change(alloc, call)?)),
        }
    }

    fn write_step(&self, alloc: Global, write: &Write) -> Result<Step, InventoryFault>
        requires { Happens self.now (Entry.Write write.now) }
        ensures { IfOk result (λ step. IsStep self.now (Entry.Write write.now) step) }
    {
        Ok(Step::Change(self.write_change(alloc, write.disk, &write.text)?))
    }

    /// The machine that a creation makes.
    fn new_vm(
        &self,
        alloc: Global,
        creation: &Effect,
        make: &Make,
    ) -> Result<Machine, InventoryFault>
        ensures { IfOk result (λ machine.
            machine ≡ new_machine (vms_created self.now + 1) creation.now make.now) }
    {
        let (owner, dep, make) = copy_three(&creation.owner, &creation.dep, make, alloc)?;
        Ok(Machine {
            vm: self.tables.vms.made() + 1,
            agent: creation.n,
            owner,
            dep,
            make,
            spec: None,
            running: false,
            drained: false,
            attached: Seq::new(alloc),
            mounted: Seq::new(alloc),
            silent: false,
        })
    }

    /// The disk that a creation makes.
    fn new_disk(
        &self,
        alloc: Global,
        creation: &Effect,
        want: &DiskWant,
    ) -> Result<Disk, InventoryFault>
        ensures { IfOk result (λ disk.
            disk ≡ new_disk (disks_created self.now + 1) creation.now want.now) }
    {
        let (owner, want) = copy_both(&creation.owner, want, alloc)?;
        Ok(Disk {
            disk: self.tables.disks.made() + 1,
            tag: creation.n,
            owner,
            want,
            contents: Seq::new(alloc),
        })
    }
}
