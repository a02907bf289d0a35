ghost use Rattle.std.specs.Prelude.{◌≡◌, ◌+◌, true, ◌&&◌, ◌==◌, not, IfOk, Some, None, is_some};
ghost use Rattle.std.specs.Option.{option_map};
ghost use Rattle.bosh_agent.specs.Agent.{agent_answer, vm_of};
ghost use Rattle.bosh_agent.specs.Compiled.{compiled_digest};
ghost use Rattle.bosh_base.specs.Call.{method_of};
ghost use Rattle.bosh_base.specs.CallStep.{answer_of, found_disk, found_vm, has_number, is_gone, is_movable, takes_effect, unless_gone, yes_or_no};
ghost use Rattle.bosh_base.specs.Cloud.{attached_to, disk_creation, disks_created, holder_of, is_disk_there, is_vm_there, vm_creation, vms_created};
ghost use Rattle.bosh_base.specs.Method.{is_changing};
ghost use Rattle.bosh_inventory.specs.Happens.{happens};

use crate::inventory::Inventory;
use bosh_agent::{can_act, told, vm_of};
use bosh_base::{Answer, Call, Copyable, Entry, Machine};
use bosh_registers::InventoryFault;
use std::alloc::Global;

impl Inventory {
    /// What a call answers where it does not fail.
    pub fn answer(&self, alloc: Global, call: &Call) -> Result<Answer, InventoryFault>
        ensures { IfOk result (λ answer. answer ≡ answer_of compiled_digest self.now call.now) }
    {
        match call {
            Call::CreateVm { .. } => Ok(self.next_vm()),
            Call::DeleteVm { vm } => Ok(unless_gone(self.has_vm(*vm))),
            Call::HasVm { vm } => Ok(yes_or_no(self.has_vm(*vm))),
            Call::FindVm { agent } => Ok(Answer::Found(self.found_vm(*agent))),
            Call::CreateDisk { vm, .. } => Ok(self.next_disk(*vm)),
            Call::DeleteDisk { disk } => Ok(unless_gone(self.is_loose(*disk))),
            Call::HasDisk { disk } => Ok(yes_or_no(self.has_disk(*disk))),
            Call::FindDisk { tag } => Ok(Answer::Found(self.found_disk(*tag))),
            Call::AttachDisk { vm, disk } => Ok(unless_gone(self.can_move(*vm, *disk))),
            Call::DetachDisk { vm, disk } => Ok(unless_gone(self.can_move(*vm, *disk))),
            Call::GetDisks { vm } => self.attached(alloc, *vm),
            _ => self.agent_answer(alloc, call),
        }
    }

    /// Whether an entry may come next: an effect of a call that changes the cloud and is not answered that something
    /// is gone, a write to a disk that is there, or a loss of a machine that is there.
    pub fn may_happen(&self, alloc: Global, entry: &Entry) -> Result<bool, InventoryFault>
        ensures { IfOk result (λ test. test ≡ happens self.now entry.now) }
    {
        match entry {
            Entry::Effect(effect) => self.takes_effect(alloc, &effect.call),
            Entry::Write(write) => Ok(self.has_disk(write.disk)),
            Entry::Lost(loss) => Ok(self.has_vm(loss.vm)),
            _ => Ok(false),
        }
    }

    fn takes_effect(&self, alloc: Global, call: &Call) -> Result<bool, InventoryFault>
        ensures { IfOk result (λ test. test ≡ takes_effect compiled_digest self.now call.now) }
    {
        let answer = self.answer(alloc, call)?;
        Ok(changes_by(call, &answer))
    }

    fn next_vm(&self) -> Answer
        ensures { result ≡ Answer.Cid (vms_created self.now + 1) }
    {
        Answer::Cid(self.tables.vms.made() + 1)
    }

    fn next_disk(&self, vm: u64) -> Answer
        ensures { result ≡ unless_gone (is_vm_there self.now vm) (Answer.Cid (disks_created self.now + 1)) }
    {
        if !self.has_vm(vm) {
            return Answer::Gone;
        }
        Answer::Cid(self.tables.disks.made() + 1)
    }

    /// Whether a disk is there, and on no machine.
    fn is_loose(&self, disk: u64) -> bool
        ensures { result ≡ (is_disk_there self.now disk && not (is_some (holder_of self.now disk))) }
    {
        self.has_disk(disk) && self.holder(disk).is_none()
    }

    /// Whether a machine is there, and a disk may be attached to it or detached from it.
    pub fn can_move(&self, vm: u64, disk: u64) -> bool
        ensures { result ≡ (is_vm_there self.now vm && is_movable self.now vm disk) }
    {
        self.has_vm(vm) && self.is_movable(vm, disk)
    }

    fn attached(&self, alloc: Global, vm: u64) -> Result<Answer, InventoryFault>
        ensures { IfOk result (λ answer.
            answer ≡ unless_gone (is_vm_there self.now vm) (Answer.Disks (attached_to self.now vm))) }
    {
        match self.machine(vm) {
            Some(machine) => Ok(Answer::Disks(machine.attached.copy(alloc)?)),
            None => Ok(Answer::Gone),
        }
    }

    fn agent_answer(&self, alloc: Global, call: &Call) -> Result<Answer, InventoryFault>
        requires { is_some (vm_of call.now) ≡ true }
        ensures { IfOk result (λ answer. answer ≡ answer_of compiled_digest self.now call.now) }
    {
        // A field that is looked at lets the prover know that the tables are those of what was done.
        let _ = &self.effects;
        let Some(vm) = vm_of(call) else {
            unreachable!();
        };
        match self.machine(vm) {
            Some(machine) => answer_by(alloc, machine, call),
            None => Ok(Answer::Gone),
        }
    }
}

fn answer_by(alloc: Global, machine: &Machine, call: &Call) -> Result<Answer, InventoryFault>
    ensures { IfOk result (λ answer. answer ≡ agent_answer compiled_digest machine.now call.now) }
{
    if !can_act(machine, call) {
        return Ok(Answer::Gone);
    }
    Ok(told(alloc, machine, call)?)
}

/// Whether a call changes something that answers so.
pub fn changes_by(call: &Call, answer: &Answer) -> bool
    ensures { result ≡ (is_changing (method_of call.now) && not (is_gone answer.now)) }
{
    call.method().is_changing() && !matches!(answer, Answer::Gone)
}

fn yes_or_no(test: bool) -> Answer
    ensures { result ≡ yes_or_no test }
{
    if test { Answer::Yes } else { Answer::No }
}

fn unless_gone(test: bool) -> Answer
    ensures { result ≡ unless_gone test Answer.Done }
{
    if test { Answer::Done } else { Answer::Gone }
}
