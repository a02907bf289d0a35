ghost use Rattle.std.specs.Prelude.{◌≡◌, [], ◌∷◌, false, IfErr, IfOk, IsTrue, OnOk};
ghost use Rattle.bosh_agent.specs.Compiled.{compiled_digest};
ghost use Rattle.bosh_base.specs.CallStep.{takes_effect};
ghost use Rattle.bosh_base.specs.Cloud.{is_disk_there, is_vm_there};
ghost use Rattle.bosh_cloud.specs.Notes.{Does, SameFates};
ghost use Rattle.bosh_cloud.specs.declared.fault.CloudFault.TheVariants.{Memory};
ghost use Rattle.bosh_entry.specs.Body.{IsEntry, spelling};
ghost use Rattle.bosh_inventory.specs.Happens.{Happens, MayFollow};
ghost use Rattle.bosh_inventory.specs.Steps.{IsStep};

use crate::{CloudFault, SimCloud};
use bosh_base::{Call, Effect, Entry, Loss, Name, Owner, Text, Write, copy_three};
use bosh_entry::write;
use bosh_inventory::Step;
use bosh_ports::Keeper;
use bosh_registers::PutFault;
use std::alloc::Global;

impl<L: Keeper> SimCloud<L> {
    /// A machine vanishes whole, or its agent falls silent. It is answered `Broken` until the cloud is reloaded, where
    /// its store has failed.
    pub fn lose(&mut self, vm: u64, whole: bool) -> Result<(), CloudFault>
        requires { IsTrue (is_vm_there self.old.effects vm) }
        ensures does { Does L.bodies L.faults result self.old
            (Entry.Lost (record { vm = vm; whole = whole }) ∷ []) self.new }
        ensures fates { SameFates self.old self.new }
    {
        if self.is_stale {
            return Err(CloudFault::Broken);
        }
        self.note(Entry::Lost(Loss { vm, whole }))
    }

    /// A running job writes to a disk, and what was there is gone. It is answered `Broken` as `lose` is.
    pub fn write_disk(&mut self, disk: u64, text: &[u8]) -> Result<(), CloudFault>
        requires { IsTrue (is_disk_there self.old.effects disk) }
        ensures does { Does L.bodies L.faults result self.old
            (Entry.Write (record { disk = disk; text = text.now }) ∷ []) self.new }
        ensures fates { SameFates self.old self.new }
    {
        if self.is_stale {
            return Err(CloudFault::Broken);
        }
        match text.to_vec(self.alloc) {
            Ok(text) => self.note(Entry::Write(Write {
                disk,
                text: Text::from(text),
            })),
            Err(_) => Err(CloudFault::Memory),
        }
    }

    /// A call has its effect.
    pub(crate) fn note_effect(
        &mut self,
        n: u64,
        owner: &Owner,
        dep: &Name,
        call: &Call,
    ) -> Result<(), CloudFault>
        requires whole { self.old.is_stale ≡ false }
        requires effect { IsTrue (takes_effect compiled_digest self.old.effects call.now) }
        ensures does { Does L.bodies L.faults result self.old
            (Entry.Effect (record { n = n; owner = owner.now; dep = dep.now; call = call.now }) ∷ [])
            self.new }
        ensures fates { SameFates self.old self.new }
    {
        match copy_three(owner, dep, call, self.alloc) {
            Ok((owner, dep, call)) => self.note(Entry::Effect(Effect {
                n,
                owner,
                dep,
                call,
            })),
            Err(_) => Err(CloudFault::Memory),
        }
    }

    fn note(&mut self, entry: Entry) -> Result<(), CloudFault>
        requires whole { self.old.is_stale ≡ false }
        requires happens { Happens self.old.effects entry }
        ensures does { Does L.bodies L.faults result self.old (entry ∷ []) self.new }
        ensures fates { SameFates self.old self.new }
    {
        match self.inventory.step(self.alloc, &entry) {
            Ok(step) => self.note_step(entry, step),
            Err(_) => {
                drop(entry);
                Err(CloudFault::Memory)
            }
        }
    }

    fn note_step(&mut self, entry: Entry, step: Step) -> Result<(), CloudFault>
        requires whole { self.old.is_stale ≡ false }
        requires happens { Happens self.old.effects entry }
        requires step { IsStep self.old.effects entry step }
        ensures does { Does L.bodies L.faults result self.old (entry ∷ []) self.new }
        ensures fates { SameFates self.old self.new }
    {
        match spelled(self.alloc, &entry) {
            Ok(body) => self.keep(entry, step, Text::from(body)),
            Err(fault) => {
                drop(entry);
                drop(step);
                Err(fault)
            }
        }
    }

    fn keep(&mut self, entry: Entry, step: Step, body: Text) -> Result<(), CloudFault>
        requires whole { self.old.is_stale ≡ false }
        requires spelled { body ≡ spelling entry }
        requires follows { MayFollow self.old.effects entry }
        requires step { IsStep self.old.effects entry step }
        ensures does { Does L.bodies L.faults result self.old (entry ∷ []) self.new }
        ensures fates { SameFates self.old self.new }
    {
        match self
            .inventory
            .put(&mut self.store, body.as_slice(), entry, step)
        {
            Ok(()) => Ok(()),
            Err(PutFault::Memory) => Err(CloudFault::Memory),
            Err(PutFault::StoreFailed) => {
                self.is_stale = true;
                self.pending = Some(body);
                Err(CloudFault::StoreFault)
            }
        }
    }
}

fn spelled(alloc: Global, entry: &Entry) -> Result<Vec<u8>, CloudFault>
    ensures spelled { IfOk result (λ body. body.items ≡ spelling entry.now) }
    ensures fits { OnOk result (IsEntry entry.now) }
    ensures memory { IfErr result (λ fault. fault ≡ Memory) }
{
    match write(alloc, entry) {
        Ok(body) => Ok(body),
        Err(_) => Err(CloudFault::Memory),
    }
}
