ghost use Rattle.std.specs.Prelude.{◌≡◌, ◌⊎◌, ℕ, IfErr, IfOk, IsTrue, OnOk, Some, false};
ghost use Rattle.bosh_base.specs.History.{Extends};
ghost use Rattle.std.specs.Option.{option_copied};
ghost use Rattle.bosh_base.specs.Cloud.{is_disk_there, is_vm_there};
ghost use Rattle.bosh_base.specs.declared.entry.Entry.TheVariants as entries;
ghost use Rattle.bosh_base.specs.declared.moves.Move.TheVariants as moves;
ghost use Rattle.bosh_holdings.specs.Finding.{lost_vm, read_disk, written_disk};
ghost use Rattle.bosh_world.specs.Jobs.{Changes, FailsJob, IsLoss, IsMissing, IsNotRead, IsNotRunning, IsWrite, RefusesJob};
ghost use Rattle.bosh_world.specs.Steps.{IsAllTold};
ghost use Rattle.bosh_world.specs.declared.fault.SiteFault.TheVariants as faults;
ghost use Rattle.bosh_world.specs.Silent.{IsSilent, moves_of};

use crate::halting::refused_by_cloud;
use crate::{Site, SiteFault};
use bosh_base::{Copyable, Inst, Loss, Move, Text, Wrote};
use bosh_holdings::{its_machine, job_disk, thing_of};
use bosh_ports::Keeper;
use std::alloc::Global;

impl<K: Keeper, L: Keeper> Site<K, L> {
    /// A running job of an instance writes to its disk, and what was there is gone. The machine may not be silent.
    pub fn write_disk(&mut self, inst: &Inst, text: &[u8]) -> Result<(), SiteFault>
        ensures written { OnOk result ((disk : ℕ)
            × (written_disk self.old.book.records self.old.cloud.effects inst.now ≡ Some disk)
            × Changes L.bodies L.faults self.old (entries.Write (record { disk = disk; text = text.now }))
            (moves.Wrote (record { inst = inst.now; text = text.now })) self.new) }
        ensures refused { IfErr result (λ fault. RefusesJob L.bodies L.faults self.old
            (IsWrite self.old inst.now text.now) (IsNotRunning self.old inst.now) fault self.new) }
        ensures grows { Extends (moves_of self.old) (moves_of self.new) }
        ensures silent { IsSilent self.old self.new }
    {
        self.check_running()?;
        match self.written_disk(inst) {
            Some(disk) => self.write_to(disk, inst, text),
            None => Err(not_running(self.alloc, inst)),
        }
    }

    // The disk that a job of an instance writes to.
    fn written_disk(&self, inst: &Inst) -> Option<u64>
        ensures { result ≡ written_disk self.now.book.records self.now.cloud.effects inst.now }
    {
        match job_disk(self.book.records(), self.cloud.machines(), inst, true) {
            Some(disk) if self.cloud.has_disk(disk) => Some(disk),
            _ => None,
        }
    }

    fn write_to(&mut self, disk: u64, inst: &Inst, text: &[u8]) -> Result<(), SiteFault>
        requires running { self.old.history.is_halted ≡ false }
        requires there { IsTrue (is_disk_there self.old.cloud.effects disk) }
        requires its { written_disk self.old.book.records self.old.cloud.effects inst.now ≡ Some disk }
        ensures written { OnOk result (
            Changes L.bodies L.faults self.old (entries.Write (record { disk = disk; text = text.now }))
            (moves.Wrote (record { inst = inst.now; text = text.now })) self.new) }
        ensures refused { IfErr result (λ fault. RefusesJob L.bodies L.faults self.old
            (IsWrite self.old inst.now text.now) (IsNotRunning self.old inst.now) fault self.new) }
        ensures grows { Extends (moves_of self.old) (moves_of self.new) }
        ensures silent { IsSilent self.old self.new }
    {
        self.tell()?;
        match wrote(self.alloc, inst, text) {
            Ok(wrote) => self.write(disk, text, wrote),
            Err(fault) => Err(fault),
        }
    }

    fn write(&mut self, disk: u64, text: &[u8], wrote: Wrote) -> Result<(), SiteFault>
        requires running { self.old.history.is_halted ≡ false }
        requires told { IsAllTold self.old }
        requires there { IsTrue (is_disk_there self.old.cloud.effects disk) }
        ensures written { OnOk result (
            Changes L.bodies L.faults self.old (entries.Write (record { disk = disk; text = text.now }))
            (moves.Wrote wrote) self.new) }
        ensures refused { IfErr result (λ fault. FailsJob L.bodies L.faults self.old
            (entries.Write (record { disk = disk; text = text.now })) fault self.new) }
        ensures grows { Extends (moves_of self.old) (moves_of self.new) }
        ensures silent { IsSilent self.old self.new }
    {
        match self.cloud.write_disk(disk, text) {
            Ok(()) => {
                let effects = self.cloud.effects().len();
                self.history.push_with(Move::Wrote(wrote), effects);
                Ok(())
            }
            Err(fault) => Err(refused_by_cloud(
                &mut self.history,
                self.alloc,
                self.book.entries(),
                self.cloud.effects(),
                fault,
            )),
        }
    }

    /// What the disk of an instance holds, whose machine runs.
    pub fn read_disk(&self, inst: &Inst) -> Result<&[u8], SiteFault>
        ensures read { IfOk result (λ contents. (self.now.history.is_halted ≡ false)
            × (read_disk self.now.book.records self.now.cloud.effects inst.now ≡ Some contents.now)) }
        ensures refused { IfErr result (IsNotRead self.now inst.now) }
    {
        match self.check_running() {
            Ok(()) => {}
            Err(fault) => return Err(fault),
        }
        match self.held(inst) {
            Some(contents) => Ok(contents),
            None => Err(not_running(self.alloc, inst)),
        }
    }

    fn held(&self, inst: &Inst) -> Option<&[u8]>
        ensures { option_copied result ≡ read_disk self.now.book.records self.now.cloud.effects inst.now }
    {
        let disk = job_disk(self.book.records(), self.cloud.machines(), inst, false)?;
        match thing_of(self.cloud.disks(), disk) {
            Some(disk) => Some(disk.contents.as_slice()),
            None => None,
        }
    }

    /// The machine of an instance vanishes whole, or its agent falls silent.
    pub fn lose(&mut self, inst: &Inst, whole: bool) -> Result<(), SiteFault>
        ensures lost { OnOk result ((vm : ℕ)
            × (lost_vm self.old.book.records self.old.cloud.effects inst.now ≡ Some vm)
            × Changes L.bodies L.faults self.old (entries.Lost (record { vm = vm; whole = whole }))
            (moves.Lost (record { vm = vm; whole = whole })) self.new) }
        ensures refused { IfErr result (λ fault. RefusesJob L.bodies L.faults self.old
            (IsLoss self.old inst.now whole) (IsMissing self.old inst.now) fault self.new) }
        ensures grows { Extends (moves_of self.old) (moves_of self.new) }
        ensures silent { IsSilent self.old self.new }
    {
        self.check_running()?;
        match self.lost_vm(inst) {
            Some(vm) => self.lose_vm(Loss { vm, whole }),
            None => Err(no_machine(self.alloc, inst)),
        }
    }

    // The machine that is lost with an instance.
    fn lost_vm(&self, inst: &Inst) -> Option<u64>
        ensures { result ≡ lost_vm self.now.book.records self.now.cloud.effects inst.now }
    {
        match its_machine(self.book.records(), self.cloud.machines(), inst) {
            Some(machine) if self.cloud.has_vm(machine.vm) => Some(machine.vm),
            _ => None,
        }
    }

    fn lose_vm(&mut self, loss: Loss) -> Result<(), SiteFault>
        requires running { self.old.history.is_halted ≡ false }
        requires there { IsTrue (is_vm_there self.old.cloud.effects loss.vm) }
        ensures lost { OnOk result (
            Changes L.bodies L.faults self.old (entries.Lost loss) (moves.Lost loss) self.new) }
        ensures refused { IfErr result (λ fault. FailsJob L.bodies L.faults self.old (entries.Lost loss) fault self.new) }
        ensures grows { Extends (moves_of self.old) (moves_of self.new) }
        ensures silent { IsSilent self.old self.new }
    {
        self.tell()?;
        self.lose_told(loss)
    }

    fn lose_told(&mut self, loss: Loss) -> Result<(), SiteFault>
        requires running { self.old.history.is_halted ≡ false }
        requires told { IsAllTold self.old }
        requires there { IsTrue (is_vm_there self.old.cloud.effects loss.vm) }
        ensures lost { OnOk result (
            Changes L.bodies L.faults self.old (entries.Lost loss) (moves.Lost loss) self.new) }
        ensures refused { IfErr result (λ fault. FailsJob L.bodies L.faults self.old (entries.Lost loss) fault self.new) }
        ensures grows { Extends (moves_of self.old) (moves_of self.new) }
        ensures silent { IsSilent self.old self.new }
    {
        match self.cloud.lose(loss.vm, loss.whole) {
            Ok(()) => {
                let effects = self.cloud.effects().len();
                self.history.push_with(Move::Lost(loss), effects);
                Ok(())
            }
            Err(fault) => Err(refused_by_cloud(
                &mut self.history,
                self.alloc,
                self.book.entries(),
                self.cloud.effects(),
                fault,
            )),
        }
    }
}

fn wrote(alloc: Global, inst: &Inst, text: &[u8]) -> Result<Wrote, SiteFault>
    ensures wrote { IfOk result (λ wrote. wrote ≡ record { inst = inst.now; text = text.now }) }
    ensures memory { IfErr result (λ fault. fault ≡ faults.Memory) }
{
    let inst = inst.copy(alloc)?;
    let text = Text::from(Vec::from_slice(alloc, text)?);
    Ok(Wrote { inst, text })
}

fn not_running(alloc: Global, inst: &Inst) -> SiteFault
    ensures { (result ≡ faults.NotRunning inst.now) ⊎ (result ≡ faults.Memory) }
{
    match inst.copy(alloc) {
        Ok(inst) => SiteFault::NotRunning { inst },
        Err(_) => SiteFault::Memory,
    }
}

fn no_machine(alloc: Global, inst: &Inst) -> SiteFault
    ensures { (result ≡ faults.NoMachine inst.now) ⊎ (result ≡ faults.Memory) }
{
    match inst.copy(alloc) {
        Ok(inst) => SiteFault::NoMachine { inst },
        Err(_) => SiteFault::Memory,
    }
}
