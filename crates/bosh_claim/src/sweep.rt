ghost use Rattle.std.specs.Prelude.{◌≡◌};
ghost use Rattle.std.specs.Option.{option_copied};
ghost use Rattle.bosh_claim.specs.Sweep.{deletion, disk_call, sweep_by, sweep_call};

use bosh_base::{Call, Doubt, Owner, Vm};
use bosh_records::{LooseDisk, Records};
use bosh_work::{MachineName, Work};

/// The call for the first compile machine that an earlier task left: it is deleted, once it is known which there is.
pub(crate) fn sweep_call(records: &Records, work: &Work) -> Option<(Owner, Call)>
    ensures { result ≡ sweep_call records.now work.now }
{
    let name: &MachineName = work.sweep.items.get(work.sweep.queue.first()?)?;
    let machine = records.machine(*name)?;
    let call = sweep_by(machine.row.vm, machine.row.doubt.as_ref())?;
    Some((Owner::Compile(name.task, name.slot), call))
}

pub(crate) fn sweep_by(vm: Option<Vm>, doubt: Option<&Doubt>) -> Option<Call>
    ensures { result ≡ sweep_by vm (option_copied doubt.entry) }
{
    match (vm, doubt) {
        (None, Some(doubt)) => Some(Call::FindVm { agent: doubt.n }),
        (None, None) => None,
        (Some(it), Some(_)) => Some(Call::HasVm { vm: it.vm }),
        (Some(it), None) => Some(Call::DeleteVm { vm: it.vm }),
    }
}

/// The call for the first disk of a task that deletes disks: it is deleted, once it is known whether it was.
pub(crate) fn disk_call(records: &Records, work: &Work) -> Option<(Owner, Call)>
    ensures { result ≡ disk_call records.now work.now }
{
    let disk = *work.disks.items.get(work.disks.queue.first()?)?;
    let loose = records.orphan(disk)?;
    Some((Owner::Disk(disk), deletion(loose)))
}

/// A disk is deleted, once it is known whether it was.
pub(crate) fn deletion(loose: &LooseDisk) -> Call
    ensures { result ≡ deletion loose.now }
{
    let disk = loose.orphan.disk;
    if loose.orphan.doubt.is_some() {
        Call::HasDisk { disk }
    } else {
        Call::DeleteDisk { disk }
    }
}
