ghost use Rattle.std.specs.Prelude.{◌≡◌, ◌==◌, find};
ghost use Rattle.std.specs.List.{list_any};
ghost use Rattle.std.specs.Option.{option_copied};
ghost use Rattle.bosh_holdings.specs.Finding.{active_disk, active_in, first_of, is_its, is_of, its_machine, job_disk, recorded, runs_with, thing_of};
ghost use Rattle.bosh_rows.specs.Disks.{is_active};

use bosh_base::{DiskRow, Inst, Machine, Owner, Role};
use bosh_records::Records;

// The active disk that is recorded of an instance.
fn active_disk(records: &Records, inst: &Inst) -> Option<u64>
    ensures { result ≡ active_disk records.now inst.now }
{
    match records.row(inst) {
        Some(row) => active_in(row.disks.as_slice()),
        None => None,
    }
}

fn active_in(disks: &[DiskRow]) -> Option<u64>
    ensures { result ≡ active_in disks.now }
{
    match disks.iter().find(|disk| is_active(disk)) {
        Some(disk) => Some(disk.disk),
        None => None,
    }
}

fn is_active(disk: &DiskRow) -> bool
    ensures { result ≡ is_active disk.now }
{
    matches!(disk.role, Role::Active)
}

fn is_of(machine: &Machine, inst: &Inst) -> bool
    ensures { result ≡ is_of inst.now machine.now }
{
    match &machine.owner {
        Owner::Instance(whose) => whose == inst,
        _ => false,
    }
}

/// The thing of a number, counted from 1, where it is there.
pub fn thing_of<T>(slots: &[Option<T>], number: u64) -> Option<&T>
    ensures { option_copied result ≡ thing_of slots.now number }
{
    if number == 0 {
        return None;
    }
    match slots.get(number as usize - 1) {
        Some(slot) => slot.as_ref(),
        None => None,
    }
}

// The recorded machine of an instance, where it is there.
fn recorded<'a>(
    records: &Records,
    machines: &'a [Option<Machine>],
    inst: &Inst,
) -> Option<&'a Machine>
    ensures { option_copied result ≡ recorded records.now machines.now inst.now }
{
    let vm = records.row(inst)?.vm?;
    let machine = thing_of(machines, vm.vm)?;
    if is_of(machine, inst) {
        Some(machine)
    } else {
        None
    }
}

/// The machine of an instance: the recorded one, or else, where a call is in doubt, the first that is its own.
pub fn its_machine<'a>(
    records: &Records,
    machines: &'a [Option<Machine>],
    inst: &Inst,
) -> Option<&'a Machine>
    ensures { option_copied result ≡ its_machine records.now machines.now inst.now }
{
    match recorded(records, machines, inst) {
        Some(machine) => Some(machine),
        None => first_of(machines, inst),
    }
}

// The first machine that is an instance's own.
fn first_of<'a>(machines: &'a [Option<Machine>], inst: &Inst) -> Option<&'a Machine>
    ensures { option_copied result ≡ first_of machines.now inst.now }
{
    match slot_of(machines, inst) {
        Some(Some(machine)) => Some(machine),
        _ => None,
    }
}

fn slot_of<'a>(machines: &'a [Option<Machine>], inst: &Inst) -> Option<&'a Option<Machine>>
    ensures { option_copied result ≡ find (is_its inst.now) machines.now }
{
    machines.iter().find(|slot| is_its(slot, inst))
}

fn is_its(slot: &Option<Machine>, inst: &Inst) -> bool
    ensures { result ≡ is_its inst.now slot.now }
{
    match slot {
        Some(machine) => is_of(machine, inst),
        None => false,
    }
}

fn runs_with(machine: &Machine, disk: u64) -> bool
    ensures { result ≡ runs_with disk machine.now }
{
    machine.running && stands_in(machine.mounted.as_slice(), disk)
}

fn stands_in(disks: &[u64], disk: u64) -> bool
    ensures { result ≡ list_any (λ it. it == disk) disks.now }
{
    disks.iter().any(|it| *it == disk)
}

/// The active disk of an instance, where its machine runs and it is mounted there; the machine may have to answer.
pub fn job_disk(
    records: &Records,
    machines: &[Option<Machine>],
    inst: &Inst,
    answers: bool,
) -> Option<u64>
    ensures { result ≡ job_disk records.now machines.now inst.now answers }
{
    let disk = active_disk(records, inst)?;
    let machine = its_machine(records, machines, inst)?;
    if runs_with(machine, disk) && !(answers && machine.silent) {
        Some(disk)
    } else {
        None
    }
}
