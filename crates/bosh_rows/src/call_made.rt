//! The call that a step is.
ghost use Rattle.std.specs.Prelude.{◌≡◌, false, None, Some, IsOk, IsTrue, IfOk};
ghost use Rattle.std.specs.Option.{option_copied, option_map};
ghost use Rattle.bosh_base.specs.declared.call.Call.TheVariants as calls;
ghost use Rattle.bosh_base.specs.declared.method.Method.TheVariants as methods;
ghost use Rattle.bosh_rows.specs.CallOf.{call_of, has_its_machine, has_want};
ghost use Rattle.bosh_rows.specs.Disks.{active_disks};
ghost use Rattle.bosh_rows.specs.NextStep.{next_step, plain};

use crate::disks::{active, is_active};
use crate::{RowFault, Step};
use bosh_base::{Call, Copyable, DiskRow, GoalRow, Method, Row, Seq, Vm};
use std::alloc::Global;

/// Whether a machine is recorded of an instance where its next step is of one: where it is lost, or in doubt of another
/// call than the creation of a machine. Rows that entries tell of always have it, but a snapshot can spell others.
pub fn has_its_machine(row: &Row) -> bool
    ensures { result ≡ has_its_machine row.now }
{
    match &row.doubt {
        Some(doubt) if !matches!(doubt.call, Call::CreateVm { .. }) => row.vm.is_some(),
        _ => row.vm.is_some() || !row.lost,
    }
}

fn active_disks(alloc: Global, disks: &[DiskRow]) -> Result<Seq<u64>, RowFault>
    ensures { IfOk result (λ numbers. numbers ≡ active_disks disks.now) }
{
    let mut numbers = Vec::new(alloc);
    for disk in disks {
        if is_active(disk) {
            numbers.push(disk.disk)?;
        }
    }
    Ok(Seq::from(numbers))
}

fn creation(alloc: Global, want: Option<&GoalRow>, row: &Row) -> Result<Option<Call>, RowFault>
    ensures { IfOk result (λ call. call ≡ call_of (plain methods.CreateVm) (option_copied want.entry) row.now) }
{
    let Some(want) = want else {
        return Ok(None);
    };
    let disks = active_disks(alloc, row.disks.as_slice())?;
    let make = want.make.copy(alloc)?;
    Ok(Some(Call::CreateVm { make, disks }))
}

fn disk_creation(alloc: Global, want: Option<&GoalRow>, row: &Row) -> Result<Option<Call>, RowFault>
    ensures { IfOk result (λ call. call ≡ call_of (plain methods.CreateDisk) (option_copied want.entry) row.now) }
{
    let (Some(want), Some(vm)) = (want, row.vm) else {
        return Ok(None);
    };
    let Some(wanted) = &want.disk else {
        return Ok(None);
    };
    let want = wanted.copy(alloc)?;
    Ok(Some(Call::CreateDisk { want, vm: vm.vm }))
}

fn application(alloc: Global, want: Option<&GoalRow>, row: &Row) -> Result<Option<Call>, RowFault>
    ensures { IfOk result (λ call. call ≡ call_of (plain methods.Apply) (option_copied want.entry) row.now) }
{
    let (Some(want), Some(vm)) = (want, row.vm) else {
        return Ok(None);
    };
    let spec = want.spec.copy(alloc)?;
    Ok(Some(Call::Apply { vm: vm.vm, spec }))
}

// A call that names no machine, but asks for what the call in doubt made.
fn search(method: Method, row: &Row) -> Option<Call>
    ensures { result ≡ call_of (plain method) None (record row.now { vm = None }) }
{
    let doubt = row.doubt.as_ref()?;
    match method {
        Method::FindVm => Some(Call::FindVm { agent: doubt.n }),
        Method::FindDisk => Some(Call::FindDisk { tag: doubt.n }),
        _ => None,
    }
}

// A call that asks for nothing of what is wanted.
fn call_without_want(step: Step, row: &Row) -> Option<Call>
    ensures { result ≡ call_of step None row.now }
{
    let Some(Vm { vm, .. }) = row.vm else {
        return search(step.method, row);
    };
    match (step.method, step.disk) {
        (Method::DeleteVm, _) => Some(Call::DeleteVm { vm }),
        (Method::HasVm, _) => Some(Call::HasVm { vm }),
        (Method::GetDisks, _) => Some(Call::GetDisks { vm }),
        (Method::Ping, _) => Some(Call::Ping { vm }),
        (Method::GetState, _) => Some(Call::GetState { vm }),
        (Method::Start, _) => Some(Call::Start { vm }),
        (Method::Drain, _) => Some(Call::Drain { vm }),
        (Method::Stop, _) => Some(Call::Stop { vm }),
        (Method::ListDisk, _) => Some(Call::ListDisk { vm }),
        (Method::AttachDisk, Some(disk)) => Some(Call::AttachDisk { vm, disk }),
        (Method::DetachDisk, Some(disk)) => Some(Call::DetachDisk { vm, disk }),
        (Method::MountDisk, Some(disk)) => Some(Call::MountDisk { vm, disk }),
        (Method::UnmountDisk, Some(disk)) => Some(Call::UnmountDisk { vm, disk }),
        (Method::MigrateDisk, Some(to)) => migration(vm, active(row.disks.as_slice()), to),
        _ => search(step.method, row),
    }
}

fn migration(vm: u64, old: Option<&DiskRow>, to: u64) -> Option<Call>
    ensures { result ≡ option_map (λ old. calls.MigrateDisk vm old.disk to) (option_copied old.entry) }
{
    let from = old?.disk;
    Some(Call::MigrateDisk { vm, from, to })
}

// The call of a step, if the row has what it names.
fn call_if_any(
    alloc: Global,
    step: Step,
    want: Option<&GoalRow>,
    row: &Row,
) -> Result<Option<Call>, RowFault>
    ensures ok { IfOk result (λ call. call ≡ call_of step (option_copied want.entry) row.now) }
    ensures succeeds { has_want step.method ≡ false → IsOk result }
{
    match step.method {
        Method::CreateVm => creation(alloc, want, row),
        Method::CreateDisk => disk_creation(alloc, want, row),
        Method::Apply => application(alloc, want, row),
        _ => Ok(call_without_want(step, row)),
    }
}

/// The call that the next step of an instance is, with the machine and the disks that are recorded of it.
pub fn call_of(
    alloc: Global,
    step: Step,
    want: Option<&GoalRow>,
    row: &Row,
) -> Result<Call, RowFault>
    requires next { next_step (option_copied want) row.now ≡ Some step }
    requires machine { IsTrue (has_its_machine row.now) }
    ensures ok { IfOk result (λ call. call_of step (option_copied want.entry) row.now ≡ Some call) }
    ensures succeeds { has_want step.method ≡ false → IsOk result }
{
    match call_if_any(alloc, step, want, row)? {
        Some(call) => Ok(call),
        None => unreachable!(),
    }
}
