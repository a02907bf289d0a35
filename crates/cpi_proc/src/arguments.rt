ghost use Rattle.std.specs.Prelude.{◌≡◌, ◌++◌, true, OnOk, IfErr};
ghost use Rattle.bosh_base.specs.declared.method.Method.TheVariants.{CreateVm, CreateDisk, AttachDisk, DetachDisk, Apply, MountDisk, UnmountDisk, MigrateDisk, CompilePackage};
ghost use Rattle.serde_json.specs.View.{view};
ghost use Rattle.serde_json.specs.Written.{compact_text};
ghost use Rattle.cpi_wire.specs.Fields.{one_from};
ghost use Rattle.cpi_wire.specs.Number.{number_from};
ghost use Rattle.cpi_wire.specs.Reading.{Gives};
ghost use Rattle.cpi_wire.specs.declared.fault.WireFault.TheVariants.{Memory};
ghost use Rattle.cpi_proc.specs.Call.{arguments, call_from, is_call};

use bosh_base::{Call, Method};
use cpi_wire::{WireFault, read_one, read_three, read_two, write_one, write_three, write_two};
use serde_json::Value;
use std::alloc::Global;

/// Adds the arguments of a call.
// Dear to prove: one arm for each of 22 methods.
#[tactic(auto, unfolding(crate::specs::Call::arguments, crate::specs::Call::is_call))]
pub(crate) fn write_arguments(call: &Call, out: &mut Vec<u8>) -> Result<(), WireFault>
    ensures ok { OnOk result (out.new.items ≡ out.old.items ++ compact_text (arguments call.now)) }
    ensures fits { OnOk result (is_call call.now ≡ true) }
    ensures err { IfErr result (λ fault. fault ≡ Memory) }
{
    match call {
        Call::CreateVm { make, disks } => write_two(make, disks, out),
        Call::DeleteVm { vm } => write_one(vm, out),
        Call::HasVm { vm } => write_one(vm, out),
        Call::FindVm { agent } => write_one(agent, out),
        Call::CreateDisk { want, vm } => write_two(want, vm, out),
        Call::DeleteDisk { disk } => write_one(disk, out),
        Call::HasDisk { disk } => write_one(disk, out),
        Call::FindDisk { tag } => write_one(tag, out),
        Call::AttachDisk { vm, disk } => write_two(vm, disk, out),
        Call::DetachDisk { vm, disk } => write_two(vm, disk, out),
        Call::GetDisks { vm } => write_one(vm, out),
        Call::Ping { vm } => write_one(vm, out),
        Call::GetState { vm } => write_one(vm, out),
        Call::Apply { vm, spec } => write_two(vm, spec, out),
        Call::Start { vm } => write_one(vm, out),
        Call::Drain { vm } => write_one(vm, out),
        Call::Stop { vm } => write_one(vm, out),
        Call::MountDisk { vm, disk } => write_two(vm, disk, out),
        Call::UnmountDisk { vm, disk } => write_two(vm, disk, out),
        Call::ListDisk { vm } => write_one(vm, out),
        Call::MigrateDisk { vm, from, to } => write_three(vm, from, to, out),
        Call::CompilePackage { vm, work, deps } => write_three(vm, work, deps, out),
    }
}

// The one number of a call that has no other argument.
fn number(alloc: Global, value: &Value) -> Result<u64, WireFault>
    ensures { Gives result (one_from number_from (view value.now)) }
{
    read_one(alloc, value)
}

#[tactic(auto, unfolding(crate::specs::Call::call_from))]
fn create_vm(alloc: Global, value: &Value) -> Result<Call, WireFault>
    ensures { Gives result (call_from CreateVm (view value.now)) }
{
    let (make, disks) = read_two(alloc, value)?;
    Ok(Call::CreateVm { make, disks })
}

#[tactic(auto, unfolding(crate::specs::Call::call_from))]
fn create_disk(alloc: Global, value: &Value) -> Result<Call, WireFault>
    ensures { Gives result (call_from CreateDisk (view value.now)) }
{
    let (want, vm) = read_two(alloc, value)?;
    Ok(Call::CreateDisk { want, vm })
}

#[tactic(auto, unfolding(crate::specs::Call::call_from))]
fn attach_disk(alloc: Global, value: &Value) -> Result<Call, WireFault>
    ensures { Gives result (call_from AttachDisk (view value.now)) }
{
    let (vm, disk) = read_two(alloc, value)?;
    Ok(Call::AttachDisk { vm, disk })
}

#[tactic(auto, unfolding(crate::specs::Call::call_from))]
fn detach_disk(alloc: Global, value: &Value) -> Result<Call, WireFault>
    ensures { Gives result (call_from DetachDisk (view value.now)) }
{
    let (vm, disk) = read_two(alloc, value)?;
    Ok(Call::DetachDisk { vm, disk })
}

#[tactic(auto, unfolding(crate::specs::Call::call_from))]
fn apply(alloc: Global, value: &Value) -> Result<Call, WireFault>
    ensures { Gives result (call_from Apply (view value.now)) }
{
    let (vm, spec) = read_two(alloc, value)?;
    Ok(Call::Apply { vm, spec })
}

#[tactic(auto, unfolding(crate::specs::Call::call_from))]
fn mount_disk(alloc: Global, value: &Value) -> Result<Call, WireFault>
    ensures { Gives result (call_from MountDisk (view value.now)) }
{
    let (vm, disk) = read_two(alloc, value)?;
    Ok(Call::MountDisk { vm, disk })
}

#[tactic(auto, unfolding(crate::specs::Call::call_from))]
fn unmount_disk(alloc: Global, value: &Value) -> Result<Call, WireFault>
    ensures { Gives result (call_from UnmountDisk (view value.now)) }
{
    let (vm, disk) = read_two(alloc, value)?;
    Ok(Call::UnmountDisk { vm, disk })
}

#[tactic(auto, unfolding(crate::specs::Call::call_from))]
fn migrate_disk(alloc: Global, value: &Value) -> Result<Call, WireFault>
    ensures { Gives result (call_from MigrateDisk (view value.now)) }
{
    let (vm, from, to) = read_three(alloc, value)?;
    Ok(Call::MigrateDisk { vm, from, to })
}

#[tactic(auto, unfolding(crate::specs::Call::call_from))]
fn compile_package(alloc: Global, value: &Value) -> Result<Call, WireFault>
    ensures { Gives result (call_from CompilePackage (view value.now)) }
{
    let (vm, work, deps) = read_three(alloc, value)?;
    Ok(Call::CompilePackage { vm, work, deps })
}

/// The call of a method that has these arguments.
// Dear to prove: one arm for each of 22 methods. Those of one number hold nothing where they may leave.
#[tactic(auto, unfolding(crate::specs::Call::call_from))]
pub(crate) fn read_call(alloc: Global, method: Method, value: &Value) -> Result<Call, WireFault>
    ensures { Gives result (call_from method (view value.now)) }
{
    match method {
        Method::CreateVm => create_vm(alloc, value),
        Method::DeleteVm => Ok(Call::DeleteVm {
            vm: number(alloc, value)?,
        }),
        Method::HasVm => Ok(Call::HasVm {
            vm: number(alloc, value)?,
        }),
        Method::FindVm => Ok(Call::FindVm {
            agent: number(alloc, value)?,
        }),
        Method::CreateDisk => create_disk(alloc, value),
        Method::DeleteDisk => Ok(Call::DeleteDisk {
            disk: number(alloc, value)?,
        }),
        Method::HasDisk => Ok(Call::HasDisk {
            disk: number(alloc, value)?,
        }),
        Method::FindDisk => Ok(Call::FindDisk {
            tag: number(alloc, value)?,
        }),
        Method::AttachDisk => attach_disk(alloc, value),
        Method::DetachDisk => detach_disk(alloc, value),
        Method::GetDisks => Ok(Call::GetDisks {
            vm: number(alloc, value)?,
        }),
        Method::Ping => Ok(Call::Ping {
            vm: number(alloc, value)?,
        }),
        Method::GetState => Ok(Call::GetState {
            vm: number(alloc, value)?,
        }),
        Method::Apply => apply(alloc, value),
        Method::Start => Ok(Call::Start {
            vm: number(alloc, value)?,
        }),
        Method::Drain => Ok(Call::Drain {
            vm: number(alloc, value)?,
        }),
        Method::Stop => Ok(Call::Stop {
            vm: number(alloc, value)?,
        }),
        Method::MountDisk => mount_disk(alloc, value),
        Method::UnmountDisk => unmount_disk(alloc, value),
        Method::ListDisk => Ok(Call::ListDisk {
            vm: number(alloc, value)?,
        }),
        Method::MigrateDisk => migrate_disk(alloc, value),
        Method::CompilePackage => compile_package(alloc, value),
    }
}
