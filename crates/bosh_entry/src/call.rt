ghost use Rattle.std.specs.Prelude.{◌≡◌, ◌++◌, false, true, OnOk, IfErr};
ghost use Rattle.bosh_base.specs.Call.{method_of};
ghost use Rattle.bosh_base.specs.Method.{is_agents};
ghost use Rattle.bosh_base.specs.declared.method.Method.TheVariants.{CreateVm, CreateDisk, AttachDisk, DetachDisk, Apply, MountDisk, UnmountDisk, MigrateDisk, CompilePackage};
ghost use Rattle.bosh_entry.specs.Reading.{Gives};
ghost use Rattle.bosh_entry.specs.Call.{call_fields, call_of_at, is_call};
ghost use Rattle.bosh_entry.specs.declared.fault.EntryFault.TheVariants.{Memory};

use crate::coded::Coded;
use crate::fault::EntryFault;
use crate::format::Format;
use crate::pair::{write_both, write_three};
use crate::source::Source;
use bosh_base::{Call, DiskWant, KeyWork, Make, Method, Seq, Spec};
use std::alloc::Global;

#[tactic(auto, unfolding(crate::specs::Call::call_of_at, crate::specs::Pair::pair_at))]
fn create_vm(alloc: Global, format: Format, from: &mut Source) -> Result<Call, EntryFault>
    ensures { Gives result from.new.rest.now (call_of_at CreateVm from.old.rest.now) }
{
    let (make, disks) = Coded::read(alloc, format, from)?;
    Ok(Call::CreateVm { make, disks })
}

#[tactic(auto, unfolding(crate::specs::Call::call_of_at, crate::specs::Pair::pair_at))]
fn create_disk(alloc: Global, format: Format, from: &mut Source) -> Result<Call, EntryFault>
    ensures { Gives result from.new.rest.now (call_of_at CreateDisk from.old.rest.now) }
{
    let (want, vm) = Coded::read(alloc, format, from)?;
    Ok(Call::CreateDisk { want, vm })
}

#[tactic(auto, unfolding(crate::specs::Call::call_of_at))]
fn apply(alloc: Global, format: Format, from: &mut Source) -> Result<Call, EntryFault>
    ensures { Gives result from.new.rest.now (call_of_at Apply from.old.rest.now) }
{
    Ok(Call::Apply {
        vm: from.number()?,
        spec: Spec::read(alloc, format, from)?,
    })
}

#[tactic(auto, unfolding(crate::specs::Call::call_of_at))]
fn attach_disk(from: &mut Source) -> Result<Call, EntryFault>
    ensures { Gives result from.new.rest.now (call_of_at AttachDisk from.old.rest.now) }
{
    Ok(Call::AttachDisk {
        vm: from.number()?,
        disk: from.number()?,
    })
}

#[tactic(auto, unfolding(crate::specs::Call::call_of_at))]
fn detach_disk(from: &mut Source) -> Result<Call, EntryFault>
    ensures { Gives result from.new.rest.now (call_of_at DetachDisk from.old.rest.now) }
{
    Ok(Call::DetachDisk {
        vm: from.number()?,
        disk: from.number()?,
    })
}

#[tactic(auto, unfolding(crate::specs::Call::call_of_at))]
fn mount_disk(from: &mut Source) -> Result<Call, EntryFault>
    ensures { Gives result from.new.rest.now (call_of_at MountDisk from.old.rest.now) }
{
    Ok(Call::MountDisk {
        vm: from.number()?,
        disk: from.number()?,
    })
}

#[tactic(auto, unfolding(crate::specs::Call::call_of_at))]
fn unmount_disk(from: &mut Source) -> Result<Call, EntryFault>
    ensures { Gives result from.new.rest.now (call_of_at UnmountDisk from.old.rest.now) }
{
    Ok(Call::UnmountDisk {
        vm: from.number()?,
        disk: from.number()?,
    })
}

#[tactic(auto, unfolding(crate::specs::Call::call_of_at))]
fn migrate_disk(from: &mut Source) -> Result<Call, EntryFault>
    ensures { Gives result from.new.rest.now (call_of_at MigrateDisk from.old.rest.now) }
{
    Ok(Call::MigrateDisk {
        vm: from.number()?,
        from: from.number()?,
        to: from.number()?,
    })
}

#[tactic(auto, unfolding(crate::specs::Call::call_of_at, crate::specs::Pair::pair_at))]
fn compile_package(alloc: Global, format: Format, from: &mut Source) -> Result<Call, EntryFault>
    ensures { Gives result from.new.rest.now (call_of_at CompilePackage from.old.rest.now) }
{
    let vm = from.number()?;
    let (work, deps) = Coded::read(alloc, format, from)?;
    Ok(Call::CompilePackage { vm, work, deps })
}

// The call of a method that the cloud answers.
#[tactic(auto, unfolding(crate::specs::Call::call_of_at))]
fn clouds_call(
    alloc: Global,
    format: Format,
    method: Method,
    from: &mut Source,
) -> Result<Call, EntryFault>
    requires { is_agents method ≡ false }
    ensures { Gives result from.new.rest.now (call_of_at method from.old.rest.now) }
{
    match method {
        Method::CreateVm => create_vm(alloc, format, from),
        Method::DeleteVm => from.number().map(|vm| Call::DeleteVm { vm }),
        Method::HasVm => from.number().map(|vm| Call::HasVm { vm }),
        Method::FindVm => from.number().map(|agent| Call::FindVm { agent }),
        Method::CreateDisk => create_disk(alloc, format, from),
        Method::DeleteDisk => from.number().map(|disk| Call::DeleteDisk { disk }),
        Method::HasDisk => from.number().map(|disk| Call::HasDisk { disk }),
        Method::FindDisk => from.number().map(|tag| Call::FindDisk { tag }),
        Method::AttachDisk => attach_disk(from),
        Method::DetachDisk => detach_disk(from),
        Method::GetDisks => from.number().map(|vm| Call::GetDisks { vm }),
        _ => unreachable!(),
    }
}

// The call of a method that a machine's agent answers.
#[tactic(auto, unfolding(crate::specs::Call::call_of_at))]
fn agents_call(
    alloc: Global,
    format: Format,
    method: Method,
    from: &mut Source,
) -> Result<Call, EntryFault>
    requires { is_agents method ≡ true }
    ensures { Gives result from.new.rest.now (call_of_at method from.old.rest.now) }
{
    match method {
        Method::Ping => from.number().map(|vm| Call::Ping { vm }),
        Method::GetState => from.number().map(|vm| Call::GetState { vm }),
        Method::Apply => apply(alloc, format, from),
        Method::Start => from.number().map(|vm| Call::Start { vm }),
        Method::Drain => from.number().map(|vm| Call::Drain { vm }),
        Method::Stop => from.number().map(|vm| Call::Stop { vm }),
        Method::MountDisk => mount_disk(from),
        Method::UnmountDisk => unmount_disk(from),
        Method::ListDisk => from.number().map(|vm| Call::ListDisk { vm }),
        Method::MigrateDisk => migrate_disk(from),
        Method::CompilePackage => compile_package(alloc, format, from),
        _ => unreachable!(),
    }
}

// Adds the fields of a call that the cloud answers.
#[tactic(auto, unfolding(crate::specs::Call::call_fields, crate::specs::Call::is_call))]
fn write_clouds_call(call: &Call, out: &mut Vec<u8>) -> Result<(), EntryFault>
    requires { is_agents (method_of call.now) ≡ false }
    ensures ok { OnOk result (out.new.items ≡ out.old.items ++ call_fields call.now) }
    ensures fits { OnOk result (is_call call.now ≡ true) }
    ensures err { IfErr result (λ fault. fault ≡ Memory) }
{
    match call {
        Call::CreateVm { make, disks } => write_both(make, disks, out),
        Call::DeleteVm { vm } => vm.write(out),
        Call::HasVm { vm } => vm.write(out),
        Call::FindVm { agent } => agent.write(out),
        Call::CreateDisk { want, vm } => write_both(want, vm, out),
        Call::DeleteDisk { disk } => disk.write(out),
        Call::HasDisk { disk } => disk.write(out),
        Call::FindDisk { tag } => tag.write(out),
        Call::AttachDisk { vm, disk } => write_both(vm, disk, out),
        Call::DetachDisk { vm, disk } => write_both(vm, disk, out),
        Call::GetDisks { vm } => vm.write(out),
        _ => unreachable!(),
    }
}

// Adds the fields of a call that a machine's agent answers.
#[tactic(auto, unfolding(crate::specs::Call::call_fields, crate::specs::Call::is_call))]
fn write_agents_call(call: &Call, out: &mut Vec<u8>) -> Result<(), EntryFault>
    requires { is_agents (method_of call.now) ≡ true }
    ensures ok { OnOk result (out.new.items ≡ out.old.items ++ call_fields call.now) }
    ensures fits { OnOk result (is_call call.now ≡ true) }
    ensures err { IfErr result (λ fault. fault ≡ Memory) }
{
    match call {
        Call::Ping { vm } => vm.write(out),
        Call::GetState { vm } => vm.write(out),
        Call::Apply { vm, spec } => write_both(vm, spec, out),
        Call::Start { vm } => vm.write(out),
        Call::Drain { vm } => vm.write(out),
        Call::Stop { vm } => vm.write(out),
        Call::MountDisk { vm, disk } => write_both(vm, disk, out),
        Call::UnmountDisk { vm, disk } => write_both(vm, disk, out),
        Call::ListDisk { vm } => vm.write(out),
        Call::MigrateDisk { vm, from, to } => write_three(vm, from, to, out),
        Call::CompilePackage { vm, work, deps } => write_three(vm, work, deps, out),
        _ => unreachable!(),
    }
}

impl Coded for Call {
    ghost use Rattle.bosh_entry.specs.Call.{call, is_call, call_at};

    ghost spelling = { λ _. call };

    ghost fits = { λ _. is_call };

    ghost reading = { λ _. call_at };

    #[tactic(auto, unfolding(crate::specs::Call::call))]
    fn write(&self, out: &mut Vec<u8>) -> Result<(), EntryFault> {
        self.method().write(out)?;
        if self.method().is_agents() {
            write_agents_call(self, out)
        } else {
            write_clouds_call(self, out)
        }
    }

    #[tactic(auto, unfolding(crate::specs::Call::call_at))]
    fn read(alloc: Global, format: Format, from: &mut Source) -> Result<Self, EntryFault> {
        let method = Method::read(alloc, format, from)?;
        if method.is_agents() {
            agents_call(alloc, format, method, from)
        } else {
            clouds_call(alloc, format, method, from)
        }
    }
}
