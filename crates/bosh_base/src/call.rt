ghost use Rattle.std.specs.Prelude.{◌≡◌, IfOk};
ghost use Rattle.bosh_base.specs.Call.{method_of};

use crate::{CopyFault, Copyable, Digest, DiskWant, KeyWork, Make, Method, Seq, Spec, copy_both};
use std::alloc::Global;

/// A call to the cloud or to a machine's agent.
// The derived comparison is dear to prove: it looks at two values of 22 variants each.
#[derive(PartialEq, Eq, Drop)]
pub enum Call {
    /// The disks are a hint: where the machine will be wanted.
    CreateVm {
        make: Make,
        disks: Seq<u64>,
    },
    DeleteVm {
        vm: u64,
    },
    HasVm {
        vm: u64,
    },
    FindVm {
        agent: u64,
    },
    /// The machine is the one that the disk is for.
    CreateDisk {
        want: DiskWant,
        vm: u64,
    },
    DeleteDisk {
        disk: u64,
    },
    HasDisk {
        disk: u64,
    },
    FindDisk {
        tag: u64,
    },
    AttachDisk {
        vm: u64,
        disk: u64,
    },
    DetachDisk {
        vm: u64,
        disk: u64,
    },
    GetDisks {
        vm: u64,
    },
    Ping {
        vm: u64,
    },
    GetState {
        vm: u64,
    },
    Apply {
        vm: u64,
        spec: Spec,
    },
    Start {
        vm: u64,
    },
    Drain {
        vm: u64,
    },
    Stop {
        vm: u64,
    },
    MountDisk {
        vm: u64,
        disk: u64,
    },
    UnmountDisk {
        vm: u64,
        disk: u64,
    },
    ListDisk {
        vm: u64,
    },
    MigrateDisk {
        vm: u64,
        from: u64,
        to: u64,
    },
    /// With the digests of the compiled dependencies, in the order of the work.
    CompilePackage {
        vm: u64,
        work: KeyWork,
        deps: Seq<Digest>,
    },
}

// Dear to prove: one arm for each of 22 methods, each a function of its own.
impl Copyable for Call {
    fn copy(&self, alloc: Global) -> Result<Self, CopyFault> {
        match self {
            Call::CreateVm { make, disks } => copy_creation(make, disks, alloc),
            Call::DeleteVm { vm } => Ok(Call::DeleteVm { vm: *vm }),
            Call::HasVm { vm } => Ok(Call::HasVm { vm: *vm }),
            Call::FindVm { agent } => Ok(Call::FindVm { agent: *agent }),
            Call::CreateDisk { want, vm } => copy_disk_creation(want, *vm, alloc),
            Call::DeleteDisk { disk } => Ok(Call::DeleteDisk { disk: *disk }),
            Call::HasDisk { disk } => Ok(Call::HasDisk { disk: *disk }),
            Call::FindDisk { tag } => Ok(Call::FindDisk { tag: *tag }),
            Call::AttachDisk { vm, disk } => Ok(Call::AttachDisk {
                vm: *vm,
                disk: *disk,
            }),
            Call::DetachDisk { vm, disk } => Ok(Call::DetachDisk {
                vm: *vm,
                disk: *disk,
            }),
            Call::GetDisks { vm } => Ok(Call::GetDisks { vm: *vm }),
            Call::Ping { vm } => Ok(Call::Ping { vm: *vm }),
            Call::GetState { vm } => Ok(Call::GetState { vm: *vm }),
            Call::Apply { vm, spec } => copy_apply(*vm, spec, alloc),
            Call::Start { vm } => Ok(Call::Start { vm: *vm }),
            Call::Drain { vm } => Ok(Call::Drain { vm: *vm }),
            Call::Stop { vm } => Ok(Call::Stop { vm: *vm }),
            Call::MountDisk { vm, disk } => Ok(Call::MountDisk {
                vm: *vm,
                disk: *disk,
            }),
            Call::UnmountDisk { vm, disk } => Ok(Call::UnmountDisk {
                vm: *vm,
                disk: *disk,
            }),
            Call::ListDisk { vm } => Ok(Call::ListDisk { vm: *vm }),
            Call::MigrateDisk { vm, from, to } => Ok(Call::MigrateDisk {
                vm: *vm,
                from: *from,
                to: *to,
            }),
            Call::CompilePackage { vm, work, deps } => copy_compilation(*vm, work, deps, alloc),
        }
    }
}

fn copy_creation(make: &Make, disks: &Seq<u64>, alloc: Global) -> Result<Call, CopyFault>
    ensures { IfOk result (λ copied. copied ≡ Call.CreateVm make.now disks.now) }
{
    let (make, disks) = copy_both(make, disks, alloc)?;
    Ok(Call::CreateVm { make, disks })
}

fn copy_disk_creation(want: &DiskWant, vm: u64, alloc: Global) -> Result<Call, CopyFault>
    ensures { IfOk result (λ copied. copied ≡ Call.CreateDisk want.now vm) }
{
    let want = want.copy(alloc)?;
    Ok(Call::CreateDisk { want, vm })
}

fn copy_apply(vm: u64, spec: &Spec, alloc: Global) -> Result<Call, CopyFault>
    ensures { IfOk result (λ copied. copied ≡ Call.Apply vm spec.now) }
{
    let spec = spec.copy(alloc)?;
    Ok(Call::Apply { vm, spec })
}

fn copy_compilation(
    vm: u64,
    work: &KeyWork,
    deps: &Seq<Digest>,
    alloc: Global,
) -> Result<Call, CopyFault>
    ensures { IfOk result (λ copied. copied ≡ Call.CompilePackage vm work.now deps.now) }
{
    let (work, deps) = copy_both(work, deps, alloc)?;
    Ok(Call::CompilePackage { vm, work, deps })
}

impl Call {
    /// What is asked.
    pub fn method(&self) -> Method
        ensures { result ≡ method_of self.now }
    {
        match self {
            Call::CreateVm { .. } => Method::CreateVm,
            Call::DeleteVm { .. } => Method::DeleteVm,
            Call::HasVm { .. } => Method::HasVm,
            Call::FindVm { .. } => Method::FindVm,
            Call::CreateDisk { .. } => Method::CreateDisk,
            Call::DeleteDisk { .. } => Method::DeleteDisk,
            Call::HasDisk { .. } => Method::HasDisk,
            Call::FindDisk { .. } => Method::FindDisk,
            Call::AttachDisk { .. } => Method::AttachDisk,
            Call::DetachDisk { .. } => Method::DetachDisk,
            Call::GetDisks { .. } => Method::GetDisks,
            Call::Ping { .. } => Method::Ping,
            Call::GetState { .. } => Method::GetState,
            Call::Apply { .. } => Method::Apply,
            Call::Start { .. } => Method::Start,
            Call::Drain { .. } => Method::Drain,
            Call::Stop { .. } => Method::Stop,
            Call::MountDisk { .. } => Method::MountDisk,
            Call::UnmountDisk { .. } => Method::UnmountDisk,
            Call::ListDisk { .. } => Method::ListDisk,
            Call::MigrateDisk { .. } => Method::MigrateDisk,
            Call::CompilePackage { .. } => Method::CompilePackage,
        }
    }
}
