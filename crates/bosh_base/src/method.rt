ghost use Rattle.std.specs.Prelude.{◌≡◌, Some, slice_get};
ghost use Rattle.bosh_base.specs.declared.method.TheConstants.{METHODS};
ghost use Rattle.bosh_base.specs.Method.{name_of, place_of, is_changing, is_agents};

use crate::{CopyFault, Copyable};
use std::alloc::Global;

/// What can be asked of the cloud, or of a machine's agent.
#[derive(Clone, Copy, Debug, PartialEq, Eq)]
pub enum Method {
    CreateVm,
    DeleteVm,
    HasVm,
    FindVm,
    CreateDisk,
    DeleteDisk,
    HasDisk,
    FindDisk,
    AttachDisk,
    DetachDisk,
    GetDisks,
    Ping,
    GetState,
    Apply,
    Start,
    Drain,
    Stop,
    MountDisk,
    UnmountDisk,
    ListDisk,
    MigrateDisk,
    CompilePackage,
}

/// All methods, each at its place.
pub const METHODS: [Method; 22] = [
    Method::CreateVm,
    Method::DeleteVm,
    Method::HasVm,
    Method::FindVm,
    Method::CreateDisk,
    Method::DeleteDisk,
    Method::HasDisk,
    Method::FindDisk,
    Method::AttachDisk,
    Method::DetachDisk,
    Method::GetDisks,
    Method::Ping,
    Method::GetState,
    Method::Apply,
    Method::Start,
    Method::Drain,
    Method::Stop,
    Method::MountDisk,
    Method::UnmountDisk,
    Method::ListDisk,
    Method::MigrateDisk,
    Method::CompilePackage,
];

/// No method is left out of the list, and none stands twice.
pub fn each_method_is_at_its_place(method: Method)
    ensures { slice_get METHODS (place_of method) ≡ Some method }
{}

impl Method {
    /// Its name, as `create_vm`.
    pub fn name(self) -> &'static str
        ensures { result.now ≡ name_of self }
    {
        match self {
            Method::CreateVm => "create_vm",
            Method::DeleteVm => "delete_vm",
            Method::HasVm => "has_vm",
            Method::FindVm => "find_vm",
            Method::CreateDisk => "create_disk",
            Method::DeleteDisk => "delete_disk",
            Method::HasDisk => "has_disk",
            Method::FindDisk => "find_disk",
            Method::AttachDisk => "attach_disk",
            Method::DetachDisk => "detach_disk",
            Method::GetDisks => "get_disks",
            Method::Ping => "ping",
            Method::GetState => "get_state",
            Method::Apply => "apply",
            Method::Start => "start",
            Method::Drain => "drain",
            Method::Stop => "stop",
            Method::MountDisk => "mount_disk",
            Method::UnmountDisk => "unmount_disk",
            Method::ListDisk => "list_disk",
            Method::MigrateDisk => "migrate_disk",
            Method::CompilePackage => "compile_package",
        }
    }

    /// Its place in the list of methods, from 0 on.
    pub fn place(self) -> u8
        ensures { result ≡ place_of self }
    {
        self as u8
    }

    /// Whether it changes the cloud where it is not answered that something is gone.
    pub fn is_changing(self) -> bool
        ensures { result ≡ is_changing self }
    {
        matches!(
            self,
            Method::CreateVm
                | Method::DeleteVm
                | Method::CreateDisk
                | Method::DeleteDisk
                | Method::AttachDisk
                | Method::DetachDisk
                | Method::Apply
                | Method::Start
                | Method::Drain
                | Method::Stop
                | Method::MountDisk
                | Method::UnmountDisk
                | Method::MigrateDisk
        )
    }

    /// Whether a machine's agent answers it, and not the cloud.
    pub fn is_agents(self) -> bool
        ensures { result ≡ is_agents self }
    {
        matches!(
            self,
            Method::Ping
                | Method::GetState
                | Method::Apply
                | Method::Start
                | Method::Drain
                | Method::Stop
                | Method::MountDisk
                | Method::UnmountDisk
                | Method::ListDisk
                | Method::MigrateDisk
                | Method::CompilePackage
        )
    }
}

impl Copyable for Method {
    fn copy(&self, _alloc: Global) -> Result<Self, CopyFault> {
        Ok(*self)
    }
}
