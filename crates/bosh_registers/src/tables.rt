ghost use Rattle.std.specs.Prelude.{◌≡◌, []};

use crate::Register;
use bosh_agent::Numbered;
use bosh_base::{Disk, Machine};
use std::alloc::Global;

/// What is there, by number.
#[derive(Drop)]
pub struct Tables {
    pub vms: Register<Machine>,
    pub disks: Register<Disk>,
    /// By disk: the machine of its last attach, where no detach came later. That machine may be gone.
    pub holders: Numbered<u64>,
}

impl Tables {
    /// Nothing was made yet.
    pub fn new(alloc: Global) -> Tables
        ensures { result ≡ record { vms = []; disks = []; holders = [] } }
    {
        Tables {
            vms: Register::new(alloc),
            disks: Register::new(alloc),
            holders: Numbered::new(alloc),
        }
    }
}
