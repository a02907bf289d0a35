ghost use Rattle.std.specs.Prelude.{◌≡◌, IfOk};
ghost use Rattle.bosh_shown.specs.Cloud.{cloud_listing};

use crate::disks::disk_lines;
use crate::machines::machine_lines;
use bosh_base::{CloudListing, CopyFault, Disk, Machine};
use std::alloc::Global;

/// What is there in the cloud, from the slots of its machines and disks, by number: of each machine its disks, and of each
/// disk the machine that it is attached to. Want of memory is the one fault.
pub fn cloud_listing(
    alloc: Global,
    machines: &[Option<Machine>],
    disks: &[Option<Disk>],
) -> Result<CloudListing, CopyFault>
    ensures { IfOk result (λ listed. listed ≡ cloud_listing machines.now disks.now) }
{
    let listed = machine_lines(alloc, machines)?;
    Ok(CloudListing {
        machines: listed,
        disks: disk_lines(alloc, machines, disks)?,
    })
}
