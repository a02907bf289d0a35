ghost use Rattle.std.specs.Prelude.{◌≡◌};
ghost use Rattle.bosh_report.specs.Cloud.{cloud_disk_line, cloud_lines, held_text, machine_line, running_text};

use crate::ReportFault;
use crate::owner::{add_disk, add_vm, add_vm_or_dash};
use crate::piece::{Piece, add, add_each, add_list, add_number};
use bosh_base::{CloudDiskLine, CloudListing, HeldDisk, MachineLine};

impl Piece for HeldDisk {
    ghost text = { held_text };

    fn add_to(&self, out: &mut Vec<u8>) -> Result<(), ReportFault> {
        add_disk(out, self.disk)?;
        if self.mounted {
            add(out, b":mounted")
        } else {
            add(out, b":attached")
        }
    }
}

fn running_text(running: bool) -> &'static [u8]
    ensures { result.now ≡ running_text running }
{
    if running { b" running " } else { b" stopped " }
}

impl Piece for MachineLine {
    ghost text = { machine_line };

    fn add_to(&self, out: &mut Vec<u8>) -> Result<(), ReportFault> {
        add_vm(out, self.vm)?;
        add(out, b" ")?;
        self.owner.add_to(out)?;
        add(out, b" ")?;
        self.az.add_to(out)?;
        add(out, b" ")?;
        add_list(out, self.addrs.as_slice())?;
        add(out, running_text(self.running))?;
        add_list(out, self.disks.as_slice())?;
        add(out, b"\n")
    }
}

impl Piece for CloudDiskLine {
    ghost text = { cloud_disk_line };

    fn add_to(&self, out: &mut Vec<u8>) -> Result<(), ReportFault> {
        add_disk(out, self.disk)?;
        add(out, b" ")?;
        self.owner.add_to(out)?;
        add(out, b" ")?;
        add_number(out, u64::from(self.size))?;
        add(out, b" ")?;
        add_vm_or_dash(out, self.vm)?;
        add(out, b"\n")
    }
}

impl Piece for CloudListing {
    ghost text = { cloud_lines };

    fn add_to(&self, out: &mut Vec<u8>) -> Result<(), ReportFault> {
        add_each(out, self.machines.as_slice())?;
        add_each(out, self.disks.as_slice())
    }
}
