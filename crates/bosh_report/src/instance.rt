ghost use Rattle.std.specs.Prelude.{◌≡◌, ◌++◌, OnOk};
ghost use Rattle.bosh_report.specs.Instance.{instance_line, state_text};

use crate::ReportFault;
use crate::owner::{add_disk_or_dash, add_member, add_vm_or_dash};
use crate::piece::{Piece, add, add_list};
use bosh_base::{InstanceLine, Shown};

fn state_text(state: Shown) -> &'static [u8]
    ensures { result.now ≡ state_text state }
{
    match state {
        Shown::Doubt => b"doubt",
        Shown::Absent => b"absent",
        Shown::Running => b"running",
        Shown::Stopped => b"stopped",
    }
}

impl Piece for InstanceLine {
    ghost text = { instance_line };

    fn add_to(&self, out: &mut Vec<u8>) -> Result<(), ReportFault> {
        add_member(out, &self.group, self.index)?;
        add(out, b" ")?;
        add(out, state_text(self.state))?;
        add(out, b" ")?;
        self.az.add_to(out)?;
        add(out, b" ")?;
        add_list(out, self.addrs.as_slice())?;
        add(out, b" ")?;
        add_vm_or_dash(out, self.vm)?;
        add(out, b" ")?;
        add_disk_or_dash(out, self.disk)?;
        add(out, b"\n")
    }
}
