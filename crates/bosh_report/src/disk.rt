ghost use Rattle.bosh_report.specs.Disk.{orphan_line};

use crate::ReportFault;
use crate::owner::add_disk;
use crate::piece::{Piece, add, add_number};
use bosh_base::OrphanLine;

impl Piece for OrphanLine {
    ghost text = { orphan_line };

    fn add_to(&self, out: &mut Vec<u8>) -> Result<(), ReportFault> {
        add_disk(out, self.disk)?;
        add(out, b" ")?;
        add_number(out, u64::from(self.size))?;
        add(out, b" ")?;
        self.inst.add_to(out)?;
        add(out, if self.doubt { b" doubt\n" } else { b"\n" })
    }
}
