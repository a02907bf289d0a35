ghost use Rattle.bosh_report.specs.Joint.{joint_text};

use crate::ReportFault;
use crate::piece::{Piece, add};
use bosh_base::Joint;

/// `DEPLOYMENT/GROUP/JOB.LINK`
impl Piece for Joint {
    ghost text = { joint_text };

    fn add_to(&self, out: &mut Vec<u8>) -> Result<(), ReportFault> {
        self.dep.add_to(out)?;
        add(out, b"/")?;
        self.group.add_to(out)?;
        add(out, b"/")?;
        self.job.add_to(out)?;
        add(out, b".")?;
        self.link.add_to(out)
    }
}
