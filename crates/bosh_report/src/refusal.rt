ghost use Rattle.bosh_report.specs.Refusal.{refusal_line};

use crate::ReportFault;
use crate::piece::{Piece, add, add_each_after};
use bosh_base::Refusal;

impl Piece for Refusal {
    ghost text = { refusal_line };

    fn add_to(&self, out: &mut Vec<u8>) -> Result<(), ReportFault> {
        add(out, b"error: ")?;
        self.word.add_to(out)?;
        add(out, b" ")?;
        self.variant.add_to(out)?;
        add_each_after(out, b" ", self.fields.as_slice())?;
        add(out, b"\n")
    }
}
