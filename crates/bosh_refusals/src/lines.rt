ghost use Rattle.bosh_refusals.specs.Told.{lines_told};

use crate::Refuses;
use crate::refusal::{refused, refused_with};
use bosh_base::Refusal;
use bosh_line_words::LineFault;
use bosh_report::ReportFault;
use std::alloc::Global;

impl Refuses for LineFault {
    ghost told = { lines_told };

    fn refusal(&self, alloc: Global) -> Result<Refusal, ReportFault> {
        match self {
            LineFault::UnknownCommand => refused(alloc, b"lines", b"UnknownCommand"),
            LineFault::BadArgument { place } => {
                refused_with(alloc, b"lines", b"BadArgument", &u64::from(*place))
            }
            LineFault::Missing => refused(alloc, b"lines", b"Missing"),
            LineFault::Extra => refused(alloc, b"lines", b"Extra"),
            LineFault::TooLarge => refused(alloc, b"lines", b"TooLarge"),
            LineFault::BadTogether => refused(alloc, b"lines", b"BadTogether"),
            LineFault::Memory => Err(ReportFault::Memory),
        }
    }
}
