ghost use Rattle.bosh_refusals.specs.Told.{release_told};

use crate::Refuses;
use crate::refusal::{refused_both, refused_with};
use bosh_base::Refusal;
use bosh_release_files::ReleaseFault;
use bosh_report::ReportFault;
use std::alloc::Global;

impl Refuses for ReleaseFault {
    ghost told = { release_told };

    fn refusal(&self, alloc: Global) -> Result<Refusal, ReportFault> {
        match self {
            ReleaseFault::Missing { path } => refused_with(alloc, b"release", b"Missing", path),
            ReleaseFault::Spec { path, line } => {
                refused_both(alloc, b"release", b"Spec", path, &u64::from(*line))
            }
            ReleaseFault::NameDiffers { path } => {
                refused_with(alloc, b"release", b"NameDiffers", path)
            }
            ReleaseFault::UnknownPackage { name } => {
                refused_with(alloc, b"release", b"UnknownPackage", name)
            }
            ReleaseFault::Cycle { name } => refused_with(alloc, b"release", b"Cycle", name),
            ReleaseFault::Pattern { text } => refused_with(alloc, b"release", b"Pattern", text),
            ReleaseFault::NoMatch { text } => refused_with(alloc, b"release", b"NoMatch", text),
            ReleaseFault::Limit { key } => refused_with(alloc, b"release", b"Limit", key),
            ReleaseFault::Memory => Err(ReportFault::Memory),
        }
    }
}
