ghost use Rattle.bosh_refusals.specs.Told.{share_told};

use crate::Refuses;
use crate::refusal::{refused_both, refused_with};
use bosh_base::Refusal;
use bosh_report::ReportFault;
use bosh_share::ShareFault;
use std::alloc::Global;

impl Refuses for ShareFault {
    ghost told = { share_told };

    fn refusal(&self, alloc: Global) -> Result<Refusal, ReportFault> {
        match self {
            ShareFault::NoDeployment { name } => {
                refused_with(alloc, b"share", b"NoDeployment", name)
            }
            ShareFault::NotShared { name } => refused_with(alloc, b"share", b"NotShared", name),
            ShareFault::NoProvider { consumer } => {
                refused_with(alloc, b"share", b"NoProvider", consumer)
            }
            ShareFault::Ambiguous { first, second } => {
                refused_both(alloc, b"share", b"Ambiguous", first, second)
            }
            ShareFault::TypeDiffers { name } => refused_with(alloc, b"share", b"TypeDiffers", name),
            ShareFault::Memory => Err(ReportFault::Memory),
        }
    }
}
