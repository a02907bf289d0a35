ghost use Rattle.bosh_refusals.specs.Told.{links_told};

use crate::Refuses;
use crate::refusal::{refused_both, refused_with};
use bosh_base::Refusal;
use bosh_links::LinkFault;
use bosh_report::ReportFault;
use std::alloc::Global;

impl Refuses for LinkFault {
    ghost told = { links_told };

    fn refusal(&self, alloc: Global) -> Result<Refusal, ReportFault> {
        match self {
            LinkFault::NoProvider { consumer } => {
                refused_with(alloc, b"links", b"NoProvider", consumer)
            }
            LinkFault::Ambiguous { first, second } => {
                refused_both(alloc, b"links", b"Ambiguous", first, second)
            }
            LinkFault::UnknownFrom { name } => refused_with(alloc, b"links", b"UnknownFrom", name),
            LinkFault::TypeDiffers { name } => refused_with(alloc, b"links", b"TypeDiffers", name),
            LinkFault::Memory => Err(ReportFault::Memory),
        }
    }
}
