ghost use Rattle.bosh_refusals.specs.Told.{template_told};

use crate::Refuses;
use crate::refusal::{refused, refused_both, refused_with};
use bosh_base::Refusal;
use bosh_report::ReportFault;
use bosh_template::TemplateFault;
use std::alloc::Global;

impl Refuses for TemplateFault {
    ghost told = { template_told };

    fn refusal(&self, alloc: Global) -> Result<Refusal, ReportFault> {
        match self {
            TemplateFault::Syntax { place } => refused_with(alloc, b"template", b"Syntax", place),
            TemplateFault::Undeclared { name } => {
                refused_with(alloc, b"template", b"Undeclared", name)
            }
            TemplateFault::Missing { name } => refused_with(alloc, b"template", b"Missing", name),
            TemplateFault::NotScalar { name } => {
                refused_with(alloc, b"template", b"NotScalar", name)
            }
            TemplateFault::NoLink { name } => refused_with(alloc, b"template", b"NoLink", name),
            TemplateFault::NoInstance { name, index } => {
                refused_both(alloc, b"template", b"NoInstance", name, &u64::from(*index))
            }
            TemplateFault::Limit => refused(alloc, b"template", b"Limit"),
            TemplateFault::Memory => Err(ReportFault::Memory),
        }
    }
}
