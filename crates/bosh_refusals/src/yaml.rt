ghost use Rattle.bosh_refusals.specs.Told.{yaml_told};

use crate::Refuses;
use crate::refusal::{refused, refused_with};
use bosh_base::Refusal;
use bosh_report::ReportFault;
use bosh_yaml::ReadFault;
use std::alloc::Global;

impl Refuses for ReadFault {
    ghost told = { yaml_told };

    fn refusal(&self, alloc: Global) -> Result<Refusal, ReportFault> {
        match self {
            ReadFault::Syntax { line } => {
                refused_with(alloc, b"yaml", b"Syntax", &u64::from(*line))
            }
            ReadFault::RepeatedKey { line } => {
                refused_with(alloc, b"yaml", b"RepeatedKey", &u64::from(*line))
            }
            ReadFault::TooDeep => refused(alloc, b"yaml", b"TooDeep"),
            ReadFault::TooLarge => refused(alloc, b"yaml", b"TooLarge"),
            ReadFault::Number => refused(alloc, b"yaml", b"Number"),
            ReadFault::Memory => Err(ReportFault::Memory),
        }
    }
}
