ghost use Rattle.bosh_refusals.specs.Told.{config_told};

use crate::Refuses;
use crate::refusal::{refused, refused_with};
use bosh_base::Refusal;
use bosh_cloudcfg::ConfigFault;
use bosh_report::ReportFault;
use std::alloc::Global;

impl Refuses for ConfigFault {
    ghost told = { config_told };

    // Dear to prove, since each of its many reasons is a case.
    fn refusal(&self, alloc: Global) -> Result<Refusal, ReportFault> {
        match self {
            ConfigFault::Missing { key } => refused_with(alloc, b"config", b"Missing", key),
            ConfigFault::WrongKind { key } => refused_with(alloc, b"config", b"WrongKind", key),
            ConfigFault::Repeated { name } => refused_with(alloc, b"config", b"Repeated", name),
            ConfigFault::Unknown { name } => refused_with(alloc, b"config", b"Unknown", name),
            ConfigFault::Address { key } => refused_with(alloc, b"config", b"Address", key),
            ConfigFault::OutsideRange { addr } => {
                refused_with(alloc, b"config", b"OutsideRange", addr)
            }
            ConfigFault::StaticReserved { addr } => {
                refused_with(alloc, b"config", b"StaticReserved", addr)
            }
            ConfigFault::Overlap => refused(alloc, b"config", b"Overlap"),
            ConfigFault::Unsupported { key } => refused_with(alloc, b"config", b"Unsupported", key),
            ConfigFault::Limit { key } => refused_with(alloc, b"config", b"Limit", key),
            ConfigFault::Memory => Err(ReportFault::Memory),
        }
    }
}
