ghost use Rattle.bosh_refusals.specs.Told.{shelf_told};

use crate::Refuses;
use crate::refusal::refused;
use bosh_base::Refusal;
use bosh_ports::ShelfFault;
use bosh_report::ReportFault;
use std::alloc::Global;

impl Refuses for ShelfFault {
    ghost told = { shelf_told };

    fn refusal(&self, alloc: Global) -> Result<Refusal, ReportFault> {
        match self {
            ShelfFault::Absent => refused(alloc, b"shelf", b"Absent"),
            ShelfFault::TooLarge => refused(alloc, b"shelf", b"TooLarge"),
            ShelfFault::Failed => refused(alloc, b"shelf", b"Failed"),
            ShelfFault::Memory => Err(ReportFault::Memory),
        }
    }
}
