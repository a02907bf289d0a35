ghost use Rattle.bosh_refusals.specs.Told.{book_told};

use crate::Refuses;
use crate::refusal::{refused, refused_with};
use bosh_asks::BookFault;
use bosh_base::Refusal;
use bosh_report::{DiskNumber, ReportFault};
use std::alloc::Global;

impl Refuses for BookFault {
    ghost told = { book_told };

    // Dear to prove, since each of its many reasons is a case.
    fn refusal(&self, alloc: Global) -> Result<Refusal, ReportFault> {
        match self {
            BookFault::Stopped => refused(alloc, b"book", b"Stopped"),
            BookFault::StoreFault => refused(alloc, b"book", b"StoreFault"),
            BookFault::Damaged { position } => refused_with(alloc, b"book", b"Damaged", position),
            BookFault::Locked { task } => refused_with(alloc, b"book", b"Locked", task),
            BookFault::Differs { name } => refused_with(alloc, b"book", b"Differs", name),
            BookFault::NoDeployment { name } => refused_with(alloc, b"book", b"NoDeployment", name),
            BookFault::NoInstance { inst } => refused_with(alloc, b"book", b"NoInstance", inst),
            BookFault::NoDisk { disk } => {
                refused_with(alloc, b"book", b"NoDisk", &DiskNumber(*disk))
            }
            BookFault::NotOrphaned { disk } => {
                refused_with(alloc, b"book", b"NotOrphaned", &DiskNumber(*disk))
            }
            BookFault::Goal(fault) => fault.refusal(alloc),
            BookFault::Limit => refused(alloc, b"book", b"Limit"),
            BookFault::Full => refused(alloc, b"book", b"Full"),
            BookFault::Consumed { by } => refused_with(alloc, b"book", b"Consumed", by),
            BookFault::Memory => Err(ReportFault::Memory),
        }
    }
}
