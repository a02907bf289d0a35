ghost use Rattle.std.specs.Prelude.{◌≡◌, IfOk, Some};
ghost use Rattle.bosh_desk.specs.SiteFaults.{site_told};

use bosh_base::Refusal;
use bosh_refusals::{Refuses, refused, refused_with};
use bosh_report::ReportFault;
use bosh_world::SiteFault;
use std::alloc::Global;

/// How it is told why a site did not do what it was asked.
pub fn refusal_of(alloc: Global, fault: &SiteFault) -> Result<Refusal, ReportFault>
    ensures { IfOk result (λ it. site_told fault.now ≡ Some it) }
{
    match fault {
        SiteFault::Book(fault) => fault.refusal(alloc),
        SiteFault::CloudStore => refused(alloc, b"world", b"CloudStore"),
        SiteFault::CloudDamaged { position } => {
            refused_with(alloc, b"world", b"CloudDamaged", position)
        }
        SiteFault::NotRunning { inst } => refused_with(alloc, b"world", b"NotRunning", inst),
        SiteFault::NoMachine { inst } => refused_with(alloc, b"world", b"NoMachine", inst),
        SiteFault::Memory => Err(ReportFault::Memory),
    }
}
