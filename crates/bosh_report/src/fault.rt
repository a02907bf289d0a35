ghost use Rattle.std.specs.Prelude.{◌≡◌};
ghost use Rattle.bosh_report.specs.declared.fault.ReportFault.TheVariants.{Memory};

use std::alloc::{AllocError, AllocFailed};

/// Why a reply was not put into words.
#[derive(Clone, Copy, Debug, PartialEq, Eq)]
pub enum ReportFault {
    Memory,
}

impl From<AllocError> for ReportFault {
    ghost from_gives = { λ _ fault. fault ≡ Memory };

    fn from(_: AllocError) -> Self {
        ReportFault::Memory
    }
}

impl<T: Drop> From<AllocFailed<T>> for ReportFault {
    ghost from_gives = { λ _ fault. fault ≡ Memory };

    fn from(_: AllocFailed<T>) -> Self {
        ReportFault::Memory
    }
}
