ghost use Rattle.std.specs.Prelude.{◌≡◌};
ghost use Rattle.bosh_cck.specs.declared.fault.CckFault.TheVariants.{Memory};

use bosh_base::CopyFault;
use std::alloc::{AllocError, AllocFailed};

/// Why records were not compared with the cloud.
#[derive(Clone, Copy, Debug, PartialEq, Eq)]
pub enum CckFault {
    Memory,
}

impl From<AllocError> for CckFault {
    ghost from_gives = { λ _ fault. fault ≡ Memory };

    fn from(_: AllocError) -> Self {
        CckFault::Memory
    }
}

impl<T: Drop> From<AllocFailed<T>> for CckFault {
    ghost from_gives = { λ _ fault. fault ≡ Memory };

    fn from(_: AllocFailed<T>) -> Self {
        CckFault::Memory
    }
}

impl From<CopyFault> for CckFault {
    ghost from_gives = { λ _ fault. fault ≡ Memory };

    fn from(_: CopyFault) -> Self {
        CckFault::Memory
    }
}
