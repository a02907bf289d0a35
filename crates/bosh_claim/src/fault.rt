ghost use Rattle.std.specs.Prelude.{◌≡◌};
ghost use Rattle.bosh_claim.specs.declared.fault.ClaimFault.TheVariants.{Memory};

use bosh_base::CopyFault;
use bosh_rows::RowFault;
use std::alloc::{AllocError, AllocFailed};

/// Why it was not told what comes next.
#[derive(Clone, Copy, Debug, PartialEq, Eq)]
pub enum ClaimFault {
    Memory,
}

impl From<AllocError> for ClaimFault {
    ghost from_gives = { λ _ fault. fault ≡ Memory };

    fn from(_: AllocError) -> Self {
        ClaimFault::Memory
    }
}

impl<T: Drop> From<AllocFailed<T>> for ClaimFault {
    ghost from_gives = { λ _ fault. fault ≡ Memory };

    fn from(_: AllocFailed<T>) -> Self {
        ClaimFault::Memory
    }
}

impl From<CopyFault> for ClaimFault {
    ghost from_gives = { λ _ fault. fault ≡ Memory };

    fn from(_: CopyFault) -> Self {
        ClaimFault::Memory
    }
}

impl From<RowFault> for ClaimFault {
    ghost from_gives = { λ _ fault. fault ≡ Memory };

    fn from(_: RowFault) -> Self {
        ClaimFault::Memory
    }
}
