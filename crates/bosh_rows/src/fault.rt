ghost use Rattle.std.specs.Prelude.{◌≡◌};
ghost use Rattle.bosh_rows.specs.declared.fault.RowFault.TheVariants.{Memory};

use bosh_base::CopyFault;
use std::alloc::AllocFailed;

/// Why a call was not made, or what is recorded of an instance not changed.
#[derive(Clone, Copy, Debug, PartialEq, Eq)]
pub enum RowFault {
    Memory,
}

impl<T: Drop> From<AllocFailed<T>> for RowFault {
    ghost from_gives = { λ _ fault. fault ≡ Memory };

    fn from(_: AllocFailed<T>) -> Self {
        RowFault::Memory
    }
}

impl From<CopyFault> for RowFault {
    ghost from_gives = { λ _ fault. fault ≡ Memory };

    fn from(_: CopyFault) -> Self {
        RowFault::Memory
    }
}
