ghost use Rattle.std.specs.Prelude.{◌≡◌};
ghost use Rattle.bosh_records.specs.declared.fault.RecordsFault.TheVariants.{Memory};

use bosh_base::CopyFault;
use std::alloc::{AllocError, AllocFailed};

/// Why something was not recorded, or not read from what is recorded.
#[derive(Clone, Copy, Debug, PartialEq, Eq)]
pub enum RecordsFault {
    Memory,
}

impl From<AllocError> for RecordsFault {
    ghost from_gives = { λ _ fault. fault ≡ Memory };

    fn from(_: AllocError) -> Self {
        RecordsFault::Memory
    }
}

impl<T: Drop> From<AllocFailed<T>> for RecordsFault {
    ghost from_gives = { λ _ fault. fault ≡ Memory };

    fn from(_: AllocFailed<T>) -> Self {
        RecordsFault::Memory
    }
}

impl From<CopyFault> for RecordsFault {
    ghost from_gives = { λ _ fault. fault ≡ Memory };

    fn from(_: CopyFault) -> Self {
        RecordsFault::Memory
    }
}
