ghost use Rattle.std.specs.Prelude.{◌≡◌};
ghost use Rattle.bosh_compile.specs.declared.fault.CompileFault.TheVariants.{Memory};

use bosh_base::CopyFault;
use std::alloc::{AllocError, AllocFailed};

/// Why works were not ordered.
#[derive(Clone, Copy, Debug, PartialEq, Eq)]
pub enum CompileFault {
    Memory,
}

impl From<AllocError> for CompileFault {
    ghost from_gives = { λ _ fault. fault ≡ Memory };

    fn from(_: AllocError) -> Self {
        CompileFault::Memory
    }
}

impl<T: Drop> From<AllocFailed<T>> for CompileFault {
    ghost from_gives = { λ _ fault. fault ≡ Memory };

    fn from(_: AllocFailed<T>) -> Self {
        CompileFault::Memory
    }
}

impl From<CopyFault> for CompileFault {
    ghost from_gives = { λ _ fault. fault ≡ Memory };

    fn from(_: CopyFault) -> Self {
        CompileFault::Memory
    }
}
