//! Copies of values that hold memory.

ghost use Rattle.std.specs.Prelude.{◌≡◌, IfOk};
ghost use Rattle.bosh_yaml.specs.declared.copied.CopyFault.TheVariants.{Memory};

use std::alloc::{AllocError, AllocFailed, Global};

/// Why a value could not be copied.
#[derive(Debug, Drop)]
pub enum CopyFault {
    /// Memory ran out.
    Memory,
}

impl From<AllocError> for CopyFault {
    ghost from_gives = { λ _ e. e ≡ Memory };

    fn from(_e: AllocError) -> CopyFault {
        CopyFault::Memory
    }
}

impl<T: Drop> From<AllocFailed<T>> for CopyFault {
    ghost from_gives = { λ _ e. e ≡ Memory };

    fn from(_e: AllocFailed<T>) -> CopyFault {
        CopyFault::Memory
    }
}

/// What can be copied.
pub trait Copied {
    /// A value that is equal to this one.
    fn copy(&self, alloc: Global) -> Result<Self, CopyFault>
        ensures { IfOk result (λ c. c ≡ self.now) };
}
