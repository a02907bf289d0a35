//! Why a node cannot be filled.

ghost use Rattle.std.specs.Prelude.{◌≡◌};
ghost use Rattle.bosh_vars.specs.declared.fault.VarsFault.TheVariants.{Memory};

use bosh_yaml::{CopyFault, Str};
use std::alloc::{AllocError, AllocFailed};

/// Why a node cannot be filled, or want of memory.
#[derive(Drop)]
pub enum VarsFault {
    /// No value is given for the name of this placeholder.
    Unset { name: Str },
    /// This placeholder stands inside a longer text, and its value is a list or a mapping.
    NotText { name: Str },
    /// Memory ran out.
    Memory,
}

impl From<AllocError> for VarsFault {
    ghost from_gives = { λ _ e. e ≡ Memory };

    fn from(_e: AllocError) -> VarsFault {
        VarsFault::Memory
    }
}

impl<T: Drop> From<AllocFailed<T>> for VarsFault {
    ghost from_gives = { λ _ e. e ≡ Memory };

    fn from(_e: AllocFailed<T>) -> VarsFault {
        VarsFault::Memory
    }
}

impl From<CopyFault> for VarsFault {
    ghost from_gives = { λ _ e. e ≡ Memory };

    fn from(_e: CopyFault) -> VarsFault {
        VarsFault::Memory
    }
}
