ghost use Rattle.std.specs.Prelude.{◌≡◌};
ghost use Rattle.bosh_entry.specs.declared.fault.EntryFault.TheVariants.{Memory};

use std::alloc::{AllocError, AllocFailed};

/// Why an entry was not written or read.
#[derive(Clone, Copy, Debug, PartialEq, Eq)]
pub enum EntryFault {
    /// The bytes spell no entry.
    NotAnEntry,
    Memory,
}

impl From<AllocError> for EntryFault {
    ghost from_gives = { λ _ fault. fault ≡ Memory };

    fn from(_: AllocError) -> Self {
        EntryFault::Memory
    }
}

impl<T: Drop> From<AllocFailed<T>> for EntryFault {
    ghost from_gives = { λ _ fault. fault ≡ Memory };

    fn from(_: AllocFailed<T>) -> Self {
        EntryFault::Memory
    }
}
