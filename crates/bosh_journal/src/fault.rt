ghost use Rattle.std.specs.Prelude.{◌≡◌};
ghost use Rattle.bosh_journal.specs.Appends.{is_store_fault};
ghost use Rattle.bosh_journal.specs.Faults.{of_keeper};
ghost use Rattle.bosh_journal.specs.declared.fault.JournalFault.TheVariants.{Memory};

use bosh_base::CopyFault;
use bosh_ports::KeepFault;
use std::alloc::{AllocError, AllocFailed};

/// Why a journal did not do what it was asked.
#[derive(Clone, Copy, Debug, PartialEq, Eq)]
pub enum JournalFault {
    /// Its store failed, and the journal has to be reloaded.
    StoreFault,
    /// The body at this place of the store, counted from 0, is the first that spells no entry of a director.
    Damaged { position: u64 },
    /// Its store failed before, or a reload was refused, and the journal was not reloaded since.
    Broken,
    Memory,
}

impl From<AllocError> for JournalFault {
    ghost from_gives = { λ _ fault. fault ≡ Memory };

    fn from(_: AllocError) -> Self {
        JournalFault::Memory
    }
}

impl<T: Drop> From<AllocFailed<T>> for JournalFault {
    ghost from_gives = { λ _ fault. fault ≡ Memory };

    fn from(_: AllocFailed<T>) -> Self {
        JournalFault::Memory
    }
}

impl From<CopyFault> for JournalFault {
    ghost from_gives = { λ _ fault. fault ≡ Memory };

    fn from(_: CopyFault) -> Self {
        JournalFault::Memory
    }
}

impl From<KeepFault> for JournalFault {
    ghost from_gives = { λ keep fault. fault ≡ of_keeper keep };

    fn from(fault: KeepFault) -> Self {
        match fault {
            KeepFault::Failed => JournalFault::StoreFault,
            KeepFault::Broken => JournalFault::Broken,
            KeepFault::Memory => JournalFault::Memory,
        }
    }
}

/// Whether an answer is that the store failed.
pub(crate) fn is_store_fault(answer: &Result<(), JournalFault>) -> bool
    ensures { result ≡ is_store_fault answer.now }
{
    matches!(answer, Err(JournalFault::StoreFault))
}
