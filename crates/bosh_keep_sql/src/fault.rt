ghost use Rattle.std.specs.Prelude.{◌≡◌};
ghost use Rattle.bosh_keep_sql.specs.declared.fault.LoadFault.TheVariants.{Memory};
ghost use Rattle.bosh_keep_sql.specs.Faults.{fault_of, kept_as, load_fault_of};

use bosh_ports::KeepFault;
use sqlite::{Error, ErrorCode};
use std::alloc::{AllocError, AllocFailed};

/// Why there is no keeper over a database.
#[derive(Clone, Copy, Debug, PartialEq, Eq)]
pub enum LoadFault {
    /// The database refused a statement, or failed at it.
    Failed,
    /// It has something else than the table of a keeper.
    Foreign,
    /// The row at this place, counted from 0, has another position.
    Gap { place: u64 },
    /// The row at this place, counted from 0, has no body.
    NotABody { place: u64 },
    Memory,
}

impl From<AllocError> for LoadFault {
    ghost from_gives = { λ _ fault. fault ≡ Memory };

    fn from(_: AllocError) -> Self {
        LoadFault::Memory
    }
}

impl<T: Drop> From<AllocFailed<T>> for LoadFault {
    ghost from_gives = { λ _ fault. fault ≡ Memory };

    fn from(_: AllocFailed<T>) -> Self {
        LoadFault::Memory
    }
}

/// How a keeper tells a refusal of the database.
pub(crate) fn fault_of(error: Error) -> KeepFault
    ensures { result ≡ fault_of error }
{
    match error {
        Error::SqliteFailure(ErrorCode::OutOfMemory) => KeepFault::Memory,
        _ => KeepFault::Failed,
    }
}

/// How a load tells it.
pub(crate) fn load_fault_of(error: Error) -> LoadFault
    ensures { result ≡ load_fault_of error }
{
    match error {
        Error::SqliteFailure(ErrorCode::OutOfMemory) => LoadFault::Memory,
        _ => LoadFault::Failed,
    }
}

/// How a keeper tells what is wrong with its rows.
pub(crate) fn kept_as(fault: LoadFault) -> KeepFault
    ensures { result ≡ kept_as fault }
{
    match fault {
        LoadFault::Memory => KeepFault::Memory,
        _ => KeepFault::Failed,
    }
}
