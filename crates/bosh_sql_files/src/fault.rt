ghost use Rattle.std.specs.Prelude.{◌≡◌};
ghost use Rattle.bosh_sql_files.specs.Faults.{create_fault_of, open_fault_of, probe_fault_of};

use sqlite::{Error, ErrorCode};
use sqlite_store::OpenError;

/// Why the files of a store are not open.
#[derive(Clone, Copy, Debug, PartialEq, Eq)]
pub enum OpenFault {
    /// They hold no database, they are in use, or the disk failed.
    Failed,
    Memory,
}

/// How a refusal to open files that hold something is told.
pub(crate) fn open_fault_of(error: Error) -> OpenFault
    ensures { result ≡ open_fault_of error }
{
    match error {
        Error::SqliteFailure(ErrorCode::OutOfMemory) => OpenFault::Memory,
        _ => OpenFault::Failed,
    }
}

/// How it is told that no database could be made in them.
pub(crate) fn create_fault_of(error: OpenError) -> OpenFault
    ensures { result ≡ create_fault_of error }
{
    match error {
        OpenError::OutOfMemory => OpenFault::Memory,
        _ => OpenFault::Failed,
    }
}

/// How it is told that they could not be read.
pub(crate) fn probe_fault_of(error: sqlite_wal::Error) -> OpenFault
    ensures { result ≡ probe_fault_of error }
{
    match error {
        sqlite_wal::Error::OutOfMemory => OpenFault::Memory,
        _ => OpenFault::Failed,
    }
}
