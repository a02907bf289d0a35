ghost use Rattle.std.specs.Prelude.{IfOk};
ghost use Rattle.sqlite.specs.Files.{file_state, IsOpened};
ghost use Rattle.sqlite.specs.Held.{IsNew};
ghost use Rattle.sqlite.specs.State.{HasCleanDisk};

use crate::{OpenFault, open_files, options_of};
use sqlite::{Connection, File, FileStore, Unknown};
use sqlite_std_file::OpenError;
use std::hash::{BuildHasher, RandomState};
use std::io::ErrorKind;

/// Opens the database file at a path with its log, or makes them, as `open_files` does. No other process may have them
/// open.
pub fn open(rt: &HostRuntime, path: &str) -> Result<Connection<FileStore<File>>, OpenFault>
    ensures opened { IfOk result (λ connection. HasCleanDisk (file_state connection) → IsOpened connection) }
    ensures fresh { IfOk result IsNew }
    ensures guarded { IfOk result (λ connection. HasCleanDisk (file_state connection) → (file_state connection).IsShielded) }
{
    let seed = match RandomState::new(rt) {
        Ok(state) => state.hash_one(&0u8),
        Err(_) => return Err(OpenFault::Failed),
    };
    match sqlite_std_file::open(rt, path, Unknown) {
        Ok(files) => open_files(rt.alloc(), files, options_of(seed)),
        Err(OpenError::OutOfMemory) => Err(OpenFault::Memory),
        Err(OpenError::Io(error)) if error.kind() == ErrorKind::OutOfMemory => {
            Err(OpenFault::Memory)
        }
        Err(_) => Err(OpenFault::Failed),
    }
}
