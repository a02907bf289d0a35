// What an error of the system means to a shelf.
ghost use Rattle.std.specs.Prelude.{◌≡◌};
ghost use Rattle.std.specs.IoError.{error_kind};
ghost use Rattle.bosh_ports.specs.Errors.{fault_of, fault_of_read};

use crate::ShelfFault;
use std::io;
use std::io::ErrorKind;

impl From<io::Error> for ShelfFault {
    ghost from_gives = { λ error fault. fault ≡ fault_of (error_kind error) };

    fn from(error: io::Error) -> Self {
        match error.kind() {
            ErrorKind::NotFound | ErrorKind::NotADirectory | ErrorKind::InvalidFilename =>
                ShelfFault::Absent,
            ErrorKind::OutOfMemory => ShelfFault::Memory,
            _ => ShelfFault::Failed,
        }
    }
}

/// What an error means that a read from an open file gave.
pub(crate) fn fault_of_read(error: &io::Error) -> ShelfFault
    ensures { result ≡ fault_of_read (error_kind error.now) }
{
    match error.kind() {
        ErrorKind::OutOfMemory => ShelfFault::Memory,
        _ => ShelfFault::Failed,
    }
}
