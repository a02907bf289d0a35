// One read or write, made again where the system interrupted it.
ghost use Rattle.std.specs.Prelude.{◌≢◌, ◌≤◌, ◌<◌, IfErr, IfOk, length};
ghost use Rattle.std.specs.Io.{ReadsAtMost};
ghost use Rattle.std.specs.Io.KnownBytes.{ReadConsumes, WriteAppends};
ghost use Rattle.std.specs.IoError.{error_kind};

use std::io;
use std::io::{Error, ErrorKind, Read, Write};

/// One read that no interruption ends. It gives up after 2^64 of them, of which a system has no time.
pub(crate) fn read_once<R: Read>(reader: &mut R, buf: &mut [u8]) -> io::Result<usize>
    ensures within { ReadsAtMost result buf.new }
    ensures bytes { ReadConsumes (R.remaining reader.old) (R.remaining reader.new) result buf.new }
    ensures retried { IfErr result (λ error. error_kind error ≢ ErrorKind.Interrupted) }
{
    for _ in 0..u64::MAX {
        match reader.read(buf) {
            Err(error) if error.kind() == ErrorKind::Interrupted => {}
            answer => return answer,
        }
    }
    Err(Error::from(ErrorKind::TimedOut))
}

/// One write that no interruption ends. A writer that takes no byte of a piece has failed.
pub(crate) fn write_once<W: Write>(writer: &mut W, piece: &[u8]) -> io::Result<usize>
    requires { 0 < length piece.now }
    ensures within { IfOk result (λ count. (1 ≤ count) × (count ≤ length piece.now)) }
    ensures bytes { WriteAppends (W.contents writer.old) (W.contents writer.new) result piece.now }
    ensures retried { IfErr result (λ error. error_kind error ≢ ErrorKind.Interrupted) }
{
    for _ in 0..u64::MAX {
        match writer.write(piece) {
            Ok(0) => return Err(Error::from(ErrorKind::WriteZero)),
            Err(error) if error.kind() == ErrorKind::Interrupted => {}
            answer => return answer,
        }
    }
    Err(Error::from(ErrorKind::TimedOut))
}
