// Files by their paths.
ghost use Rattle.std.specs.Prelude.{◌≡◌, ◌≤◌, ℕ, List, Option, Some, IfSome, IfOk, length};
ghost use Rattle.bosh_ports.specs.Faults.{NeverFalls};
ghost use Rattle.bosh_ports.specs.Shelf.{AnswersFile, AnswersPaths, FailsByCount, IsListing};
ghost use Rattle.bosh_ports.specs.Shelf.{file_at, has_line_feed, is_below, paths_below};
ghost use Rattle.bosh_ports.specs.declared.shelf.ShelfFault.TheVariants.{Memory};

use crate::Paths;
use std::alloc::{AllocError, AllocFailed, Global};

/// The bytes of the largest file that a shelf reads.
pub const MOST_BYTES: usize = 1_048_576;

/// The most paths that a shelf lists.
pub const MOST_PATHS: usize = 4_096;

/// Why a shelf gave nothing.
#[derive(Clone, Copy, Debug, PartialEq, Eq)]
pub enum ShelfFault {
    /// There is no such file, or no file below the folder.
    Absent,
    /// The file has more than `MOST_BYTES` bytes, or more than `MOST_PATHS` paths lie below the folder. A shelf over the
    /// system's folders says it also where more folders than that were to be read, the one asked for among them.
    TooLarge,
    /// The shelf failed, and the call may be made again.
    Failed,
    Memory,
}

impl From<AllocError> for ShelfFault {
    ghost from_gives = { λ _ e. e ≡ Memory };

    fn from(_: AllocError) -> Self {
        ShelfFault::Memory
    }
}

impl<T: Drop> From<AllocFailed<T>> for ShelfFault {
    ghost from_gives = { λ _ e. e ≡ Memory };

    fn from(_: AllocFailed<T>) -> Self {
        ShelfFault::Memory
    }
}

/// Files by their paths, which are bytes with `/` between the names of folders, and never a line feed.
pub trait Shelf {
    /// The files, each a path and its bytes, in the byte order of the paths, where it tells them.
    ghost files: { Self → Option (List (List ℕ × List ℕ)) };

    /// How often it has failed.
    ghost faults: { Self → ℕ };

    /// How often it has failed, up to the last number of 64 bits.
    fn faults(&self) -> u64
        ensures { result ≡ faults self.now };

    /// The bytes of the file at a path.
    fn read(&mut self, alloc: Global, path: &[u8]) -> Result<Vec<u8>, ShelfFault>
        ensures answer { IfSome (files self.old) (λ before. AnswersFile result (file_at before path.now)) }
        ensures size { IfOk result (λ bytes. length bytes.items ≤ MOST_BYTES) }
        ensures files { IfSome (files self.old) (λ before. files self.new ≡ Some before) }
        ensures count { NeverFalls (faults self.old) (faults self.new) }
        ensures failed { FailsByCount result (faults self.old) (faults self.new) };

    /// The paths below a folder, whole, in byte order. The folder is given without a slash at its end.
    fn list(&mut self, alloc: Global, folder: &[u8]) -> Result<Paths, ShelfFault>
        ensures answer { IfSome (files self.old) (λ before. AnswersPaths result (paths_below folder.now before)) }
        ensures listing { IfOk result (λ paths. IsListing folder.now paths) }
        ensures files { IfSome (files self.old) (λ before. files self.new ≡ Some before) }
        ensures count { NeverFalls (faults self.old) (faults self.new) }
        ensures failed { FailsByCount result (faults self.old) (faults self.new) };
}

/// Whether a line feed stands in a path, which then is on no shelf.
pub fn has_line_feed(path: &[u8]) -> bool
    ensures { result ≡ has_line_feed path.now }
{
    path.contains(&b'\n')
}

/// Whether a path begins with the folder and a slash.
pub fn is_below(folder: &[u8], path: &[u8]) -> bool
    ensures { result ≡ is_below folder.now path.now }
{
    if path.len() <= folder.len() {
        return false;
    }
    path.starts_with(folder) && path[folder.len()] == b'/'
}
