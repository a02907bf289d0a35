//! Files that stand beside one another.
ghost use Rattle.std.specs.Prelude.{◌≡◌, ◌≤◌, true, false, is_some, length, map};
ghost use Rattle.std.specs.List.Sorted.{IsPartitionPoint};
ghost use Rattle.bosh_release_files.specs.Files.{after};
ghost use Rattle.bosh_release_files.specs.Sources.{IsInOrder, IsSpan, path_of, spans};
ghost use Rattle.bosh_release_files.specs.Span.{comes_before, comes_up_to};

use crate::Form;
use crate::path::after;
use bosh_release_listing::Stamp;

/// The places from one up to another.
#[derive(Clone, Copy)]
pub(crate) struct Span {
    pub start: usize,
    /// The first place behind.
    pub end: usize,
}

fn comes_before(front: &[u8], path: &[u8]) -> bool
    ensures { result ≡ comes_before front.now path.now }
{
    path.cmp(front).is_lt()
}

fn comes_up_to(front: &[u8], path: &[u8]) -> bool
    ensures { result ≡ comes_up_to front.now path.now }
{
    comes_before(front, path) || after(front, path).is_some()
}

// The place of the first file that is not before a front.
fn first_not_before(files: &[Stamp<'_>], front: &[u8]) -> usize
    requires { IsInOrder (map path_of files.now) }
    ensures within { result ≤ length files.now }
    ensures point { IsPartitionPoint (λ file. comes_before front.now (path_of file) ≡ true)
        (λ file. comes_before front.now (path_of file) ≡ false) files.now result }
{
    files.partition_point(|file| comes_before(front, file.name))
}

fn first_behind(files: &[Stamp<'_>], front: &[u8]) -> usize
    requires { IsInOrder (map path_of files.now) }
    ensures within { result ≤ length files.now }
    ensures point { IsPartitionPoint (λ file. comes_up_to front.now (path_of file) ≡ true)
        (λ file. comes_up_to front.now (path_of file) ≡ false) files.now result }
{
    files.partition_point(|file| comes_up_to(front, file.name))
}

/// The files whose paths begin with a front.
pub(crate) fn span_below(files: &[Stamp<'_>], front: &[u8]) -> Span
    requires { IsInOrder (map path_of files.now) }
    ensures { IsSpan files.now (λ path. is_some (after front.now path)) result }
{
    let start = first_not_before(files, front);
    let end = first_behind(files, front);
    Span { start, end }
}

/// The files that a pattern takes, where it takes them beside one another.
pub(crate) fn span_of(files: &[Stamp<'_>], form: &Form) -> Span
    requires { IsInOrder (map path_of files.now) }
    ensures { IsSpan files.now (spans form.now) result }
{
    match form {
        Form::Every => Span {
            start: 0,
            end: files.len(),
        },
        Form::Below(front) => span_below(files, front.as_slice()),
        Form::In(_) => Span { start: 0, end: 0 },
        Form::Exact(_) => Span { start: 0, end: 0 },
    }
}
