//! Files that have to be there.
ghost use Rattle.std.specs.Prelude.{◌≡◌, IfOk};
ghost use Rattle.bosh_release.specs.Draft.{both_files, path_in, required_at};
ghost use Rattle.bosh_release_files.specs.Answer.{IsAnswerSeen};

use bosh_base::Text;
use bosh_release_files::{Folder, ReleaseFault, missing};
use std::alloc::{AllocError, Global};

/// A path in the folder of a thing of a kind, as `jobs/web/spec`.
pub(crate) fn path_in(
    alloc: Global,
    kind: &[u8],
    name: &[u8],
    file: &[u8],
) -> Result<Text, AllocError>
    ensures { IfOk result (λ path. path ≡ path_in kind.now name.now file.now) }
{
    let mut path = Vec::new(alloc);
    path.extend_from_slice(kind)?;
    path.extend_from_slice(name)?;
    path.extend_from_slice(file)?;
    Ok(Text::from(path))
}

/// The bytes of a file.
pub(crate) fn required_at<'a>(
    alloc: Global,
    folder: &Folder<'a>,
    path: &[u8],
) -> Result<&'a [u8], ReleaseFault>
    ensures { IsAnswerSeen (λ bytes. bytes.now) result (required_at folder.now path.now) }
{
    match folder.bytes_at(path) {
        Some(bytes) => Ok(bytes),
        None => missing(alloc, path),
    }
}

/// The bytes of two files, the first of which is missed first.
pub(crate) fn both_files<'a>(
    alloc: Global,
    folder: &Folder<'a>,
    first_path: &[u8],
    second_path: &[u8],
) -> Result<(&'a [u8], &'a [u8]), ReleaseFault>
    ensures { IsAnswerSeen (λ both. (both.0.now, both.1.now)) result (both_files folder.now first_path.now second_path.now) }
{
    let first = required_at(alloc, folder, first_path)?;
    let second = required_at(alloc, folder, second_path)?;
    Ok((first, second))
}
