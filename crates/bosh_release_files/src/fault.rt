ghost use Rattle.std.specs.Prelude.{◌≡◌, Err, IfOk};
ghost use Rattle.bosh_release_files.specs.Answer.{IsAnswer};
ghost use Rattle.bosh_release_files.specs.declared.fault.ReleaseFault.TheVariants.{Missing, Spec, NameDiffers, UnknownPackage, Cycle, Pattern, NoMatch, Limit, Memory};

use bosh_base::{CopyFault, Text};
use std::alloc::{AllocError, AllocFailed, Global};

/// Why files spell no release.
#[derive(Drop)]
pub enum ReleaseFault {
    /// A file that has to be there is not.
    Missing { path: Text },
    /// A file does not read, by the line that the reader names; or, with line 0, it has not the fields that it needs.
    Spec { path: Text, line: u32 },
    /// The spec of a job or a package has not the name of its folder.
    NameDiffers { path: Text },
    /// A package that a job or a package needs is not in the release.
    UnknownPackage { name: Text },
    /// A package needs itself, at once or by others.
    Cycle { name: Text },
    /// A pattern of files has none of the forms that are known.
    Pattern { text: Text },
    /// No file has a path of the pattern.
    NoMatch { text: Text },
    /// There are more `jobs`, `packages` or `files` than a release may have.
    Limit { key: Text },
    Memory,
}

impl From<AllocError> for ReleaseFault {
    ghost from_gives = { λ _ fault. fault ≡ Memory };

    fn from(_: AllocError) -> Self {
        ReleaseFault::Memory
    }
}

impl<T: Drop> From<AllocFailed<T>> for ReleaseFault {
    ghost from_gives = { λ _ fault. fault ≡ Memory };

    fn from(_: AllocFailed<T>) -> Self {
        ReleaseFault::Memory
    }
}

impl From<CopyFault> for ReleaseFault {
    ghost from_gives = { λ _ fault. fault ≡ Memory };

    fn from(_: CopyFault) -> Self {
        ReleaseFault::Memory
    }
}

pub(crate) fn text_of(alloc: Global, bytes: &[u8]) -> Result<Text, AllocError>
    ensures { IfOk result (λ text. text ≡ bytes.now) }
{
    Ok(Text::from(Vec::from_slice(alloc, bytes)?))
}

/// Refuses files without the one of this path.
pub fn missing<T>(alloc: Global, path: &[u8]) -> Result<T, ReleaseFault>
    ensures { IsAnswer result (Err (Missing path.now)) }
{
    let path = text_of(alloc, path)?;
    Err(ReleaseFault::Missing { path })
}

/// Refuses a file that does not read, or has not the fields that it needs.
pub fn malformed_spec<T>(alloc: Global, path: &[u8], line: u32) -> Result<T, ReleaseFault>
    ensures { IsAnswer result (Err (Spec path.now line)) }
{
    let path = text_of(alloc, path)?;
    Err(ReleaseFault::Spec { path, line })
}

/// Refuses a spec that has not the name of its folder.
pub fn name_differs<T>(alloc: Global, path: &[u8]) -> Result<T, ReleaseFault>
    ensures { IsAnswer result (Err (NameDiffers path.now)) }
{
    let path = text_of(alloc, path)?;
    Err(ReleaseFault::NameDiffers { path })
}

/// Refuses a package that is needed and not there.
pub fn unknown_package<T>(alloc: Global, name: &[u8]) -> Result<T, ReleaseFault>
    ensures { IsAnswer result (Err (UnknownPackage name.now)) }
{
    let name = text_of(alloc, name)?;
    Err(ReleaseFault::UnknownPackage { name })
}

/// Refuses a package that needs itself.
pub fn cycle<T>(alloc: Global, name: &[u8]) -> Result<T, ReleaseFault>
    ensures { IsAnswer result (Err (Cycle name.now)) }
{
    let name = text_of(alloc, name)?;
    Err(ReleaseFault::Cycle { name })
}

/// Refuses a text that is no pattern.
pub(crate) fn no_pattern<T>(alloc: Global, text: &[u8]) -> Result<T, ReleaseFault>
    ensures { IsAnswer result (Err (Pattern text.now)) }
{
    let text = text_of(alloc, text)?;
    Err(ReleaseFault::Pattern { text })
}

/// Refuses a pattern that takes no file.
pub(crate) fn no_match<T>(alloc: Global, text: &[u8]) -> Result<T, ReleaseFault>
    ensures { IsAnswer result (Err (NoMatch text.now)) }
{
    let text = text_of(alloc, text)?;
    Err(ReleaseFault::NoMatch { text })
}

/// Refuses more than a release may have.
pub fn limit<T>(alloc: Global, key: &[u8]) -> Result<T, ReleaseFault>
    ensures { IsAnswer result (Err (Limit key.now)) }
{
    let key = text_of(alloc, key)?;
    Err(ReleaseFault::Limit { key })
}
