//! Packages without their fingerprints.
ghost use Rattle.std.specs.Prelude.{◌≡◌, IfOk, codes};
ghost use Rattle.bosh_release.specs.Draft.{both_files, package_of, package_path};
ghost use Rattle.bosh_release_files.specs.Answer.{IsAnswer, IsAnswerSeen};

use crate::reading::{check_name, package_at};
use crate::required::{both_files, path_in};
use bosh_base::{Digest, Name, Seq, Text};
use bosh_release_files::{Folder, Pattern, ReleaseFault, Sources};
use bosh_release_listing::fingerprint;
use std::alloc::{AllocError, Global};

/// A package without its fingerprint.
#[derive(Drop)]
pub(crate) struct PackageDraft {
    pub name: Name,
    /// The digest of its script.
    pub script: Digest,
    /// Each takes some file.
    pub patterns: Seq<Pattern>,
    /// As its spec writes them.
    pub dependencies: Seq<Name>,
}

fn package_path(alloc: Global, name: &[u8], file: &[u8]) -> Result<Text, AllocError>
    ensures { IfOk result (λ path. path ≡ package_path name.now file.now) }
{
    path_in(alloc, b"packages/", name, file)
}

// The bytes of the spec and of the script.
fn package_files<'a>(
    alloc: Global,
    folder: &Folder<'a>,
    name: &[u8],
) -> Result<(&'a [u8], &'a [u8]), ReleaseFault>
    ensures { IsAnswerSeen (λ both. (both.0.now, both.1.now)) result
        (both_files folder.now (package_path name.now (codes "/spec")) (package_path name.now (codes "/packaging"))) }
{
    let spec = package_path(alloc, name, b"/spec")?;
    let script = package_path(alloc, name, b"/packaging")?;
    both_files(alloc, folder, spec.as_slice(), script.as_slice())
}

/// The package of a folder in `packages/`.
// Dear to prove: what the spec says is alive where the name differs, or a pattern is none.
#[tactic(auto, unfolding(crate::specs::Draft::package_of))]
pub(crate) fn package_of(
    alloc: Global,
    folder: &Folder<'_>,
    sources: &Sources<'_>,
    name: &[u8],
) -> Result<PackageDraft, ReleaseFault>
    ensures { IsAnswer result (package_of folder.now sources.now name.now) }
{
    let (spec, script) = package_files(alloc, folder, name)?;
    let path = package_path(alloc, name, b"/spec")?;
    let description = package_at(alloc, path.as_slice(), spec)?;
    check_name(alloc, path.as_slice(), name, &description.name)?;
    let patterns = sources.patterns(alloc, description.files.as_slice())?;
    Ok(PackageDraft {
        name: description.name,
        script: fingerprint(script),
        patterns,
        dependencies: description.dependencies,
    })
}
