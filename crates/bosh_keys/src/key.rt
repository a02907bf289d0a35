//! The key of a package for a stemcell.
ghost use Rattle.std.specs.Prelude.{◌≡◌, IfOk};
ghost use Rattle.bosh_keys.specs.Works.{key_of};

use bosh_base::{CopyFault, Copyable, Key, PackageSpec, Stemcell, Text};
use std::alloc::{AllocError, Global};

fn os_of(alloc: Global, stemcell: &Stemcell) -> Result<Text, AllocError>
    ensures { IfOk result (λ os. os ≡ stemcell.now.os) }
{
    Ok(Text::from(Vec::from_slice(alloc, stemcell.os.as_bytes())?))
}

pub(crate) fn key_of(
    alloc: Global,
    stemcell: &Stemcell,
    pack: &PackageSpec,
) -> Result<Key, CopyFault>
    ensures { IfOk result (λ key. key ≡ key_of stemcell.now pack.now) }
{
    let os = os_of(alloc, stemcell)?;
    Ok(Key {
        fingerprint: pack.fingerprint,
        os,
        version: stemcell.version.copy(alloc)?,
    })
}
