ghost use Rattle.std.specs.Prelude.{◌≡◌, ◌⊎◌, IfOk};
ghost use Rattle.bosh_asks.specs.Faults.{name_and_version};
ghost use Rattle.bosh_asks.specs.declared.fault.BookFault.TheVariants.{Differs, Memory};

use crate::BookFault;
use bosh_base::{Name, Text};
use std::alloc::{AllocError, Global};

// As `web/2.1`.
fn name_and_version(alloc: Global, name: &Name, version: &[u8]) -> Result<Text, AllocError>
    ensures { IfOk result (λ text. text ≡ name_and_version name.now version.now) }
{
    let mut text = Vec::new(alloc);
    text.extend_from_slice(name.as_bytes())?;
    text.push(b'/')?;
    text.extend_from_slice(version)?;
    Ok(Text::from(text))
}

/// That what is recorded under a name and a version is another thing, or want of memory to tell so.
pub fn differs(alloc: Global, name: &Name, version: &[u8]) -> BookFault
    ensures { (result ≡ Differs (name_and_version name.now version.now)) ⊎ (result ≡ Memory) }
{
    match name_and_version(alloc, name, version) {
        Ok(name) => BookFault::Differs { name },
        Err(_) => BookFault::Memory,
    }
}
