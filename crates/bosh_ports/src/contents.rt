// Lists of byte strings.
ghost use Rattle.std.specs.Prelude.{◌≡◌, IfOk};
ghost use Rattle.bosh_ports.specs.Contents.{contents};

use std::alloc::{AllocError, Global};

// A list of the same byte strings.
pub(crate) fn copy_of(alloc: Global, items: &[Vec<u8>]) -> Result<Vec<Vec<u8>>, AllocError>
    ensures { IfOk result (λ copies. contents copies.items ≡ contents items.now) }
{
    let mut copies = Vec::new(alloc);
    for item in items {
        copies.push(item.to_vec(alloc)?)?;
    }
    Ok(copies)
}
