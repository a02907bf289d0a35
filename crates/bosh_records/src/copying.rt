ghost use Rattle.std.specs.Prelude.{◌≡◌, IfOk};

use crate::RecordsFault;
use bosh_base::Copyable;
use std::alloc::Global;

/// A copy of each.
pub fn copies<T: Copyable>(alloc: Global, items: &[T]) -> Result<Vec<T>, RecordsFault>
    ensures { IfOk result (λ copied. copied.items ≡ items.now) }
{
    let mut copied = Vec::new(alloc);
    for item in items {
        copied.push(item.copy(alloc)?)?;
    }
    Ok(copied)
}
