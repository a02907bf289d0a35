ghost use Rattle.std.specs.Prelude.{◌≡◌, ◌∷◌, ◌++◌, [], OnOk, if◌then◌else◌};

use bosh_base::{CopyFault, Copyable, Inst};
use std::alloc::Global;

/// Adds a copy of an instance to a list, or leaves it as it is.
pub(crate) fn push_where(
    alloc: Global,
    is_added: bool,
    inst: &Inst,
    list: &mut Vec<Inst>,
) -> Result<(), CopyFault>
    ensures { OnOk result (list.new.items
        ≡ (if is_added then list.old.items ++ inst.now ∷ [] else list.old.items)) }
{
    if is_added {
        list.push(inst.copy(alloc)?)?;
    }
    Ok(())
}
