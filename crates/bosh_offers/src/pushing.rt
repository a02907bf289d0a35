//! Items that may be none.
ghost use Rattle.std.specs.Prelude.{◌≡◌, ◌++◌, OnOk};
ghost use Rattle.std.specs.Option.{option_to_list};

use std::alloc::AllocError;

/// Adds an item, where there is one.
pub(crate) fn push_some<T: Drop>(item: Option<T>, items: &mut Vec<T>) -> Result<(), AllocError>
    ensures { OnOk result (items.new.items ≡ items.old.items ++ option_to_list item) }
{
    if let Some(item) = item {
        items.push(item)?;
    }
    Ok(())
}
