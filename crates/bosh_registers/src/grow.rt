ghost use Rattle.std.specs.Prelude.{◌≡◌, [], ◌∷◌, ◌++◌, None, Some, OnErr, OnOk};
ghost use Rattle.bosh_registers.specs.Grown.{with_disk};

use crate::{Created, InventoryFault, Register, Tables};
use bosh_base::Disk;

/// Adds an item at the end of a list.
// It is generic, as `keep` is.
pub fn push<T: Drop>(items: &mut Vec<T>, item: T) -> Result<(), InventoryFault>
    ensures ok { OnOk result (items.new.items ≡ items.old.items ++ item ∷ []) }
    ensures refused { OnErr result (items.new.items ≡ items.old.items) }
{
    items.reserve(1)?;
    items.push_reserved(item);
    Ok(())
}

/// The same of a thing that is made, which gets a slot of its own.
pub fn push_made<T: Drop, S: Created + Drop>(
    items: &mut Vec<T>,
    item: T,
    slots: &mut Register<S>,
    thing: S,
) -> Result<(), InventoryFault>
    ensures ok { OnOk result (items.new.items ≡ items.old.items ++ item ∷ []) }
    ensures made { OnOk result (slots.new ≡ slots.old ++ Some thing ∷ []) }
    ensures refused { OnErr result (items.new.items ≡ items.old.items) }
    ensures not_made { OnErr result (slots.new ≡ slots.old) }
{
    items.reserve(1)?;
    slots.push(thing)?;
    items.push_reserved(item);
    Ok(())
}

/// The same of a disk, which no machine has yet.
pub fn push_held<T: Drop>(
    items: &mut Vec<T>,
    item: T,
    tables: &mut Tables,
    disk: Disk,
) -> Result<(), InventoryFault>
    ensures ok { OnOk result (items.new.items ≡ items.old.items ++ item ∷ []) }
    ensures made { OnOk result (tables.new ≡ with_disk tables.old disk) }
    ensures refused { OnErr result (items.new.items ≡ items.old.items) }
    ensures not_made { OnErr result (tables.new ≡ tables.old) }
{
    tables.holders.push(None)?;
    let added = push_made(items, item, &mut tables.disks, disk);
    if added.is_err() {
        tables.holders.pop();
    }
    added
}
