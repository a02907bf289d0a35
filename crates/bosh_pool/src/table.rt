//! Tables of what stands first at a number.
ghost use Rattle.std.specs.Prelude.{◌≡◌, ◌==◌, ℕ, None, Some, OnOk, find, if◌then◌else◌, IfOk};
ghost use Rattle.std.specs.Option.{option_or};
ghost use Rattle.bosh_pool.specs.Fixed.{holds};
ghost use Rattle.bosh_pool.specs.Table.{FirstEntries, first_at};

use bosh_base::Held;
use std::alloc::{AllocError, Global};
use std::collections::BTreeMap;

/// Notes an item at a number, unless one stands there.
pub(crate) fn note_first<'a, T>(
    number: u32,
    item: &'a T,
    table: &mut BTreeMap<u32, &'a T>,
) -> Result<(), AllocError>
    ensures { OnOk result ((at : ℕ) → first_at table.new at
        ≡ option_or (first_at table.old at) (if number == at then Some item.now else None)) }
{
    if table.contains_key(&number) {
        return Ok(());
    }
    table.insert(number, item)?;
    Ok(())
}

/// The first entry at each address.
pub(crate) fn first_entries(
    alloc: Global,
    helds: &[Held],
) -> Result<BTreeMap<u32, &Held>, AllocError>
    ensures { IfOk result (FirstEntries helds.now) }
{
    let mut table = BTreeMap::new(alloc);
    for held in helds {
        note_first(held.addr.0, held, &mut table)?;
    }
    Ok(table)
}
