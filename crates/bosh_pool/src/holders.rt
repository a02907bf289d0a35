//! Who holds an address.
ghost use Rattle.std.specs.Prelude.{◌≡◌, None, Some, if◌then◌else◌, IfOk};
ghost use Rattle.std.specs.Option.{option_copied, option_or};
ghost use Rattle.bosh_base.specs.declared.inst.Inst.{Inst};
ghost use Rattle.bosh_pool.specs.Fixed.{is_owner};
ghost use Rattle.bosh_pool.specs.Table.{AllHolders, entry_beside};

use crate::owner::{is_owner, same_owner};
use bosh_base::{Held, Inst};
use std::alloc::{AllocError, Global};
use std::collections::BTreeMap;

/// The first entry at an address, and, where an instance owns it, the first there of another owner. The first that is
/// not a given instance's is one of the two.
#[derive(Clone, Copy)]
pub(crate) struct Holders<'a> {
    first: &'a Held,
    other: Option<&'a Held>,
}

impl<'a> Holders<'a> {
    // With one more entry.
    fn with(self, held: &'a Held) -> Holders<'a>
        ensures { (inst : Inst) → entry_beside inst (Some result)
            ≡ option_or (entry_beside inst (Some self.entry)) (if is_owner inst held.now.owner then None else Some held.now) }
    {
        match self.other {
            None if !same_owner(&self.first.owner, &held.owner) => Holders {
                first: self.first,
                other: Some(held),
            },
            _ => self,
        }
    }

    /// The first entry that is not an instance's.
    pub(crate) fn beside(self, inst: &Inst) -> Option<&'a Held>
        ensures { option_copied result ≡ entry_beside inst.now (Some self.entry) }
    {
        if is_owner(inst, &self.first.owner) {
            self.other
        } else {
            Some(self.first)
        }
    }
}

// Who holds the address of one more entry.
fn more<'a>(found: Option<Holders<'a>>, held: &'a Held) -> Holders<'a>
    ensures { (inst : Inst) → entry_beside inst (Some result)
        ≡ option_or (entry_beside inst found.entry) (if is_owner inst held.now.owner then None else Some held.now) }
{
    match found {
        None => Holders {
            first: held,
            other: None,
        },
        Some(holders) => holders.with(held),
    }
}

/// Who holds each address.
pub(crate) fn all_holders(
    alloc: Global,
    helds: &[Held],
) -> Result<BTreeMap<u32, Holders<'_>>, AllocError>
    ensures { IfOk result (AllHolders helds.now) }
{
    let mut table = BTreeMap::new(alloc);
    for held in helds {
        let holders = more(table.get(&held.addr.0).copied(), held);
        table.insert(held.addr.0, holders)?;
    }
    Ok(table)
}
