//! What is held, by address and by instance.
ghost use Rattle.std.specs.Prelude.{◌≡◌, IfOk, is_some};
ghost use Rattle.std.specs.BTreeMap.{get};
ghost use Rattle.std.specs.Option.{option_copied};
ghost use Rattle.std.specs.Ordering.{nat_cmp};
ghost use Rattle.bosh_pool.specs.Table.{AreEntries, entries_of, entry_beside, first_at, listed};

use crate::holders::{Holders, all_holders};
use crate::networks::{ByNetwork, by_network};
use crate::table::first_entries;
use bosh_base::{Addr, Held, Inst, Name};
use std::alloc::{AllocError, Global};
use std::collections::BTreeMap;

/// What the others hold, by address; and what the deployment's instances hold, by address, and by instance and network.
#[derive(Drop)]
pub(crate) struct Entries<'a> {
    taken: BTreeMap<u32, &'a Held>,
    holders: BTreeMap<u32, Holders<'a>>,
    kept: ByNetwork<'a>,
}

impl<'a> Entries<'a> {
    pub(crate) fn of(
        alloc: Global,
        taken: &'a [Held],
        kept: &'a [Held],
    ) -> Result<Entries<'a>, AllocError>
        ensures { IfOk result (AreEntries taken.now kept.now) }
    {
        let taken = first_entries(alloc, taken)?;
        let holders = all_holders(alloc, kept)?;
        let kept = by_network(alloc, kept)?;
        Ok(Entries {
            taken,
            holders,
            kept,
        })
    }

    /// The first entry of the others at an address.
    pub(crate) fn taken_at(&self, addr: Addr) -> Option<&'a Held>
        ensures { option_copied result ≡ first_at self.now.taken addr.0 }
    {
        self.taken.get(&addr.0).copied()
    }

    pub(crate) fn is_taken(&self, addr: Addr) -> bool
        ensures { result ≡ is_some (get nat_cmp self.now.taken addr.0) }
    {
        self.taken.contains_key(&addr.0)
    }

    /// The deployment's first entry at an address that is not an instance's.
    pub(crate) fn beside(&self, inst: &Inst, addr: Addr) -> Option<&'a Held>
        ensures { option_copied result ≡ entry_beside inst.now (get nat_cmp self.now.holders addr.0) }
    {
        match self.holders.get(&addr.0) {
            None => None,
            Some(holders) => holders.beside(inst),
        }
    }

    /// The deployment's entries of an instance on a network, in their order.
    pub(crate) fn of_network(&self, inst: &'a Inst, net: &'a Name) -> Option<&Vec<&'a Held>>
        ensures { listed (option_copied result) ≡ entries_of self.now.kept inst.now net.now }
    {
        self.kept.get(&(inst, net))
    }
}
