//! The addresses that instances keep.
ghost use Rattle.std.specs.Prelude.{◌≡◌, List, find, map, IfOk};
ghost use Rattle.std.specs.Option.{option_copied};
ghost use Rattle.bosh_base.specs.declared.view.Held.{Held};
ghost use Rattle.bosh_pool.specs.Closed.{AreAllClosed};
ghost use Rattle.bosh_pool.specs.Kept.{is_kept, own};
ghost use Rattle.bosh_pool.specs.Table.{AreEntries, is_open_to};

use crate::Want;
use crate::closed::{Closed, is_lent};
use crate::entries::Entries;
use bosh_base::{Addr, Held, NetPlan};
use std::alloc::{AllocError, Global};

// Whether the address of an entry is one that a want may have, and no other has it.
fn is_open_to(
    entries: &Entries<'_>,
    plan: &NetPlan,
    closed: &[Closed],
    want: &Want,
    held: &Held,
) -> bool
    requires { AreAllClosed plan.now.subnets closed.now }
    ensures { result ≡ is_open_to plan.now entries.now.taken want.now held.now }
{
    !entries.is_taken(held.addr) && is_lent(want, plan.subnets.as_slice(), closed, held.addr)
}

fn first_open<'a>(
    entries: &Entries<'_>,
    plan: &NetPlan,
    closed: &[Closed],
    want: &Want,
    helds: &[&'a Held],
) -> Option<&'a Held>
    requires { AreAllClosed plan.now.subnets closed.now }
    ensures { option_copied result ≡ find (is_open_to plan.now entries.now.taken want.now) (map (λ held. held.now) helds.now) }
{
    for held in helds {
        if is_open_to(entries, plan, closed, want, held) {
            return Some(*held);
        }
    }
    None
}

fn kept_entry<'a>(
    entries: &Entries<'a>,
    plan: &NetPlan,
    closed: &[Closed],
    want: &'a Want,
) -> Option<&'a Held>
    requires { AreAllClosed plan.now.subnets closed.now }
    ensures { (taken kept : List Held) → AreEntries taken kept entries.now
        → option_copied result ≡ find (is_kept plan.now taken want.now) kept }
{
    match entries.of_network(&want.inst, &want.net) {
        None => None,
        Some(helds) => first_open(entries, plan, closed, want, helds.as_slice()),
    }
}

fn own<'a>(entries: &Entries<'a>, plan: &NetPlan, closed: &[Closed], want: &'a Want) -> Option<Addr>
    requires { AreAllClosed plan.now.subnets closed.now }
    ensures { (taken kept : List Held) → AreEntries taken kept entries.now
        → result ≡ own plan.now taken kept want.now }
{
    if let Some(addr) = want.fixed {
        return Some(addr);
    }
    match kept_entry(entries, plan, closed, want) {
        Some(held) => Some(held.addr),
        None => None,
    }
}

/// The address of each want that the manifest gives, or that its instance keeps.
pub(crate) fn own_addrs<'a>(
    alloc: Global,
    wants: &'a [Want],
    plan: &NetPlan,
    closed: &[Closed],
    entries: &Entries<'a>,
) -> Result<Vec<Option<Addr>>, AllocError>
    requires { AreAllClosed plan.now.subnets closed.now }
    ensures { IfOk result (λ addrs. (taken kept : List Held) → AreEntries taken kept entries.now
        → addrs.items ≡ map (own plan.now taken kept) wants.now) }
{
    let mut addrs = Vec::new(alloc);
    for want in wants {
        addrs.push(own(entries, plan, closed, want))?;
    }
    Ok(addrs)
}
