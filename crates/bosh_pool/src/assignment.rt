//! The addresses of all wants.
ghost use Rattle.std.specs.Prelude.{◌≡◌, ◌||◌, List, Option, [], length, map, IfOk, OnOk};
ghost use Rattle.std.specs.List.{list_any};
ghost use Rattle.bosh_base.specs.declared.addr.Addr.{Addr};
ghost use Rattle.bosh_base.specs.declared.view.Held.{Held};
ghost use Rattle.bosh_bands.specs.Least.{first_of};
ghost use Rattle.bosh_bands.specs.Order.{IsInOrder};
ghost use Rattle.bosh_pool.specs.Answer.{IsAnswer, IsTest};
ghost use Rattle.bosh_pool.specs.Assignment.{assignment, free_for, given_addresses, placed};
ghost use Rattle.bosh_pool.specs.Closed.{AreAllClosed};
ghost use Rattle.bosh_pool.specs.Fixed.{fixed_faults, is_given, same_addr};
ghost use Rattle.bosh_pool.specs.Free.{AreClosed, IsReady, is_used};
ghost use Rattle.bosh_pool.specs.Kept.{is_taken, own};
ghost use Rattle.bosh_pool.specs.Search.{AreReady};
ghost use Rattle.bosh_pool.specs.Table.{AreEntries};
ghost use Rattle.bosh_pool.specs.declared.want.Want.{Want};

use crate::closed::{Closed, all_closed};
use crate::entries::Entries;
use crate::fixed::check_fixed;
use crate::kept::own_addrs;
use crate::search::least_free;
use crate::spot::Spot;
use crate::{PoolFault, Want};
use bosh_base::{Addr, Band, Copyable, Held, NetPlan, Seq, Subnet};
use std::alloc::{AllocError, Global};
use std::collections::BTreeSet;

/// Notes the number of an address.
pub(crate) fn note(addr: Addr, used: &mut BTreeSet<u32>) -> Result<(), AllocError>
    ensures { OnOk result ((other : Addr) → is_used used.new other ≡ (is_used used.old other || same_addr other addr)) }
{
    used.insert(addr.0)?;
    Ok(())
}

fn note_held(helds: &[Held], used: &mut BTreeSet<u32>) -> Result<(), AllocError>
    ensures { OnOk result ((addr : Addr) → is_used used.new addr ≡ (is_used used.old addr || is_taken helds.now addr)) }
{
    for held in helds {
        note(held.addr, used)?;
    }
    Ok(())
}

fn note_own(own: &[Option<Addr>], used: &mut BTreeSet<u32>) -> Result<(), AllocError>
    ensures { OnOk result ((addr : Addr) → is_used used.new addr
        ≡ (is_used used.old addr || list_any (is_given addr) own.now)) }
{
    for addr in own {
        if let Some(addr) = *addr {
            note(addr, used)?;
        }
    }
    Ok(())
}

// The numbers of the addresses that somebody has, or that a want has of its own.
fn held_numbers(
    alloc: Global,
    taken: &[Held],
    kept: &[Held],
    own: &[Option<Addr>],
) -> Result<BTreeSet<u32>, AllocError>
    ensures { IfOk result (λ used. (addr : Addr) → is_used used addr
        ≡ (is_taken taken.now addr || (is_taken kept.now addr || list_any (is_given addr) own.now))) }
{
    let mut used = BTreeSet::new(alloc);
    note_held(taken, &mut used)?;
    note_held(kept, &mut used)?;
    note_own(own, &mut used)?;
    Ok(used)
}

// Where the search in a subnet begins.
fn first_spot(subnet: &Subnet, bands: &[Band], used: &BTreeSet<u32>) -> Spot
    requires order { IsInOrder bands.now }
    requires closed { AreClosed subnet.now bands.now }
    ensures { IsReady subnet.now bands.now used.now result }
{
    Spot {
        passed: 0,
        next: u64::from(subnet.range.first.0),
    }
}

/// Where the search in each subnet begins.
pub(crate) fn first_spots(
    alloc: Global,
    subnets: &[Subnet],
    closed: &[Closed],
    used: &BTreeSet<u32>,
) -> Result<Vec<Spot>, AllocError>
    requires { AreAllClosed subnets.now closed.now }
    ensures { IfOk result (λ spots. AreReady subnets.now closed.now used.now spots.items) }
{
    let mut spots = Vec::new(alloc);
    for (i, subnet) in subnets.iter().enumerate() {
        spots.push(first_spot(subnet, closed[i].bands.as_slice(), used))?;
    }
    Ok(spots)
}

// The address that was found for a want.
fn found(alloc: Global, want: &Want, addr: Option<Addr>) -> Result<Addr, PoolFault>
    ensures { IsAnswer result (placed want.now addr) }
{
    match addr {
        Some(addr) => Ok(addr),
        None => Err(PoolFault::Empty {
            net: want.net.copy(alloc)?,
        }),
    }
}

// Its own address, or the least that is free for a want.
fn place(
    alloc: Global,
    want: &Want,
    own: Option<Addr>,
    plan: &NetPlan,
    closed: &[Closed],
    used: &BTreeSet<u32>,
    spots: &mut [Spot],
) -> Result<Addr, PoolFault>
    requires { AreReady plan.now.subnets closed.now used.now spots.old }
    ensures ready { AreReady plan.now.subnets closed.now used.now spots.new }
    ensures place { IsAnswer result (placed want.now (first_of own (free_for plan.now (is_used used.now) want.now))) }
{
    match own {
        Some(addr) => Ok(addr),
        None => {
            let addr = least_free(
                &want.net,
                &want.az,
                plan.subnets.as_slice(),
                closed,
                used,
                spots,
            );
            found(alloc, want, addr)
        }
    }
}

// Each want has its own address, or else the least that is free for it.
fn give(
    alloc: Global,
    wants: &[Want],
    own: &[Option<Addr>],
    plan: &NetPlan,
    closed: &[Closed],
    used: &mut BTreeSet<u32>,
    spots: &mut [Spot],
) -> Result<Seq<Addr>, PoolFault>
    requires count { length own.now ≡ length wants.now }
    requires ready { AreReady plan.now.subnets closed.now used.old spots.old }
    ensures { (find : Want → Option Addr) → own.now ≡ map find wants.now
        → IsAnswer result (given_addresses plan.now find (is_used used.old) wants.now) }
{
    let mut addrs = Vec::new(alloc);
    for (i, want) in wants.iter().enumerate() {
        let addr = place(alloc, want, own[i], plan, closed, used, spots)?;
        note(addr, used)?;
        addrs.push(addr)?;
    }
    Ok(Seq::from(addrs))
}

// The addresses of the wants, where nobody may have those in use.
fn give_unused(
    alloc: Global,
    wants: &[Want],
    own: &[Option<Addr>],
    plan: &NetPlan,
    closed: &[Closed],
    used: &mut BTreeSet<u32>,
) -> Result<Seq<Addr>, PoolFault>
    requires count { length own.now ≡ length wants.now }
    requires closed { AreAllClosed plan.now.subnets closed.now }
    ensures { (find : Want → Option Addr) → own.now ≡ map find wants.now
        → IsAnswer result (given_addresses plan.now find (is_used used.old) wants.now) }
{
    let mut spots = first_spots(alloc, plan.subnets.as_slice(), closed, used)?;
    give(alloc, wants, own, plan, closed, used, spots.as_mut_slice())
}

// The address of each want that the manifest gives, or that its instance keeps, unless one that it gives is refused.
fn own_by<'a>(
    alloc: Global,
    wants: &'a [Want],
    plan: &NetPlan,
    closed: &[Closed],
    entries: &Entries<'a>,
) -> Result<Vec<Option<Addr>>, PoolFault>
    requires { AreAllClosed plan.now.subnets closed.now }
    ensures checked { (taken kept : List Held) → AreEntries taken kept entries.now
        → IsTest result (fixed_faults plan.now taken kept [] wants.now) }
    ensures own { (taken kept : List Held) → AreEntries taken kept entries.now
        → IfOk result (λ addrs. addrs.items ≡ map (own plan.now taken kept) wants.now) }
{
    check_fixed(alloc, wants, plan, entries)?;
    Ok(own_addrs(alloc, wants, plan, closed, entries)?)
}

fn checked_own(
    alloc: Global,
    wants: &[Want],
    plan: &NetPlan,
    closed: &[Closed],
    taken: &[Held],
    kept: &[Held],
) -> Result<Vec<Option<Addr>>, PoolFault>
    requires { AreAllClosed plan.now.subnets closed.now }
    ensures checked { IsTest result (fixed_faults plan.now taken.now kept.now [] wants.now) }
    ensures own { IfOk result (λ addrs. addrs.items ≡ map (own plan.now taken.now kept.now) wants.now) }
{
    let entries = Entries::of(alloc, taken, kept)?;
    own_by(alloc, wants, plan, closed, &entries)
}

// The addresses of the wants, by the closed bands of the subnets.
fn assign_by(
    alloc: Global,
    wants: &[Want],
    plan: &NetPlan,
    closed: &[Closed],
    taken: &[Held],
    kept: &[Held],
) -> Result<Seq<Addr>, PoolFault>
    requires { AreAllClosed plan.now.subnets closed.now }
    ensures { IsAnswer result (assignment wants.now plan.now taken.now kept.now) }
{
    let own = checked_own(alloc, wants, plan, closed, taken, kept)?;
    let mut used = held_numbers(alloc, taken, kept, own.as_slice())?;
    give_unused(alloc, wants, own.as_slice(), plan, closed, &mut used)
}

/// The addresses of wants, which stand in manifest order, in their order. A want has the address that the manifest
/// gives; else, where its instance holds in `kept` one of the network that it may go on with, that one; else the least
/// that is free. `kept` has what the recorded instances of the deployment hold that stay, and `taken` what all others
/// hold; an entry counts by its address alone, whatever its network. First the given addresses are looked at, in the
/// order of the wants, and only then the others.
pub fn assign(
    alloc: Global,
    wants: &[Want],
    plan: &NetPlan,
    taken: &[Held],
    kept: &[Held],
) -> Result<Seq<Addr>, PoolFault>
    ensures { IsAnswer result (assignment wants.now plan.now taken.now kept.now) }
{
    let closed = all_closed(alloc, plan.subnets.as_slice())?;
    assign_by(alloc, wants, plan, closed.as_slice(), taken, kept)
}
