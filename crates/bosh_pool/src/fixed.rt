//! The addresses that the manifest gives.
ghost use Rattle.std.specs.Prelude.{◌≡◌, ◌∷◌, ◌++◌, [], List, Some, None, OnOk, option_map};
ghost use Rattle.std.specs.List.{list_any};
ghost use Rattle.std.specs.Option.{option_copied};
ghost use Rattle.bosh_base.specs.declared.view.Held.{Held};
ghost use Rattle.bosh_pool.specs.Answer.{IsTest};
ghost use Rattle.bosh_pool.specs.Fixed.{fault_at, fixed_fault, fixed_faults, has_fixed};
ghost use Rattle.bosh_pool.specs.Table.{AreEntries, FirstWants, found_holder};
ghost use Rattle.bosh_pool.specs.declared.fault.PoolFault.TheVariants.{Taken};
ghost use Rattle.bosh_pool.specs.declared.want.Want.{Want};
ghost use Rattle.bosh_base.specs.declared.owner.Owner.TheVariants.{Instance};

use crate::entries::Entries;
use crate::table::note_first;
use crate::{PoolFault, Want};
use bosh_bands::{is_in_some, is_reserved, is_within};
use bosh_base::{Addr, Copyable, Inst, Name, NetPlan, Owner, Subnet};
use std::alloc::{AllocError, Global};
use std::collections::BTreeMap;

fn has_fixed(net: &Name, addr: Addr, subnet: &Subnet) -> bool
    ensures { result ≡ has_fixed net.now addr subnet.now }
{
    subnet.net == *net
        && is_within(addr, subnet.range)
        && !is_reserved(subnet, addr)
        && is_in_some(addr, subnet.fixed.as_slice())
}

// Notes the address that the manifest gives to a want, unless it gives it to an earlier one.
fn note_given<'a>(want: &'a Want, given: &mut BTreeMap<u32, &'a Want>) -> Result<(), AllocError>
    ensures { OnOk result ((before : List Want) → FirstWants before given.old
        → FirstWants (before ++ want.now ∷ []) given.new) }
{
    match want.fixed {
        None => Ok(()),
        Some(addr) => note_first(addr.0, want, given),
    }
}

// Refuses an address that somebody has.
fn refuse(alloc: Global, addr: Addr, owner: &Owner) -> Result<(), PoolFault>
    ensures { IsTest result (Some (Taken addr owner.now)) }
{
    let owner = owner.copy(alloc)?;
    Err(PoolFault::Taken { addr, owner })
}

fn refuse_instance(alloc: Global, addr: Addr, inst: &Inst) -> Result<(), PoolFault>
    ensures { IsTest result (Some (Taken addr (Instance inst.now))) }
{
    let owner = Owner::Instance(inst.copy(alloc)?);
    Err(PoolFault::Taken { addr, owner })
}

fn check_holder(
    alloc: Global,
    entries: &Entries<'_>,
    given: &BTreeMap<u32, &Want>,
    inst: &Inst,
    addr: Addr,
) -> Result<(), PoolFault>
    ensures { IsTest result (option_map (Taken addr) (found_holder entries.now given.now inst.now addr)) }
{
    if let Some(held) = entries.taken_at(addr) {
        return refuse(alloc, addr, &held.owner);
    }
    if let Some(held) = entries.beside(inst, addr) {
        return refuse(alloc, addr, &held.owner);
    }
    match given.get(&addr.0) {
        Some(earlier) => refuse_instance(alloc, addr, &earlier.inst),
        None => Ok(()),
    }
}

fn is_static_somewhere(plan: &NetPlan, net: &Name, addr: Addr) -> bool
    ensures { result ≡ list_any (has_fixed net.now addr) plan.now.subnets }
{
    plan.subnets
        .iter()
        .any(|subnet| has_fixed(net, addr, subnet))
}

fn check_addr(
    alloc: Global,
    plan: &NetPlan,
    entries: &Entries<'_>,
    given: &BTreeMap<u32, &Want>,
    want: &Want,
    addr: Addr,
) -> Result<(), PoolFault>
    ensures { IsTest result (fault_at plan.now want.now addr (found_holder entries.now given.now want.now.inst addr)) }
{
    if !is_static_somewhere(plan, &want.net, addr) {
        return Err(PoolFault::NotStatic { addr });
    }
    if !plan.is_static(&want.net, &want.az, addr) {
        return Err(PoolFault::StaticNotInAz { addr });
    }
    check_holder(alloc, entries, given, &want.inst, addr)
}

fn check_want(
    alloc: Global,
    plan: &NetPlan,
    entries: &Entries<'_>,
    given: &BTreeMap<u32, &Want>,
    want: &Want,
) -> Result<(), PoolFault>
    ensures { (taken kept : List Held) (before : List Want) → AreEntries taken kept entries.now → FirstWants before given.now
        → IsTest result (fixed_fault plan.now taken kept before want.now want.now.fixed) }
{
    match want.fixed {
        None => Ok(()),
        Some(addr) => check_addr(alloc, plan, entries, given, want, addr),
    }
}

/// Refuses the first address that the manifest gives and an instance may not have.
pub(crate) fn check_fixed(
    alloc: Global,
    wants: &[Want],
    plan: &NetPlan,
    entries: &Entries<'_>,
) -> Result<(), PoolFault>
    ensures { (taken kept : List Held) → AreEntries taken kept entries.now
        → IsTest result (fixed_faults plan.now taken kept [] wants.now) }
{
    let mut given = BTreeMap::new(alloc);
    for want in wants {
        check_want(alloc, plan, entries, &given, want)?;
        note_given(want, &mut given)?;
    }
    Ok(())
}
