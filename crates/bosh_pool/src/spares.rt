//! Addresses that nobody has.
ghost use Rattle.std.specs.Prelude.{◌≡◌, IfOk};
ghost use Rattle.std.specs.List.{list_any};
ghost use Rattle.bosh_pool.specs.Closed.{AreAllClosed};
ghost use Rattle.bosh_pool.specs.Fixed.{same_addr};
ghost use Rattle.bosh_pool.specs.Free.{is_used};
ghost use Rattle.bosh_pool.specs.Search.{AreReady};
ghost use Rattle.bosh_pool.specs.Spare.{spares};

use crate::assignment::{first_spots, note};
use crate::closed::{Closed, all_closed};
use crate::search::least_free;
use crate::spot::Spot;
use bosh_base::{Addr, Name, NetPlan, Seq};
use std::alloc::{AllocError, Global};
use std::collections::BTreeSet;

// The numbers of addresses.
fn numbers_of(alloc: Global, addrs: &[Addr]) -> Result<BTreeSet<u32>, AllocError>
    ensures { IfOk result (λ used. (addr : Addr) → is_used used addr ≡ list_any (same_addr addr) addrs.now) }
{
    let mut used = BTreeSet::new(alloc);
    for addr in addrs {
        note(*addr, &mut used)?;
    }
    Ok(used)
}

// The search goes on from its spots.
fn spare_from(
    alloc: Global,
    most: u32,
    net: &Name,
    az: &Name,
    plan: &NetPlan,
    closed: &[Closed],
    used: &mut BTreeSet<u32>,
    spots: &mut [Spot],
) -> Result<Seq<Addr>, AllocError>
    requires { AreReady plan.now.subnets closed.now used.old spots.old }
    ensures { IfOk result (λ addrs. addrs ≡ spares plan.now net.now az.now most (is_used used.old)) }
{
    let mut addrs = Vec::new(alloc);
    for _ in 0..most {
        let Some(addr) = least_free(net, az, plan.subnets.as_slice(), closed, used, spots) else {
            return Ok(Seq::from(addrs));
        };
        note(addr, used)?;
        addrs.push(addr)?;
    }
    Ok(Seq::from(addrs))
}

fn spare_unused(
    alloc: Global,
    most: u32,
    net: &Name,
    az: &Name,
    plan: &NetPlan,
    closed: &[Closed],
    used: &mut BTreeSet<u32>,
) -> Result<Seq<Addr>, AllocError>
    requires { AreAllClosed plan.now.subnets closed.now }
    ensures { IfOk result (λ addrs. addrs ≡ spares plan.now net.now az.now most (is_used used.old)) }
{
    let mut spots = first_spots(alloc, plan.subnets.as_slice(), closed, used)?;
    spare_from(
        alloc,
        most,
        net,
        az,
        plan,
        closed,
        used,
        spots.as_mut_slice(),
    )
}

/// The least addresses that a network gives in a zone to whoever asks for any and that are not among those that are held,
/// whatever their network: at most so many, in their order. Where there are fewer, it is these.
pub fn spare(
    alloc: Global,
    most: u32,
    net: &Name,
    az: &Name,
    plan: &NetPlan,
    held: &[Addr],
) -> Result<Seq<Addr>, AllocError>
    ensures { IfOk result (λ addrs. addrs
        ≡ spares plan.now net.now az.now most (λ addr. list_any (same_addr addr) held.now)) }
{
    let closed = all_closed(alloc, plan.subnets.as_slice())?;
    let mut used = numbers_of(alloc, held)?;
    spare_unused(alloc, most, net, az, plan, closed.as_slice(), &mut used)
}
