//! The least free address over the subnets of a network.
ghost use Rattle.std.specs.Prelude.{◌≡◌};
ghost use Rattle.bosh_bands.specs.Least.{least};
ghost use Rattle.bosh_pool.specs.Free.{FreeAt, IsReady, is_free};
ghost use Rattle.bosh_pool.specs.Search.{AreReady, Finds, is_free_for, is_free_in, lesser};

use crate::closed::{Closed, serves};
use crate::spot::{Spot, look};
use bosh_base::{Addr, Band, Name, Subnet};
use std::collections::BTreeSet;

// The address at the next number, where that is in the range of the subnet.
fn at_next(subnet: &Subnet, bands: &[Band], used: &BTreeSet<u32>, spot: Spot) -> Option<Addr>
    requires ready { IsReady subnet.now bands.now used.now spot }
    requires free { FreeAt subnet.now used.now spot.next }
    ensures { Finds (is_free subnet.now used.now) result }
{
    let last = subnet.range.last.0;
    if spot.next <= u64::from(last) {
        Some(Addr(spot.next as u32))
    } else {
        None
    }
}

fn lesser(one: Option<Addr>, other: Option<Addr>) -> Option<Addr>
    ensures { result ≡ lesser one other }
{
    match (one, other) {
        (None, other) => other,
        (one, None) => one,
        (Some(a), Some(b)) => Some(if a.0 <= b.0 { a } else { b }),
    }
}

// Where the search in a subnet stands then, and the least address that it gives.
fn visit(
    net: &Name,
    az: &Name,
    subnet: &Subnet,
    bands: &[Band],
    used: &BTreeSet<u32>,
    from: Spot,
) -> (Spot, Option<Addr>)
    requires { IsReady subnet.now bands.now used.now from }
    ensures ready { IsReady subnet.now bands.now used.now result.0 }
    ensures found { Finds (is_free_for net.now az.now used.now subnet.now) result.1 }
{
    if !serves(net, az, subnet) {
        return (from, None);
    }
    let spot = look(subnet, bands, used, from);
    (spot, at_next(subnet, bands, used, spot))
}

/// The least address that is given on a network and in a zone, and that is not used.
pub(crate) fn least_free(
    net: &Name,
    az: &Name,
    subnets: &[Subnet],
    closed: &[Closed],
    used: &BTreeSet<u32>,
    spots: &mut [Spot],
) -> Option<Addr>
    requires { AreReady subnets.now closed.now used.now spots.old }
    ensures ready { AreReady subnets.now closed.now used.now spots.new }
    ensures least { result ≡ least (is_free_in net.now az.now used.now subnets.now) }
{
    let mut best = None;
    for (i, subnet) in subnets.iter().enumerate() {
        let (spot, found) = visit(net, az, subnet, closed[i].bands.as_slice(), used, spots[i]);
        spots[i] = spot;
        best = lesser(best, found);
    }
    best
}
