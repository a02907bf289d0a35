//! The least free address of a subnet, which is looked for from where the last was found.
ghost use Rattle.std.specs.Prelude.{◌≡◌, ◌<◌, ◌≤◌, ◌^◌, true, false, length};
ghost use Rattle.bosh_base.specs.Plan.{is_in_some};
ghost use Rattle.bosh_base.specs.declared.addr.Addr.{Addr};
ghost use Rattle.bosh_bands.specs.Order.{IsInOrder};
ghost use Rattle.bosh_pool.specs.Free.{ArePassed, FreeAt, IsReady};

use bosh_base::{Addr, Band, Subnet};
use std::collections::BTreeSet;

/// Where the search for free addresses stands.
#[derive(Clone, Copy)]
pub(crate) struct Spot {
    /// How many of the bands in their order lie below the next number.
    pub(crate) passed: usize,
    /// The number from which the search goes on, at most 2 to the power of 32.
    pub(crate) next: u64,
}

// The next number that is in no band. Each step passes a band.
fn pass_bands(bands: &[Band], from: Spot) -> Spot
    requires order { IsInOrder bands.now }
    requires within { from.next ≤ 2 ^ 32 }
    requires room { from.passed ≤ length bands.now }
    requires passed { ArePassed bands.now from }
    ensures later { from.next ≤ result.next }
    ensures within { result.next ≤ 2 ^ 32 }
    ensures room { result.passed ≤ length bands.now }
    ensures passed { ArePassed bands.now result }
    ensures clear { (addr : Addr) → addr.0 ≡ result.next → is_in_some addr bands.now ≡ false }
    ensures closed { (addr : Addr) → from.next ≤ addr.0 → addr.0 < result.next → is_in_some addr bands.now ≡ true }
{
    let mut spot = from;
    while spot.passed < bands.len() && u64::from(bands[spot.passed].first.0) <= spot.next {
        let last = u64::from(bands[spot.passed].last.0);
        if spot.next <= last {
            spot.next = last + 1;
        }
        spot.passed += 1;
    }
    spot
}

/// Goes on to the least free address of a subnet: it is the next number, where that is in the range. Each step passes a
/// band or an address in use.
pub(crate) fn look(subnet: &Subnet, bands: &[Band], used: &BTreeSet<u32>, from: Spot) -> Spot
    requires { IsReady subnet.now bands.now used.now from }
    ensures ready { IsReady subnet.now bands.now used.now result }
    ensures free { FreeAt subnet.now used.now result.next }
{
    let last = u64::from(subnet.range.last.0);
    let mut spot = pass_bands(bands, from);
    while spot.next <= last && used.contains(&(spot.next as u32)) {
        spot.next += 1;
        spot = pass_bands(bands, spot);
    }
    spot
}
