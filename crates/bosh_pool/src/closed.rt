//! The addresses of subnets that are not given to whoever asks for any.
ghost use Rattle.std.specs.Prelude.{◌≡◌, ◌||◌, IfOk};
ghost use Rattle.std.specs.List.{list_any};
ghost use Rattle.bosh_base.specs.Plan.{has_dynamic, is_in_some, is_listed, is_reserved};
ghost use Rattle.bosh_bands.specs.Order.{IsInOrder};
ghost use Rattle.bosh_pool.specs.Closed.{AreAllClosed, AreReaches, IsClosed};
ghost use Rattle.bosh_pool.specs.Free.{AreClosed};
ghost use Rattle.bosh_pool.specs.Search.{serves};

use crate::Want;
use bosh_bands::{in_order, is_within, reserved_bands};
use bosh_base::{Addr, Band, Name, Seq, Subnet};
use std::alloc::{AllocError, Global};

/// The bands of a subnet that are given to nobody or to those alone that ask for them by number, in their order.
#[derive(Drop)]
pub(crate) struct Closed {
    pub(crate) bands: Seq<Band>,
    /// For each place the greatest last address of the bands up to there.
    reaches: Seq<u32>,
}

fn bands_of(alloc: Global, subnet: &Subnet) -> Result<Seq<Band>, AllocError>
    ensures order { IfOk result (λ bands. IsInOrder bands) }
    ensures closed { IfOk result (λ bands. AreClosed subnet.now bands) }
{
    let mut bands = reserved_bands(alloc, subnet)?;
    bands.extend_from_slice(subnet.fixed.as_slice())?;
    Ok(Seq::from(in_order(bands)?))
}

fn reaches_of(alloc: Global, bands: &[Band]) -> Result<Seq<u32>, AllocError>
    ensures { IfOk result (AreReaches bands.now) }
{
    let mut reaches = Vec::new(alloc);
    let mut far = 0;
    for band in bands {
        far = band.last.0.max(far);
        reaches.push(far)?;
    }
    Ok(Seq::from(reaches))
}

fn closed_of(alloc: Global, subnet: &Subnet) -> Result<Closed, AllocError>
    ensures { IfOk result (IsClosed subnet.now) }
{
    let bands = bands_of(alloc, subnet)?;
    let reaches = reaches_of(alloc, bands.as_slice())?;
    Ok(Closed { bands, reaches })
}

/// Those of each subnet.
pub(crate) fn all_closed(alloc: Global, subnets: &[Subnet]) -> Result<Vec<Closed>, AllocError>
    ensures { IfOk result (λ closed. AreAllClosed subnets.now closed.items) }
{
    let mut closed = Vec::new(alloc);
    for subnet in subnets {
        closed.push(closed_of(alloc, subnet)?)?;
    }
    Ok(closed)
}

// Whether an address is in one of the bands, which is so where those that begin no later reach it.
fn is_closed(subnet: &Subnet, closed: &Closed, addr: Addr) -> bool
    requires { IsClosed subnet.now closed.now }
    ensures { result ≡ (is_reserved subnet.now addr || is_in_some addr subnet.now.fixed) }
{
    let begun = closed
        .bands
        .as_slice()
        .partition_point(|band| band.first.0 <= addr.0);
    begun > 0 && addr.0 <= closed.reaches.as_slice()[begun - 1]
}

fn is_listed(name: &Name, names: &Seq<Name>) -> bool
    ensures { result ≡ is_listed name.now names.now }
{
    names.iter().any(|listed| *listed == *name)
}

/// Whether a subnet is of a network, and lies in a zone.
pub(crate) fn serves(net: &Name, az: &Name, subnet: &Subnet) -> bool
    ensures { result ≡ serves net.now az.now subnet.now }
{
    subnet.net == *net && is_listed(az, &subnet.azs)
}

fn lends(want: &Want, subnet: &Subnet, closed: &Closed, addr: Addr) -> bool
    requires { IsClosed subnet.now closed.now }
    ensures { result ≡ has_dynamic subnet.now want.now.net want.now.az addr }
{
    serves(&want.net, &want.az, subnet)
        && is_within(addr, subnet.range)
        && !is_closed(subnet, closed, addr)
}

/// Whether some subnet gives an address to whoever asks for any, on the network and in the zone of a want. The work is the
/// logarithm of the bands of those subnets that have the address.
pub(crate) fn is_lent(want: &Want, subnets: &[Subnet], closed: &[Closed], addr: Addr) -> bool
    requires { AreAllClosed subnets.now closed.now }
    ensures { result ≡ list_any (λ subnet. has_dynamic subnet want.now.net want.now.az addr) subnets.now }
{
    for (i, subnet) in subnets.iter().enumerate() {
        if lends(want, subnet, &closed[i], addr) {
            return true;
        }
    }
    false
}
