//! Addresses of a subnet out of place.
ghost use Rattle.std.specs.Prelude.{◌≡◌, IfOk};
ghost use Rattle.bosh_base.specs.Plan.{is_in_some, is_reserved, is_within};
ghost use Rattle.bosh_base.specs.declared.addr.Addr.{Addr};
ghost use Rattle.bosh_cloudcfg.specs.Passes.{end_outside, first_in, gateway_outside, outside, outside_range, static_reserved};

use bosh_bands::{first_common, in_order, is_within, reserved_bands};
use bosh_base::{Addr, Band, Subnet};
use std::alloc::{AllocError, Global};

fn outside(range: Band, addr: Addr) -> Option<Addr>
    ensures { result ≡ outside range addr }
{
    if is_within(addr, range) {
        None
    } else {
        Some(addr)
    }
}

fn gateway_outside(range: Band, gateway: Option<Addr>) -> Option<Addr>
    ensures { result ≡ gateway_outside range gateway }
{
    match gateway {
        None => None,
        Some(gateway) => outside(range, gateway),
    }
}

fn end_outside(range: Band, band: Band) -> Option<Addr>
    ensures { result ≡ end_outside range band }
{
    match outside(range, band.first) {
        None => outside(range, band.last),
        found => found,
    }
}

// The first end of some bands that is outside the range.
fn some_end_outside(range: Band, bands: &[Band]) -> Option<Addr>
    ensures { result ≡ first_in (end_outside range) bands.now }
{
    for band in bands {
        if let Some(addr) = end_outside(range, *band) {
            return Some(addr);
        }
    }
    None
}

/// The gateway, or the first end of a reserved or then of a static band, that is outside the range.
pub(crate) fn outside_range(subnet: &Subnet) -> Option<Addr>
    ensures { result ≡ outside_range subnet.now }
{
    let range = subnet.range;
    if let Some(addr) = gateway_outside(range, subnet.gateway) {
        return Some(addr);
    }
    match some_end_outside(range, subnet.reserved.as_slice()) {
        None => some_end_outside(range, subnet.fixed.as_slice()),
        found => found,
    }
}

/// The least address that is static and reserved at once.
pub(crate) fn static_reserved(alloc: Global, subnet: &Subnet) -> Result<Option<Addr>, AllocError>
    ensures { IfOk result (λ addr. addr ≡ static_reserved subnet.now) }
{
    let fixed = in_order(Vec::from_slice(alloc, subnet.fixed.as_slice())?)?;
    let reserved = in_order(reserved_bands(alloc, subnet)?)?;
    Ok(first_common(fixed.as_slice(), reserved.as_slice()))
}
