//! The addresses of a subnet that nobody has.
ghost use Rattle.std.specs.Prelude.{◌≡◌, IfOk};
ghost use Rattle.bosh_base.specs.Plan.{is_in_some, is_reserved};
ghost use Rattle.bosh_base.specs.declared.addr.Addr.{Addr};

use crate::band::is_in_some;
use bosh_base::{Addr, Band, Subnet};
use std::alloc::{AllocError, Global};

fn only(addr: Addr) -> Band
    ensures first { result.first ≡ addr }
    ensures last { result.last ≡ addr }
{
    Band {
        first: addr,
        last: addr,
    }
}

/// The bands that nobody has: the reserved ones, both ends of the range, and the gateway.
pub fn reserved_bands(alloc: Global, subnet: &Subnet) -> Result<Vec<Band>, AllocError>
    ensures { IfOk result (λ bands. (addr : Addr) → is_in_some addr bands.items ≡ is_reserved subnet.now addr) }
{
    let mut bands = Vec::from_slice(alloc, subnet.reserved.as_slice())?;
    bands.push(only(subnet.range.first))?;
    bands.push(only(subnet.range.last))?;
    if let Some(gateway) = subnet.gateway {
        bands.push(only(gateway))?;
    }
    Ok(bands)
}

/// Whether nobody has an address of a subnet.
pub fn is_reserved(subnet: &Subnet, addr: Addr) -> bool
    ensures { result ≡ is_reserved subnet.now addr }
{
    is_in_some(addr, subnet.reserved.as_slice())
        || addr == subnet.range.first
        || addr == subnet.range.last
        || subnet.gateway == Some(addr)
}
