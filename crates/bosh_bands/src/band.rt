//! Addresses and bands.
ghost use Rattle.std.specs.Prelude.{◌≡◌};
ghost use Rattle.bosh_base.specs.Plan.{is_in_some, is_within};

use bosh_base::{Addr, Band};

/// Whether an address is in a band.
pub fn is_within(addr: Addr, band: Band) -> bool
    ensures { result ≡ is_within addr band }
{
    band.first.0 <= addr.0 && addr.0 <= band.last.0
}

/// Whether it is in one of some bands.
pub fn is_in_some(addr: Addr, bands: &[Band]) -> bool
    ensures { result ≡ is_in_some addr bands.now }
{
    bands.iter().any(|band| is_within(addr, *band))
}
