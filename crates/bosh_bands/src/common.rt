//! Addresses in two lists of bands.
ghost use Rattle.std.specs.Prelude.{◌≡◌, ◌&&◌, ◌||◌, nat_lt};
ghost use Rattle.bosh_base.specs.Plan.{is_in_some};
ghost use Rattle.bosh_bands.specs.Least.{least};
ghost use Rattle.bosh_bands.specs.Order.{IsInOrder};

use bosh_base::{Addr, Band};

// Whether no address of a band is in another or in one that begins no earlier.
fn ends_before(band: Band, other: Band) -> bool
    ensures { result ≡ (nat_lt band.last.0 band.first.0 || nat_lt band.last.0 other.first.0) }
{
    band.last.0 < band.first.0 || band.last.0 < other.first.0
}

/// The least address that is in bands of both lists. Each step passes over a band.
pub fn first_common(first: &[Band], second: &[Band]) -> Option<Addr>
    requires first { IsInOrder first.now }
    requires second { IsInOrder second.now }
    ensures { result ≡ least (λ addr. is_in_some addr first.now && is_in_some addr second.now) }
{
    let mut i = 0;
    let mut j = 0;
    while i < first.len() && j < second.len() {
        if ends_before(first[i], second[j]) {
            i += 1;
        } else if ends_before(second[j], first[i]) {
            j += 1;
        } else {
            return Some(Addr(first[i].first.0.max(second[j].first.0)));
        }
    }
    None
}
