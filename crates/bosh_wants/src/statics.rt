//! The addresses that a manifest gives.
ghost use Rattle.std.specs.Prelude.{◌≡◌, ◌==◌, ◌+◌, ◌<◌, not, find};
ghost use Rattle.std.specs.Option.{option_copied};
ghost use Rattle.bosh_pool.specs.Answer.{IsTest};
ghost use Rattle.bosh_wants.specs.Statics.{addr_in, all_fit, count_in, fits, miscounted, size_of, static_fault};

use bosh_base::{Addr, Band, Copyable};
use bosh_manifest::Group;
use bosh_manifest_parts::NetUse;
use bosh_pool::PoolFault;
use std::alloc::Global;

fn size_of(band: Band) -> u64
    ensures { result ≡ size_of band }
{
    u64::from(band.last.0).saturating_sub(u64::from(band.first.0)) + 1
}

// Whether bands have so many addresses.
fn are_so_many(bands: &[Band], count: u32) -> bool
    ensures { result ≡ (count_in bands.now == count) }
{
    let mut rest = u64::from(count);
    for band in bands {
        let size = size_of(*band);
        if size > rest {
            return false;
        }
        rest -= size;
    }
    rest == 0
}

fn fits(instances: u32, network: &NetUse) -> bool
    ensures { result ≡ fits instances network.now }
{
    let bands = network.fixed.as_slice();
    are_so_many(bands, 0) || are_so_many(bands, instances)
}

fn all_fit(group: &Group) -> bool
    ensures { result ≡ all_fit group.now }
{
    group
        .networks
        .iter()
        .all(|network| fits(group.instances, network))
}

fn miscounted(groups: &[Group]) -> Option<&Group>
    ensures { option_copied result ≡ find (λ group. not (all_fit group)) groups.now }
{
    groups.iter().find(|group| !all_fit(group))
}

/// Refuses a group of which some network gives another number of addresses than it has instances.
pub fn check_counts(alloc: Global, groups: &[Group]) -> Result<(), PoolFault>
    ensures { IsTest result (static_fault groups.now) }
{
    match miscounted(groups) {
        None => Ok(()),
        Some(group) => Err(PoolFault::StaticCount {
            group: group.name.copy(alloc)?,
        }),
    }
}

// The address of a band that is so many after its first.
fn addr_at(band: Band, offset: u64) -> Addr
    requires { offset < size_of band }
    ensures { result.0 ≡ band.first.0 + offset }
{
    Addr((u64::from(band.first.0) + offset) as u32)
}

/// The address at a place of bands, one after another.
pub(crate) fn addr_in(bands: &[Band], place: u32) -> Option<Addr>
    ensures { result ≡ addr_in bands.now place }
{
    let mut rest = u64::from(place);
    for band in bands {
        let size = size_of(*band);
        if rest < size {
            return Some(addr_at(*band, rest));
        }
        rest -= size;
    }
    None
}
