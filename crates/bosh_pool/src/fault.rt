ghost use Rattle.std.specs.Prelude.{◌≡◌};
ghost use Rattle.bosh_pool.specs.declared.fault.PoolFault.TheVariants.{Memory};

use bosh_base::{Addr, CopyFault, Name, Owner};
use std::alloc::{AllocError, AllocFailed};

/// Why addresses are not assigned.
#[derive(Drop)]
pub enum PoolFault {
    /// The static addresses of a group on a network are not as many as its instances.
    StaticCount { group: Name },
    /// No subnet of the network has the address as a static one.
    NotStatic { addr: Addr },
    /// None that lies in the instance's availability zone has it so.
    StaticNotInAz { addr: Addr },
    /// Somebody else has the address.
    Taken { addr: Addr, owner: Owner },
    /// No address of the network is free in the instance's availability zone.
    Empty { net: Name },
    /// There is no memory for the answer.
    Memory,
}

impl From<AllocError> for PoolFault {
    ghost from_gives = { λ _ fault. fault ≡ Memory };

    fn from(_: AllocError) -> Self {
        PoolFault::Memory
    }
}

impl<T: Drop> From<AllocFailed<T>> for PoolFault {
    ghost from_gives = { λ _ fault. fault ≡ Memory };

    fn from(_: AllocFailed<T>) -> Self {
        PoolFault::Memory
    }
}

impl From<CopyFault> for PoolFault {
    ghost from_gives = { λ _ fault. fault ≡ Memory };

    fn from(_: CopyFault) -> Self {
        PoolFault::Memory
    }
}
