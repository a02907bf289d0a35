use crate::{CopyFault, Copyable, Name};
use std::alloc::Global;

/// An IPv4 address, as the number of its four bytes, the first the most significant.
#[derive(Clone, Copy, Debug, PartialEq, Eq)]
pub struct Addr(pub u32);

impl Copyable for Addr {
    fn copy(&self, _alloc: Global) -> Result<Self, CopyFault> {
        Ok(*self)
    }
}

/// A run of addresses, both ends within it.
#[derive(Clone, Copy, Debug, PartialEq, Eq)]
pub struct Band {
    pub first: Addr,
    pub last: Addr,
}

/// An address on a network.
#[derive(PartialEq, Eq, Drop)]
pub struct NetAddr {
    pub net: Name,
    pub addr: Addr,
}

impl Copyable for NetAddr {
    fn copy(&self, alloc: Global) -> Result<Self, CopyFault> {
        Ok(NetAddr {
            net: self.net.copy(alloc)?,
            addr: self.addr,
        })
    }
}
