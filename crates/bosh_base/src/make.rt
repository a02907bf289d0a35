use crate::{CopyFault, Copyable, Name, NetAddr, Seq, Text, both, copy_both, copy_three};
use std::alloc::Global;

/// What a machine is made from.
#[derive(PartialEq, Eq, Drop)]
pub struct Make {
    /// The operating system of the stemcell.
    pub os: Text,
    /// The version of the stemcell.
    pub version: Text,
    /// The availability zone.
    pub az: Name,
    /// The cloud properties of the vm type, as compact JSON; `null` where there are none.
    pub vm: Text,
    /// One address a network, in the order of the group.
    pub nets: Seq<NetAddr>,
}

impl Copyable for Make {
    fn copy(&self, alloc: Global) -> Result<Self, CopyFault> {
        let ((os, version, az), (vm, nets)) = both(
            copy_three(&self.os, &self.version, &self.az, alloc),
            copy_both(&self.vm, &self.nets, alloc),
        )?;
        Ok(Make {
            os,
            version,
            az,
            vm,
            nets,
        })
    }
}
