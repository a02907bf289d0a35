use crate::{CopyFault, Copyable, Text};
use std::alloc::Global;

/// A persistent disk as a group asks for it.
#[derive(PartialEq, Eq, Drop)]
pub struct DiskWant {
    /// In MB.
    pub size: u32,
    /// The cloud properties of the disk type, as compact JSON; `null` where there are none.
    pub properties: Text,
}

impl Copyable for DiskWant {
    fn copy(&self, alloc: Global) -> Result<Self, CopyFault> {
        Ok(DiskWant {
            size: self.size,
            properties: self.properties.copy(alloc)?,
        })
    }
}
