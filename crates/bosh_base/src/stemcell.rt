use crate::{CopyFault, Copyable, Name, Text, copy_both};
use std::alloc::Global;

/// An operating system image, by name and version.
#[derive(Drop)]
pub struct Stemcell {
    pub os: Name,
    pub version: Text,
}

impl Copyable for Stemcell {
    fn copy(&self, alloc: Global) -> Result<Self, CopyFault> {
        let (os, version) = copy_both(&self.os, &self.version, alloc)?;
        Ok(Stemcell { os, version })
    }
}
