ghost use Rattle.std.specs.Prelude.{◌≡◌};
ghost use Rattle.bosh_base.specs.Inst.{inst_cmp};

use crate::{CopyFault, Copyable, Name, copy_both};
use std::alloc::Global;
use std::cmp::Ordering;

/// An instance: one numbered member of an instance group of a deployment.
#[derive(PartialEq, Eq, PartialOrd, Ord, Drop)]
pub struct Inst {
    /// The deployment.
    pub dep: Name,
    /// The instance group.
    pub group: Name,
    /// From 0 on.
    pub index: u32,
}

impl Copyable for Inst {
    fn copy(&self, alloc: Global) -> Result<Self, CopyFault> {
        let (dep, group) = copy_both(&self.dep, &self.group, alloc)?;
        Ok(Inst {
            dep,
            group,
            index: self.index,
        })
    }
}

impl Inst {
    /// The order in which instances are listed: by deployment, then group, then index. It is that of `<`.
    pub fn order(&self, other: &Inst) -> Ordering
        ensures { result ≡ inst_cmp self.now other.now }
    {
        self.cmp(other)
    }
}
