use crate::{CopyFault, Copyable, Inst};
use std::alloc::Global;

/// Whom a machine, a disk or a call belongs to.
#[derive(PartialEq, Eq, Drop)]
pub enum Owner {
    Instance(Inst),
    /// A compile machine: its task and its slot in the task, from 0 on.
    Compile(u64, u32),
    /// An orphaned disk, by its number.
    Disk(u64),
}

impl Copyable for Owner {
    fn copy(&self, alloc: Global) -> Result<Self, CopyFault> {
        match self {
            Owner::Instance(inst) => Ok(Owner::Instance(inst.copy(alloc)?)),
            Owner::Compile(task, slot) => Ok(Owner::Compile(*task, *slot)),
            Owner::Disk(disk) => Ok(Owner::Disk(*disk)),
        }
    }
}
