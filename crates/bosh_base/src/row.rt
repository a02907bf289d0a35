use crate::{
    Call, CopyFault, Copyable, DiskWant, Inst, Make, Seq, Spec, both, copy_both, copy_three,
};
use std::alloc::Global;

/// What a disk is to its instance.
#[derive(Clone, Copy, Debug, PartialEq, Eq)]
pub enum Role {
    /// It holds the contents.
    Active,
    /// The contents are to be moved to it.
    New,
    /// The contents were moved from it.
    Old,
}

impl Copyable for Role {
    fn copy(&self, _alloc: Global) -> Result<Self, CopyFault> {
        Ok(*self)
    }
}

/// A persistent disk of an instance, as it is recorded.
#[derive(Drop)]
pub struct DiskRow {
    /// Its number in the cloud.
    pub disk: u64,
    /// The number of the call that created it.
    pub tag: u64,
    pub want: DiskWant,
    pub role: Role,
    pub attached: bool,
    pub mounted: bool,
}

impl Copyable for DiskRow {
    fn copy(&self, alloc: Global) -> Result<Self, CopyFault> {
        Ok(DiskRow {
            disk: self.disk,
            tag: self.tag,
            want: self.want.copy(alloc)?,
            role: self.role,
            attached: self.attached,
            mounted: self.mounted,
        })
    }
}

/// A machine, as it is recorded.
#[derive(Clone, Copy, Debug, PartialEq, Eq)]
pub struct Vm {
    /// Its number in the cloud.
    pub vm: u64,
    /// The number of the call that created it.
    pub agent: u64,
}

impl Copyable for Vm {
    fn copy(&self, _alloc: Global) -> Result<Self, CopyFault> {
        Ok(*self)
    }
}

/// A call whose answer is not known.
#[derive(Drop)]
pub struct Doubt {
    /// Its number.
    pub n: u64,
    pub call: Call,
}

impl Copyable for Doubt {
    fn copy(&self, alloc: Global) -> Result<Self, CopyFault> {
        Ok(Doubt {
            n: self.n,
            call: self.call.copy(alloc)?,
        })
    }
}

/// What is recorded of an instance.
#[derive(Drop)]
pub struct Row {
    pub inst: Inst,
    /// What its last machine was made from.
    pub make: Option<Make>,
    pub vm: Option<Vm>,
    pub spec: Option<Spec>,
    pub running: bool,
    pub drained: bool,
    /// By the number of the disk.
    pub disks: Seq<DiskRow>,
    pub doubt: Option<Doubt>,
    /// Its machine did not answer.
    pub lost: bool,
}

impl Copyable for Row {
    fn copy(&self, alloc: Global) -> Result<Self, CopyFault> {
        let ((inst, make, spec), (disks, doubt)) = both(
            copy_three(&self.inst, &self.make, &self.spec, alloc),
            copy_both(&self.disks, &self.doubt, alloc),
        )?;
        Ok(Row {
            inst,
            make,
            vm: self.vm,
            spec,
            running: self.running,
            drained: self.drained,
            disks,
            doubt,
            lost: self.lost,
        })
    }
}
