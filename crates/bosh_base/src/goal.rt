use crate::{
    CopyFault, Copyable, DiskWant, Inst, KeyWork, Make, Name, Offer, Seq, Spec, State, Tie, both,
    copy_four, copy_three,
};
use std::alloc::Global;

/// How one instance is to stand.
#[derive(Drop)]
pub struct GoalRow {
    pub inst: Inst,
    pub make: Make,
    pub spec: Spec,
    pub disk: Option<DiskWant>,
    pub state: State,
    /// A machine that was created by this call or an earlier one is made anew.
    pub fresh_after: u64,
}

impl Copyable for GoalRow {
    fn copy(&self, alloc: Global) -> Result<Self, CopyFault> {
        let (inst, make, spec, disk) = copy_four(
            &self.inst, &self.make, &self.spec, &self.disk, alloc,
        )?;
        Ok(GoalRow {
            inst,
            make,
            spec,
            disk,
            state: self.state,
            fresh_after: self.fresh_after,
        })
    }
}

/// How the instances of a group are brought to their goal.
#[derive(Drop)]
pub struct GroupPlan {
    pub name: Name,
    /// So many changed instances are finished before the others begin.
    pub canaries: u32,
    /// At most so many changed instances are worked on at once.
    pub limit: u32,
    /// Groups of one stage are worked on side by side; counted from 0.
    pub stage: u32,
}

impl Copyable for GroupPlan {
    fn copy(&self, alloc: Global) -> Result<Self, CopyFault> {
        Ok(GroupPlan {
            name: self.name.copy(alloc)?,
            canaries: self.canaries,
            limit: self.limit,
            stage: self.stage,
        })
    }
}

/// The desired state of a deployment.
#[derive(Drop)]
pub struct Goal {
    pub dep: Name,
    /// By group in the order of the manifest, and then by index.
    pub rows: Seq<GoalRow>,
    /// In the order of the manifest.
    pub groups: Seq<GroupPlan>,
    pub ties: Seq<Tie>,
    /// What is still to be compiled, dependencies first.
    pub keys: Seq<KeyWork>,
    /// What the compile machines are made from.
    pub slots: Seq<Make>,
    /// The links that other deployments may take.
    pub offers: Seq<Offer>,
}

impl Copyable for Goal {
    fn copy(&self, alloc: Global) -> Result<Self, CopyFault> {
        let ((dep, rows, groups, ties), (keys, slots, offers)) = both(
            copy_four(&self.dep, &self.rows, &self.groups, &self.ties, alloc),
            copy_three(&self.keys, &self.slots, &self.offers, alloc),
        )?;
        Ok(Goal {
            dep,
            rows,
            groups,
            ties,
            keys,
            slots,
            offers,
        })
    }
}
