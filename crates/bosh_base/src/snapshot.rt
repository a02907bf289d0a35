use crate::{
    CopyFault, Copyable, Digest, DiskWant, Doubt, Goal, Inst, Key, Make, Name, Offer, Release, Row,
    Seq, Stemcell, TaskRow, Text, Vm, both, copy_both, copy_three,
};
use std::alloc::Global;

/// What is recorded of a deployment.
#[derive(Drop)]
pub struct DepRow {
    pub dep: Name,
    /// Its current goal.
    pub goal: Goal,
    /// The offers of its last deploy that was done.
    pub shared: Seq<Offer>,
}

impl Copyable for DepRow {
    fn copy(&self, alloc: Global) -> Result<Self, CopyFault> {
        let (dep, goal, shared) = copy_three(&self.dep, &self.goal, &self.shared, alloc)?;
        Ok(DepRow { dep, goal, shared })
    }
}

/// What is recorded of a compile machine.
#[derive(Drop)]
pub struct CompileRow {
    pub task: u64,
    /// From 0 on.
    pub slot: u32,
    pub dep: Name,
    pub make: Make,
    pub vm: Option<Vm>,
    pub doubt: Option<Doubt>,
}

impl Copyable for CompileRow {
    fn copy(&self, alloc: Global) -> Result<Self, CopyFault> {
        let (dep, make, doubt) = copy_three(&self.dep, &self.make, &self.doubt, alloc)?;
        Ok(CompileRow {
            task: self.task,
            slot: self.slot,
            dep,
            make,
            vm: self.vm,
            doubt,
        })
    }
}

/// A disk that belongs to no instance any more.
#[derive(Drop)]
pub struct Orphan {
    pub disk: u64,
    pub want: DiskWant,
    /// Whose it was.
    pub inst: Inst,
    pub doubt: Option<Doubt>,
}

impl Copyable for Orphan {
    fn copy(&self, alloc: Global) -> Result<Self, CopyFault> {
        let (want, inst, doubt) = copy_three(&self.want, &self.inst, &self.doubt, alloc)?;
        Ok(Orphan {
            disk: self.disk,
            want,
            inst,
            doubt,
        })
    }
}

/// A package that is compiled.
#[derive(Drop)]
pub struct BuiltKey {
    pub name: Name,
    pub key: Key,
    /// Of the result.
    pub digest: Digest,
}

impl Copyable for BuiltKey {
    fn copy(&self, alloc: Global) -> Result<Self, CopyFault> {
        let (name, key) = copy_both(&self.name, &self.key, alloc)?;
        Ok(BuiltKey {
            name,
            key,
            digest: self.digest,
        })
    }
}

/// All that entries stand for, in one entry.
#[derive(Drop)]
pub struct Snapshot {
    /// In the order of their entries.
    pub releases: Seq<Release>,
    /// In the order of their entries.
    pub stemcells: Seq<Stemcell>,
    /// The bytes of the file.
    pub config: Option<Text>,
    /// In the order of their entries.
    pub deployments: Seq<DepRow>,
    /// By instance.
    pub rows: Seq<Row>,
    /// By task and slot, without those that are known absent.
    pub compile_rows: Seq<CompileRow>,
    /// By disk.
    pub orphans: Seq<Orphan>,
    /// By name and key.
    pub built_keys: Seq<BuiltKey>,
    /// By number.
    pub tasks: Seq<TaskRow>,
    pub last_call: u64,
}

impl Copyable for Snapshot {
    fn copy(&self, alloc: Global) -> Result<Self, CopyFault> {
        let (
            ((releases, stemcells, config), (deployments, rows, compile_rows)),
            (orphans, built_keys, tasks),
        ) = both(
            both(
                copy_three(&self.releases, &self.stemcells, &self.config, alloc),
                copy_three(&self.deployments, &self.rows, &self.compile_rows, alloc),
            ),
            copy_three(&self.orphans, &self.built_keys, &self.tasks, alloc),
        )?;
        Ok(Snapshot {
            releases,
            stemcells,
            config,
            deployments,
            rows,
            compile_rows,
            orphans,
            built_keys,
            tasks,
            last_call: self.last_call,
        })
    }
}
