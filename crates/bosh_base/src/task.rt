use crate::{CopyFault, Copyable, Digest, Inst, Method, Name, Owner, copy_three};
use std::alloc::Global;

/// What a task does.
#[derive(PartialEq, Eq, Drop)]
pub enum TaskKind {
    Deploy,
    Recreate(Inst),
    Start(Inst),
    Stop(Inst),
    DeleteDeployment,
    DeleteDisk(u64),
    /// Deletes all orphaned disks.
    CleanUp,
    /// A deploy that looks first whether each machine answers.
    Fix,
    /// Looks whether one machine answers, and makes it as its goal asks.
    Resolve(Inst),
}

impl Copyable for TaskKind {
    fn copy(&self, alloc: Global) -> Result<Self, CopyFault> {
        match self {
            TaskKind::Deploy => Ok(TaskKind::Deploy),
            TaskKind::Recreate(inst) => Ok(TaskKind::Recreate(inst.copy(alloc)?)),
            TaskKind::Start(inst) => Ok(TaskKind::Start(inst.copy(alloc)?)),
            TaskKind::Stop(inst) => Ok(TaskKind::Stop(inst.copy(alloc)?)),
            TaskKind::DeleteDeployment => Ok(TaskKind::DeleteDeployment),
            TaskKind::DeleteDisk(disk) => Ok(TaskKind::DeleteDisk(*disk)),
            TaskKind::CleanUp => Ok(TaskKind::CleanUp),
            TaskKind::Fix => Ok(TaskKind::Fix),
            TaskKind::Resolve(inst) => Ok(TaskKind::Resolve(inst.copy(alloc)?)),
        }
    }
}

/// How a task ended.
#[derive(PartialEq, Eq, Drop)]
pub enum TaskEnd {
    Finished,
    /// A call failed.
    Fault {
        n: u64,
        method: Method,
        owner: Owner,
    },
    /// The director stopped.
    Interrupted,
    /// What a call named was not there.
    Gone {
        n: u64,
        method: Method,
        owner: Owner,
    },
}

impl Copyable for TaskEnd {
    fn copy(&self, alloc: Global) -> Result<Self, CopyFault> {
        match self {
            TaskEnd::Finished => Ok(TaskEnd::Finished),
            TaskEnd::Fault { n, method, owner } => Ok(TaskEnd::Fault {
                n: *n,
                method: *method,
                owner: owner.copy(alloc)?,
            }),
            TaskEnd::Interrupted => Ok(TaskEnd::Interrupted),
            TaskEnd::Gone { n, method, owner } => Ok(TaskEnd::Gone {
                n: *n,
                method: *method,
                owner: owner.copy(alloc)?,
            }),
        }
    }
}

/// What is recorded of a task.
#[derive(Drop)]
pub struct TaskRow {
    /// Its number, from 1 on.
    pub task: u64,
    pub kind: TaskKind,
    pub dep: Option<Name>,
    /// None while it is open.
    pub end: Option<TaskEnd>,
    /// Of the manifest of a deploy.
    pub source: Option<Digest>,
    /// How many calls it began, where that is known.
    pub calls: Option<u64>,
}

impl Copyable for TaskRow {
    fn copy(&self, alloc: Global) -> Result<Self, CopyFault> {
        let (kind, dep, end) = copy_three(&self.kind, &self.dep, &self.end, alloc)?;
        Ok(TaskRow {
            task: self.task,
            kind,
            dep,
            end,
            source: self.source,
            calls: self.calls,
        })
    }
}
