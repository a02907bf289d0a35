use crate::{
    Answer, Call, CopyFault, Copyable, Digest, Failure, Goal, Inst, Name, Owner, Release, Seq,
    Snapshot, Stemcell, TaskKind, Text, both, copy_both, copy_three,
};
use std::alloc::Global;

/// A task is opened.
#[derive(Drop)]
pub struct TaskOpen {
    /// Its number: one more than the tasks before it.
    pub task: u64,
    pub kind: TaskKind,
    pub dep: Option<Name>,
    /// The current goal of the deployment from here on.
    pub goal: Option<Goal>,
    /// Which instances are to be brought to their goal.
    pub changed: Seq<Inst>,
    /// Which instances are to go.
    pub obsolete: Seq<Inst>,
    /// Which disks are to be deleted.
    pub disks: Seq<u64>,
    /// Of the manifest of a deploy.
    pub source: Option<Digest>,
}

impl Copyable for TaskOpen {
    fn copy(&self, alloc: Global) -> Result<Self, CopyFault> {
        let ((kind, dep, goal), (changed, obsolete, disks)) = both(
            copy_three(&self.kind, &self.dep, &self.goal, alloc),
            copy_three(&self.changed, &self.obsolete, &self.disks, alloc),
        )?;
        Ok(TaskOpen {
            task: self.task,
            kind,
            dep,
            goal,
            changed,
            obsolete,
            disks,
            source: self.source,
        })
    }
}

/// The intent of a call, before it is made.
#[derive(Drop)]
pub struct Begin {
    /// The number of the call: one more than that of the last.
    pub n: u64,
    pub task: u64,
    /// Who makes it, from 0 on.
    pub worker: u8,
    pub owner: Owner,
    pub call: Call,
}

impl Copyable for Begin {
    fn copy(&self, alloc: Global) -> Result<Self, CopyFault> {
        let (owner, call) = copy_both(&self.owner, &self.call, alloc)?;
        Ok(Begin {
            n: self.n,
            task: self.task,
            worker: self.worker,
            owner,
            call,
        })
    }
}

/// What a call answered.
#[derive(Drop)]
pub struct End {
    /// The number of the call.
    pub n: u64,
    pub answer: Answer,
}

impl Copyable for End {
    fn copy(&self, alloc: Global) -> Result<Self, CopyFault> {
        Ok(End {
            n: self.n,
            answer: self.answer.copy(alloc)?,
        })
    }
}

/// A task and one of its instances.
#[derive(Drop)]
pub struct Update {
    pub task: u64,
    pub inst: Inst,
}

impl Copyable for Update {
    fn copy(&self, alloc: Global) -> Result<Self, CopyFault> {
        Ok(Update {
            task: self.task,
            inst: self.inst.copy(alloc)?,
        })
    }
}

/// A task ended without being done.
#[derive(Drop)]
pub struct TaskError {
    pub task: u64,
    pub cause: Failure,
}

impl Copyable for TaskError {
    fn copy(&self, alloc: Global) -> Result<Self, CopyFault> {
        Ok(TaskError {
            task: self.task,
            cause: self.cause.copy(alloc)?,
        })
    }
}

/// A call that changed the cloud.
#[derive(Drop)]
pub struct Effect {
    /// The number of the call.
    pub n: u64,
    pub owner: Owner,
    /// The deployment of the task that made it.
    pub dep: Name,
    pub call: Call,
}

impl Copyable for Effect {
    fn copy(&self, alloc: Global) -> Result<Self, CopyFault> {
        let (owner, dep, call) = copy_three(&self.owner, &self.dep, &self.call, alloc)?;
        Ok(Effect {
            n: self.n,
            owner,
            dep,
            call,
        })
    }
}

/// What a running job wrote to its disk.
#[derive(Drop)]
pub struct Write {
    pub disk: u64,
    pub text: Text,
}

impl Copyable for Write {
    fn copy(&self, alloc: Global) -> Result<Self, CopyFault> {
        Ok(Write {
            disk: self.disk,
            text: self.text.copy(alloc)?,
        })
    }
}

/// A machine vanished, or its agent fell silent.
#[derive(Clone, Copy, Debug, PartialEq, Eq)]
pub struct Loss {
    pub vm: u64,
    /// The machine vanished.
    pub whole: bool,
}

impl Copyable for Loss {
    fn copy(&self, _alloc: Global) -> Result<Self, CopyFault> {
        Ok(*self)
    }
}

/// One durable fact. The director's store has all kinds but the last three, which the cloud's store has.
#[derive(Drop)]
pub enum Entry {
    Release(Release),
    Stemcell(Stemcell),
    /// The bytes of the file.
    Config(Text),
    TaskOpen(TaskOpen),
    Begin(Begin),
    End(End),
    /// The work on a changed instance begins.
    UpdBegin(Update),
    /// A changed instance stands as its goal asks.
    UpdDone(Update),
    /// An obsolete instance has nothing left.
    Gone(Update),
    /// By its number.
    TaskDone(u64),
    TaskError(TaskError),
    Snapshot(Snapshot),
    Effect(Effect),
    Write(Write),
    Lost(Loss),
}

// By `map`, since an entry over a `?` in each of so many arms is dear to prove.
// Dear to prove: one arm for each of 15 kinds, each a function of its own.
impl Copyable for Entry {
    fn copy(&self, alloc: Global) -> Result<Self, CopyFault> {
        match self {
            Entry::Release(release) => release.copy(alloc).map(Entry::Release),
            Entry::Stemcell(stemcell) => stemcell.copy(alloc).map(Entry::Stemcell),
            Entry::Config(file) => file.copy(alloc).map(Entry::Config),
            Entry::TaskOpen(open) => open.copy(alloc).map(Entry::TaskOpen),
            Entry::Begin(begin) => begin.copy(alloc).map(Entry::Begin),
            Entry::End(end) => end.copy(alloc).map(Entry::End),
            Entry::UpdBegin(update) => update.copy(alloc).map(Entry::UpdBegin),
            Entry::UpdDone(update) => update.copy(alloc).map(Entry::UpdDone),
            Entry::Gone(update) => update.copy(alloc).map(Entry::Gone),
            Entry::TaskDone(task) => Ok(Entry::TaskDone(*task)),
            Entry::TaskError(error) => error.copy(alloc).map(Entry::TaskError),
            Entry::Snapshot(snapshot) => snapshot.copy(alloc).map(Entry::Snapshot),
            Entry::Effect(effect) => effect.copy(alloc).map(Entry::Effect),
            Entry::Write(write) => write.copy(alloc).map(Entry::Write),
            Entry::Lost(loss) => Ok(Entry::Lost(*loss)),
        }
    }
}
