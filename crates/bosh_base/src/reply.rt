use crate::{
    Addr, BuiltKey, Digest, Inst, Mark, Method, Name, Owner, Problem, Seq, Stemcell, TaskEnd,
    TaskKind, Text,
};

/// How an instance is listed.
#[derive(Clone, Copy, Debug, PartialEq, Eq)]
pub enum Shown {
    /// The answer of a call is not known.
    Doubt,
    /// It has no machine.
    Absent,
    Running,
    Stopped,
}

/// An instance, as `instances` lists it.
#[derive(Drop)]
pub struct InstanceLine {
    pub group: Name,
    pub index: u32,
    pub state: Shown,
    pub az: Option<Name>,
    /// In the order of the group's networks.
    pub addrs: Seq<Addr>,
    pub vm: Option<u64>,
    /// The active one.
    pub disk: Option<u64>,
}

/// An orphaned disk, as `disks` lists it.
#[derive(Drop)]
pub struct OrphanLine {
    pub disk: u64,
    /// In MB.
    pub size: u32,
    /// Whose it was.
    pub inst: Inst,
    /// Whether its deletion is in doubt.
    pub doubt: bool,
}

/// A task, as `tasks` lists it.
#[derive(Drop)]
pub struct TaskLine {
    pub task: u64,
    pub kind: TaskKind,
    pub dep: Option<Name>,
    pub end: Option<TaskEnd>,
}

/// A release, as `releases` lists it.
#[derive(Drop)]
pub struct ReleaseLine {
    pub name: Name,
    pub version: Text,
    /// By name.
    pub jobs: Seq<Mark>,
    /// By name.
    pub packages: Seq<Mark>,
}

/// A disk that is attached to a machine.
#[derive(Drop)]
pub struct HeldDisk {
    pub disk: u64,
    pub mounted: bool,
}

/// A machine, as `!cloud` lists it.
#[derive(Drop)]
pub struct MachineLine {
    pub vm: u64,
    pub owner: Owner,
    pub az: Name,
    pub addrs: Seq<Addr>,
    pub running: bool,
    /// By number.
    pub disks: Seq<HeldDisk>,
}

/// A disk, as `!cloud` lists it.
#[derive(Drop)]
pub struct CloudDiskLine {
    pub disk: u64,
    pub owner: Owner,
    /// In MB.
    pub size: u32,
    /// The machine that it is attached to.
    pub vm: Option<u64>,
}

/// A release was uploaded.
#[derive(Drop)]
pub struct ReleaseAdded {
    pub name: Name,
    pub version: Text,
    /// How many.
    pub jobs: u64,
    /// How many.
    pub packages: u64,
}

/// A release is there already.
#[derive(Drop)]
pub struct ReleaseThere {
    pub name: Name,
    pub version: Text,
}

/// The call by which a task failed.
#[derive(Drop)]
pub struct FailedCall {
    pub task: u64,
    pub n: u64,
    pub method: Method,
    pub owner: Owner,
}

/// A task, as `task` shows it.
#[derive(Drop)]
pub struct TaskDetail {
    pub line: TaskLine,
    pub calls: Option<u64>,
    /// Of the manifest.
    pub source: Option<Digest>,
}

/// What is there in the cloud.
#[derive(Drop)]
pub struct CloudListing {
    /// By number.
    pub machines: Seq<MachineLine>,
    /// By number.
    pub disks: Seq<CloudDiskLine>,
}

/// What a generated deployment took.
#[derive(Clone, Copy, Debug, PartialEq, Eq)]
pub struct Generated {
    pub instances: u64,
    pub groups: u64,
    pub calls: u64,
}

/// Why a command was refused.
#[derive(Drop)]
pub struct Refusal {
    /// The part of the director that refused.
    pub word: Text,
    /// Its reason.
    pub variant: Text,
    /// What the reason names.
    pub fields: Seq<Text>,
}

/// What a command is answered. Every reply but a failed task and a refusal is good.
#[derive(Drop)]
pub enum Reply {
    ReleaseAdded(ReleaseAdded),
    ReleaseThere(ReleaseThere),
    StemcellAdded(Stemcell),
    StemcellThere(Stemcell),
    ConfigUpdated,
    TaskFinished(u64),
    /// A call of the task failed.
    TaskFailed(FailedCall),
    /// What a call of the task named was not there.
    TaskGone(FailedCall),
    Instances(Seq<InstanceLine>),
    Orphans(Seq<OrphanLine>),
    Tasks(Seq<TaskLine>),
    Task(TaskDetail),
    Releases(Seq<ReleaseLine>),
    Compiled(Seq<BuiltKey>),
    Cloud(CloudListing),
    /// Of a disk or of a placed file.
    Contents(Text),
    Written,
    Restarted,
    Lost,
    /// A command that prints nothing.
    Nothing,
    Generated(Generated),
    Problems(Seq<Problem>),
    Refused(Refusal),
}
