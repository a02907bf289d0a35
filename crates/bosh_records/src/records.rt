ghost use Rattle.std.specs.Prelude.{◌≡◌, ◌==◌, ◌&&◌, ℕ, false, IfOk, IsPermutation, Option};
ghost use Rattle.std.specs.List.{list_any};
ghost use Rattle.std.specs.List.Sorted.{IsSorted};
ghost use Rattle.std.specs.Map.Iter.{ShowsInOrder, deref_pair};
ghost use Rattle.std.specs.Option.{option_copied, option_map_or};
ghost use Rattle.std.specs.Str.{bytes_eq};
ghost use Rattle.bosh_base.specs.declared.inst.Inst.{Inst};
ghost use Rattle.bosh_base.specs.declared.snapshot.DepRow.{DepRow};
ghost use Rattle.bosh_base.specs.declared.task.TaskRow.{TaskRow};
ghost use Rattle.bosh_rows.specs.SoundSnapshot.{built_cmp};
ghost use Rattle.bosh_records.specs.Keys.{built_of};
ghost use Rattle.bosh_records.specs.Readers.{call_at, dep_of_task, deployed_by, deployment_in, deployment_of};
ghost use Rattle.bosh_records.specs.Readers.{digest_of, disk_owner, goal_of, has_disk, instance_at, is_compiling};
ghost use Rattle.bosh_records.specs.Readers.{is_empty, machine_at, orphan_at, owner_in, row_at, shared_of, since_in};
ghost use Rattle.bosh_records.specs.Readers.{task_at, want_of, work_at};
ghost use Rattle.bosh_records.specs.Recorded.{nothing, recorded};
ghost use Rattle.bosh_records.specs.declared.instances.Instance.{Instance};
ghost use Rattle.bosh_records.specs.declared.machines.Machine.{Machine};
ghost use Rattle.bosh_work.specs.declared.part.MachineName.{MachineName};
ghost use Rattle.bosh_records.specs.declared.orphans.LooseDisk.{LooseDisk};
ghost use Rattle.bosh_records.specs.declared.records.Since.{Since};
ghost use Rattle.bosh_work.specs.declared.work.Work.{Work};

use crate::instances::Instances;
use crate::keys::Keys;
use crate::table::Table;
use crate::{Instance, LooseDisk, Machine, RecordsFault};
use bosh_base::{
    Begin, BuiltKey, DepRow, Digest, DiskRow, Goal, GoalRow, Inst, Key, Name, Offer, Release, Row,
    Seq, Stemcell, TaskKind, TaskRow, Text,
};
use bosh_work::{MachineName, Work};
use std::alloc::Global;
use std::collections::btree_map::Iter;

/// Since when a deployment is recorded: by its place in a snapshot, or since a task of this number.
#[derive(Clone, Copy, PartialEq, Eq, PartialOrd, Ord)]
pub enum Since {
    Snapshot(usize),
    Task(u64),
}

/// What the entries of a director's store stand for. Whoever takes entries in changes the tables in place; all others
/// read them by the calls here.
#[derive(Drop)]
pub struct Records {
    pub alloc: Global,
    pub releases: Vec<Release>,
    pub stemcells: Vec<Stemcell>,
    pub config: Option<Text>,
    pub deployments: Table<Since, DepRow>,
    pub instances: Instances,
    pub machines: Table<MachineName, Machine>,
    pub orphans: Table<u64, LooseDisk>,
    pub keys: Keys,
    pub tasks: Table<u64, TaskRow>,
    pub works: Table<u64, Work>,
    pub calls: Table<u64, Begin>,
    pub opened: u64,
    pub last_call: u64,
}

impl Records {
    /// Before the first entry.
    pub fn empty(alloc: Global) -> Records
        ensures { recorded result ≡ nothing }
    {
        Records {
            alloc,
            releases: Vec::new(alloc),
            stemcells: Vec::new(alloc),
            config: None,
            deployments: Table::new(alloc),
            instances: Instances::new(alloc),
            machines: Table::new(alloc),
            orphans: Table::new(alloc),
            keys: Keys::new(alloc),
            tasks: Table::new(alloc),
            works: Table::new(alloc),
            calls: Table::new(alloc),
            opened: 0,
            last_call: 0,
        }
    }

    /// Whether nothing was recorded yet.
    pub fn is_empty(&self) -> bool
        ensures { result ≡ is_empty self.now }
    {
        self.releases.is_empty()
            && self.stemcells.is_empty()
            && self.config.is_none()
            && self.opened == 0
    }

    /// The releases, in the order in which they came.
    pub fn releases(&self) -> &[Release]
        ensures { result.now ≡ self.now.releases.items }
    {
        self.releases.as_slice()
    }

    /// The stemcells, in the order in which they came.
    pub fn stemcells(&self) -> &[Stemcell]
        ensures { result.now ≡ self.now.stemcells.items }
    {
        self.stemcells.as_slice()
    }

    /// The bytes of the last cloud config.
    pub fn config(&self) -> Option<&[u8]>
        ensures { option_copied result ≡ self.now.config }
    {
        match &self.config {
            Some(file) => Some(file.as_slice()),
            None => None,
        }
    }

    /// The recorded deployments, in the order of their first tasks; some are not recorded any more.
    pub fn deployments(&self) -> Iter<'_, Since, Option<DepRow>>
        ensures rest { result ≡ self.now.deployments.places.entries }
        ensures runs { ShowsInOrder (deref_pair {K = Since} {X = Option DepRow}) }
    {
        self.deployments.iter()
    }

    /// Since when a deployment is recorded.
    pub fn since(&self, dep: &Name) -> Option<Since>
        ensures { result ≡ since_in self.now.deployments.places.entries dep.now }
    {
        for (since, row) in self.deployments.iter() {
            if is_row_of(row.as_ref(), dep) {
                return Some(*since);
            }
        }
        None
    }

    /// What is recorded of a deployment.
    pub fn deployment(&self, dep: &Name) -> Option<&DepRow>
        ensures { option_copied result ≡ deployment_of self.now dep.now }
    {
        for (_, row) in self.deployments.iter() {
            if is_row_of(row.as_ref(), dep) {
                return row.as_ref();
            }
        }
        None
    }

    /// The current goal of a deployment.
    pub fn goal_of(&self, dep: &Name) -> Option<&Goal>
        ensures { option_copied result ≡ goal_of self.now dep.now }
    {
        Some(&self.deployment(dep)?.goal)
    }

    /// What is known of an instance.
    pub fn instance(&self, inst: &Inst) -> Option<&Instance>
        ensures { option_copied result ≡ instance_at self.now inst.now }
    {
        self.instances.get(inst)
    }

    /// What is recorded of an instance.
    pub fn row(&self, inst: &Inst) -> Option<&Row>
        ensures { option_copied result ≡ row_at self.now inst.now }
    {
        self.instances.row(inst)
    }

    /// How the current goal of its deployment wants an instance.
    pub fn want_of(&self, inst: &Inst) -> Option<&GoalRow>
        ensures { option_copied result ≡ want_of self.now inst.now }
    {
        let place = self.instances.get(inst)?.want?;
        self.goal_of(&inst.dep)?.rows.get(place)
    }

    /// What is known of instances, in their order; of some nothing is recorded.
    pub fn instances(&self) -> Iter<'_, Inst, Instance>
        ensures rest { result ≡ self.now.instances.by_inst.entries }
        ensures runs { ShowsInOrder (deref_pair {K = Inst} {X = Instance}) }
    {
        self.instances.iter()
    }

    /// A compile machine that is recorded.
    pub fn machine(&self, name: MachineName) -> Option<&Machine>
        ensures { option_copied result ≡ machine_at self.now name }
    {
        self.machines.get(&name)
    }

    /// The compile machines by task and slot; some are not recorded any more.
    pub fn machines(&self) -> Iter<'_, MachineName, Option<Machine>>
        ensures rest { result ≡ self.now.machines.places.entries }
        ensures runs { ShowsInOrder (deref_pair {K = MachineName} {X = Option Machine}) }
    {
        self.machines.iter()
    }

    /// A disk that belongs to no instance any more.
    pub fn orphan(&self, disk: u64) -> Option<&LooseDisk>
        ensures { option_copied result ≡ orphan_at self.now disk }
    {
        self.orphans.get(&disk)
    }

    /// The orphaned disks by number; some are not there any more.
    pub fn orphans(&self) -> Iter<'_, u64, Option<LooseDisk>>
        ensures rest { result ≡ self.now.orphans.places.entries }
        ensures runs { ShowsInOrder (deref_pair {K = ℕ} {X = Option LooseDisk}) }
    {
        self.orphans.iter()
    }

    /// The instance whose row has a disk.
    pub fn disk_owner(&self, disk: u64) -> Option<&Inst>
        ensures { option_copied result ≡ disk_owner self.now disk }
    {
        for (inst, instance) in self.instances.iter() {
            if has_disk(instance.row.as_ref(), disk) {
                return Some(inst);
            }
        }
        None
    }

    /// What was compiled, by name and key.
    pub fn built_keys(&self) -> Result<Seq<BuiltKey>, RecordsFault>
        ensures permutation { IfOk result (IsPermutation (built_of self.now.keys.by_key.entries)) }
        ensures sorted { IfOk result (IsSorted built_cmp) }
    {
        self.keys.built(self.alloc)
    }

    /// The digest of a compiled key.
    pub fn digest_of(&self, key: &Key) -> Option<Digest>
        ensures { result ≡ digest_of self.now key.now }
    {
        self.keys.digest(key)
    }

    /// Whether an open call compiles a key.
    pub fn is_compiling(&self, key: &Key) -> bool
        ensures { result ≡ is_compiling self.now key.now }
    {
        self.keys.is_compiling(key)
    }

    /// The tasks by number, from 1 on.
    pub fn tasks(&self) -> Iter<'_, u64, Option<TaskRow>>
        ensures rest { result ≡ self.now.tasks.places.entries }
        ensures runs { ShowsInOrder (deref_pair {K = ℕ} {X = Option TaskRow}) }
    {
        self.tasks.iter()
    }

    pub fn task(&self, task: u64) -> Option<&TaskRow>
        ensures { option_copied result ≡ task_at self.now task }
    {
        self.tasks.get(&task)
    }

    /// The deployment that a task is of.
    pub fn dep_of(&self, task: u64) -> Option<&Name>
        ensures { option_copied result ≡ dep_of_task self.now task }
    {
        self.task(task)?.dep.as_ref()
    }

    /// What is recorded of the deployment of a task, where the task is a deploy.
    pub fn deployed_by(&self, task: u64) -> Option<&DepRow>
        ensures { option_copied result ≡ deployed_by self.now task }
    {
        let row = self.task(task)?;
        match row.kind {
            TaskKind::Deploy | TaskKind::Fix => self.deployment(row.dep.as_ref()?),
            _ => None,
        }
    }

    /// How many tasks were opened.
    pub fn tasks_opened(&self) -> u64
        ensures { result ≡ self.now.opened }
    {
        self.opened
    }

    /// What is left to do of an open task. It is none of one that a snapshot had open: such a task can only end.
    pub fn work(&self, task: u64) -> Option<&Work>
        ensures { option_copied result ≡ work_at self.now task }
    {
        self.works.get(&task)
    }

    /// The tasks that are open, by number; some have ended.
    pub fn works(&self) -> Iter<'_, u64, Option<Work>>
        ensures rest { result ≡ self.now.works.places.entries }
        ensures runs { ShowsInOrder (deref_pair {K = ℕ} {X = Option Work}) }
    {
        self.works.iter()
    }

    /// How an open call began.
    pub fn call(&self, n: u64) -> Option<&Begin>
        ensures { option_copied result ≡ call_at self.now n }
    {
        self.calls.get(&n)
    }

    /// The number of the last call, and 0 before the first.
    pub fn last_call(&self) -> u64
        ensures { result ≡ self.now.last_call }
    {
        self.last_call
    }

    /// The offers of the last deploy of a deployment that was done.
    pub fn shared(&self, dep: &Name) -> &[Offer]
        ensures { result.now ≡ shared_of self.now dep.now }
    {
        match self.deployment(dep) {
            Some(row) => row.shared.as_slice(),
            None => &[],
        }
    }
}

fn has_disk(row: Option<&Row>, disk: u64) -> bool
    ensures { result ≡ has_disk (option_copied row.entry) disk }
{
    match row {
        Some(row) => is_among(row.disks.as_slice(), disk),
        None => false,
    }
}

fn is_among(disks: &[DiskRow], disk: u64) -> bool
    ensures { result ≡ list_any (λ d. d.disk == disk) disks.now }
{
    disks.iter().any(|it| it.disk == disk)
}

fn is_row_of(row: Option<&DepRow>, dep: &Name) -> bool
    ensures { result ≡ option_map_or (λ it. bytes_eq it.dep dep.now) (option_copied row.entry) false }
{
    match row {
        Some(row) => row.dep == *dep,
        None => false,
    }
}
