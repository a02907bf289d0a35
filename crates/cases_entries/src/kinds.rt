//! What tells entries of one kind apart, in words.
use bosh_base::{Begin, Effect, Entry, Failure, Release, Snapshot, TaskError, TaskOpen, Update};
use cases_words::Told;
use std::fmt;

/// The kind of an entry, and what is short of its fields.
#[derive(Clone, Copy)]
pub(crate) struct EntryTold<'a>(pub(crate) &'a Entry);

fn add_release<W: fmt::Write>(f: &mut fmt::Formatter<W>, it: &Release) -> fmt::Result {
    let (name, version) = (Told(&it.name), Told(&it.version));
    let (jobs, packages) = (it.jobs.len(), it.packages.len());
    write!(
        f,
        "Release {name} {version}, {jobs} jobs, {packages} packages"
    )
}

fn add_open<W: fmt::Write>(f: &mut fmt::Formatter<W>, it: &TaskOpen) -> fmt::Result {
    let (changed, obsolete) = (it.changed.len(), it.obsolete.len());
    let (task, disks) = (it.task, it.disks.len());
    write!(
        f,
        "TaskOpen {task}, {changed} changed, {obsolete} obsolete, {disks} disks"
    )
}

fn add_begin<W: fmt::Write>(f: &mut fmt::Formatter<W>, it: &Begin) -> fmt::Result {
    let Begin {
        n,
        task,
        worker,
        ..
    } = it;
    let method = it.call.method().name();
    write!(f, "Begin {n} of task {task} by {worker}, {method}")
}

fn add_update<W: fmt::Write>(f: &mut fmt::Formatter<W>, word: &str, it: &Update) -> fmt::Result {
    write!(f, "{word} of task {}, {}", it.task, Told(&it.inst))
}

fn add_error<W: fmt::Write>(f: &mut fmt::Formatter<W>, it: &TaskError) -> fmt::Result {
    let task = it.task;
    match &it.cause {
        Failure::Interrupted => write!(f, "TaskError {task}, interrupted"),
        Failure::Call(n) => write!(f, "TaskError {task}, call {n}"),
        Failure::Gone(n) => write!(f, "TaskError {task}, gone {n}"),
    }
}

fn add_snapshot<W: fmt::Write>(f: &mut fmt::Formatter<W>, it: &Snapshot) -> fmt::Result {
    let (releases, stemcells) = (it.releases.len(), it.stemcells.len());
    let (deployments, rows) = (it.deployments.len(), it.rows.len());
    let (slots, orphans) = (it.compile_rows.len(), it.orphans.len());
    let (keys, tasks, last) = (it.built_keys.len(), it.tasks.len(), it.last_call);
    write!(
        f,
        "Snapshot {releases} {stemcells} {deployments} {rows} {slots} {orphans}"
    )?;
    write!(f, " {keys} {tasks}, call {last}")
}

fn add_effect<W: fmt::Write>(f: &mut fmt::Formatter<W>, it: &Effect) -> fmt::Result {
    write!(
        f,
        "Effect {} in {}, {}",
        it.n,
        Told(&it.dep),
        it.call.method().name()
    )
}

// What is written of tasks and calls.
fn add_task<W: fmt::Write>(f: &mut fmt::Formatter<W>, entry: &Entry) -> fmt::Result {
    match entry {
        Entry::TaskOpen(it) => add_open(f, it),
        Entry::Begin(it) => add_begin(f, it),
        Entry::End(it) => write!(f, "End {}", it.n),
        Entry::UpdBegin(it) => add_update(f, "UpdBegin", it),
        Entry::UpdDone(it) => add_update(f, "UpdDone", it),
        Entry::Gone(it) => add_update(f, "Gone", it),
        Entry::TaskDone(task) => write!(f, "TaskDone {task}"),
        Entry::TaskError(it) => add_error(f, it),
        _ => Ok(()),
    }
}

impl fmt::Display for EntryTold<'_> {
    fn fmt<W: fmt::Write>(&self, f: &mut fmt::Formatter<W>) -> fmt::Result {
        match self.0 {
            Entry::Release(it) => add_release(f, it),
            Entry::Stemcell(it) => write!(f, "Stemcell {} {}", Told(&it.os), Told(&it.version)),
            Entry::Config(it) => write!(f, "Config {}", Told(it)),
            Entry::Snapshot(it) => add_snapshot(f, it),
            Entry::Effect(it) => add_effect(f, it),
            Entry::Write(it) => write!(f, "Write {}, {}", it.disk, Told(&it.text)),
            Entry::Lost(it) => write!(f, "Lost {}, whole {}", it.vm, it.whole),
            entry => add_task(f, entry),
        }
    }
}
