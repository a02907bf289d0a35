ghost use Rattle.std.specs.Prelude.{◌≡◌, fold, is_some};
ghost use Rattle.std.specs.BTreeMap.{IsOrdered};
ghost use Rattle.std.specs.Option.{option_copied};
ghost use Rattle.std.specs.Ordering.{nat_cmp};
ghost use Rattle.bosh_records.specs.Recorded.{recorded};
ghost use Rattle.bosh_fold.specs.Calls.{closed_call};
ghost use Rattle.bosh_fold.specs.Tasks.{change_cleared, closed_task, deleting_cleared, deployment_done, done_in};
ghost use Rattle.bosh_fold.specs.Tasks.{dropped_at, error_in, first_call, forgotten_in, instances_cleared, interrupted_in};
ghost use Rattle.bosh_fold.specs.Tasks.{is_call_of, is_deletion, leaving_cleared, ping_cleared, shared_at, since_of, sweep_cleared, without_call};

use crate::ending::close_call;
use crate::wants::clear_wants;
use bosh_base::{Begin, Entry, Inst, Offer, Seq, TaskEnd, TaskKind};
use bosh_records::{Instances, LooseDisk, Machine, Records, Since, Table};
use bosh_work::{MachineName, Work};

/// A task is done: a deploy offers what its goal does from now on, and a deployment that is deleted is recorded no
/// more.
pub(crate) fn learn_done(records: &mut Records, entry: &Entry, offers: Seq<Offer>)
    ensures { recorded records.new ≡ done_in entry.now offers (recorded records.old) }
{
    if let Entry::TaskDone(task) = entry {
        note_done(records, *task, offers);
        close(records, *task, TaskEnd::Finished);
    }
}

fn note_done(records: &mut Records, task: u64, offers: Seq<Offer>)
    ensures { recorded records.new ≡ deployment_done task offers (recorded records.old) }
{
    let since = since_of(records, task);
    if records.deployed_by(task).is_some() {
        share(records, since, offers);
    } else if is_deletion(records, task) {
        drop_deployment(records, since);
    }
}

fn is_deletion(records: &Records, task: u64) -> bool
    ensures { result ≡ is_deletion (recorded records.now) task }
{
    match records.task(task) {
        Some(row) => matches!(row.kind, TaskKind::DeleteDeployment),
        None => false,
    }
}

fn share(records: &mut Records, since: Option<Since>, offers: Seq<Offer>)
    ensures { recorded records.new ≡ shared_at since offers (recorded records.old) }
{
    if let Some(since) = since {
        records.deployments.set_shared(&since, offers);
    }
}

// Since when the deployment of a task is recorded.
fn since_of(records: &Records, task: u64) -> Option<Since>
    ensures { result ≡ since_of (recorded records.now) task }
{
    records.since(records.dep_of(task)?)
}

fn drop_deployment(records: &mut Records, since: Option<Since>)
    ensures { recorded records.new ≡ dropped_at since (recorded records.old) }
{
    if let Some(since) = since {
        clear_wants(records, since);
        records.deployments.delete(&since);
    }
}

/// A task ends without being done. After a stop none of its calls is open.
pub(crate) fn learn_error(records: &mut Records, entry: &Entry, end: TaskEnd)
    ensures { recorded records.new ≡ error_in entry.now end (recorded records.old) }
{
    if let Entry::TaskError(error) = entry {
        interrupt(records, error.task, &end);
        close(records, error.task, end);
    }
}

fn interrupt(records: &mut Records, task: u64, end: &TaskEnd)
    ensures { recorded records.new ≡ interrupted_in task end.now (recorded records.old) }
{
    if let TaskEnd::Interrupted = end {
        forget_calls_of(records, task);
    }
}

// The calls of a task are open no more, since the director stopped.
fn forget_calls_of(records: &mut Records, task: u64)
    ensures { recorded records.new ≡ forgotten_in task (recorded records.old) }
{
    while let Some(n) = open_call_of(records, task) {
        forget_call(records, n);
    }
}

fn open_call_of(records: &Records, task: u64) -> Option<u64>
    ensures first { result ≡ first_call task records.now.calls.places.entries }
    ensures ordered { IsOrdered nat_cmp records.now.calls.places }
{
    for (n, begin) in records.calls.iter() {
        if is_of(begin.as_ref(), task) {
            return Some(*n);
        }
    }
    None
}

fn forget_call(records: &mut Records, n: u64)
    ensures { recorded records.new ≡ without_call n (recorded records.old) }
{
    if let Some(begin) = records.calls.remove(&n) {
        close_call(records, &begin);
    }
}

fn close(records: &mut Records, task: u64, end: TaskEnd)
    ensures { recorded records.new ≡ closed_task task end (recorded records.old) }
{
    if let Some(work) = records.works.get(&task) {
        clear_instances(work, &mut records.instances);
        clear_machines(&mut records.machines, work.sweep.items.as_slice());
        clear_disks(&mut records.orphans, work.disks.items.as_slice());
    }
    records.tasks.set_end(&task, end);
    records.works.delete(&task);
}

// No instance stands in the task any more.
fn clear_instances(work: &Work, instances: &mut Instances)
    ensures { instances.new.by_inst.entries ≡ instances_cleared work.now instances.old.by_inst.entries }
{
    clear_pings(instances, work.pings.items.as_slice());
    clear_leavings(instances, work.obsolete.items.as_slice());
    clear_changes(instances, work.changed.as_slice());
}

fn clear_pings(instances: &mut Instances, items: &[Inst])
    ensures { instances.new.by_inst.entries ≡ fold ping_cleared instances.old.by_inst.entries items.now }
{
    for inst in items {
        instances.set_ping(inst, None);
    }
}

fn clear_leavings(instances: &mut Instances, items: &[Inst])
    ensures { instances.new.by_inst.entries ≡ fold leaving_cleared instances.old.by_inst.entries items.now }
{
    for inst in items {
        instances.set_leaving(inst, None);
    }
}

fn clear_changes(instances: &mut Instances, items: &[Inst])
    ensures { instances.new.by_inst.entries ≡ fold change_cleared instances.old.by_inst.entries items.now }
{
    for inst in items {
        instances.set_change(inst, None);
    }
}

// Nor does a compile machine.
fn clear_machines(machines: &mut Table<MachineName, Machine>, items: &[MachineName])
    ensures { machines.new.places.entries ≡ fold sweep_cleared machines.old.places.entries items.now }
{
    for name in items {
        machines.set_sweep(name, None);
    }
}

// Nor does a disk.
fn clear_disks(orphans: &mut Table<u64, LooseDisk>, items: &[u64])
    ensures { orphans.new.places.entries ≡ fold deleting_cleared orphans.old.places.entries items.now }
{
    for disk in items {
        orphans.set_deleting(disk, None);
    }
}

fn is_of(begin: Option<&Begin>, task: u64) -> bool
    ensures { result ≡ is_call_of task (option_copied begin.entry) }
{
    match begin {
        Some(begin) => begin.task == task,
        None => false,
    }
}
