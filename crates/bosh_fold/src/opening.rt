ghost use Rattle.std.specs.Prelude.{◌≡◌};
ghost use Rattle.bosh_records.specs.Recorded.{recorded};
ghost use Rattle.bosh_fold.specs.Tasks.{deployment_added, goal_replaced, goal_set, opened_in, parts_set, task_noted};

use crate::marks::{set_changes, set_deletings, set_leavings, set_pings, set_sweeps};
use crate::wants::{clear_wants, note_wants};
use bosh_base::{DepRow, TaskRow};
use bosh_plan::Opened;
use bosh_records::{Records, Since};
use bosh_work::Work;

/// A task opens: its deployment has the goal, and each item of it knows its place in it.
pub(crate) fn learn_opening(records: &mut Records, opened: Opened)
    ensures { recorded records.new ≡ opened_in opened (recorded records.old) }
{
    let Opened {
        row,
        deployment,
        work,
    } = opened;
    set_goal(records, row.task, deployment);
    set_parts(records, &work);
    note_task(records, row, work);
}

fn note_task(records: &mut Records, row: TaskRow, work: Work)
    ensures { recorded records.new ≡ task_noted row work (recorded records.old) }
{
    let task = row.task;
    records.opened = task;
    records.tasks.put(&task, row);
    records.works.put(&task, work);
}

// Puts the goal in the place of the current one, or records the deployment.
fn set_goal(records: &mut Records, task: u64, deployment: Option<DepRow>)
    ensures { recorded records.new ≡ goal_set task deployment (recorded records.old) }
{
    let Some(row) = deployment else {
        return;
    };
    match records.since(&row.dep) {
        Some(since) => replace_goal(records, since, row),
        None => add_deployment(records, task, row),
    }
}

fn add_deployment(records: &mut Records, task: u64, row: DepRow)
    ensures { recorded records.new ≡ deployment_added task row (recorded records.old) }
{
    note_wants(&mut records.instances, &row.goal);
    records.deployments.put(&Since::Task(task), row);
}

fn replace_goal(records: &mut Records, since: Since, row: DepRow)
    ensures { recorded records.new ≡ goal_replaced since row.goal (recorded records.old) }
{
    let DepRow {
        dep: _,
        goal,
        shared: _,
    } = row;
    clear_wants(records, since);
    note_wants(&mut records.instances, &goal);
    records.deployments.set_goal(&since, goal);
}

// Notes where each instance, machine and disk stands in a task.
fn set_parts(records: &mut Records, work: &Work)
    ensures { recorded records.new ≡ parts_set work.now (recorded records.old) }
{
    set_pings(&mut records.instances, work.pings.items.as_slice());
    set_leavings(&mut records.instances, work.obsolete.items.as_slice());
    set_changes(
        &mut records.instances,
        work.changed.as_slice(),
        work.groups.as_slice(),
    );
    set_sweeps(&mut records.machines, work.sweep.items.as_slice());
    set_deletings(&mut records.orphans, work.disks.items.as_slice());
}
