ghost use Rattle.std.specs.Prelude.{◌≡◌, false, IfOk, Some, is_none};
ghost use Rattle.std.specs.Option.{option_copied, option_map_or};
ghost use Rattle.bosh_claim.specs.Ending.{dep_of, ends_task, fails_task, has_failed, has_machine, is_gone, is_of, is_open};
ghost use Rattle.bosh_claim.specs.Step.{step_of};
ghost use Rattle.bosh_claim.specs.Updating.{ends_update, is_in_turn, is_leave, is_left, leaves};

use crate::ClaimFault;
use crate::beginning::is_leaving;
use crate::instance::step;
use crate::phase::{Phase, present};
use crate::updating::of_present;
use bosh_base::{Failure, GoalRow, Inst, Name, TaskEnd, TaskError, Update};
use bosh_records::{Machine, Records};
use bosh_work::{GroupWork, Work, number};
use std::alloc::Global;

/// Whether the update of an instance is done: it is left, nobody works on it, it has no next call, and it is a canary or
/// every canary is done.
pub(crate) fn ends_update(
    alloc: Global,
    records: &Records,
    update: &Update,
) -> Result<bool, ClaimFault>
    ensures { IfOk result (λ yes. yes ≡ ends_update records.now update.now) }
{
    let Some(work) = records.work(update.task) else {
        return Ok(false);
    };
    let Some((group, place)) = of_present(records, work, &update.inst) else {
        return Ok(false);
    };
    if !is_left(group, place) || !is_in_turn(group, place) {
        return Ok(false);
    }
    let want: Option<&GoalRow> = records.want_of(&update.inst);
    has_no_step(alloc, records, want, &update.inst)
}

fn is_left(group: &GroupWork, place: usize) -> bool
    ensures { result ≡ is_left group.now.roll place }
{
    group.roll.is_waiting(place) || group.roll.idle.is_marked(place)
}

fn is_in_turn(group: &GroupWork, place: usize) -> bool
    ensures { result ≡ is_in_turn group.now.roll place }
{
    place < group.roll.canaries || group.roll.are_canaries_done()
}

fn has_no_step(
    alloc: Global,
    records: &Records,
    want: Option<&GoalRow>,
    inst: &Inst,
) -> Result<bool, ClaimFault>
    ensures { IfOk result (λ yes. yes ≡ is_none (step_of records.now (option_copied want.entry) inst.now)) }
{
    let call = step(alloc, records, want, inst)?;
    Ok(call.is_none())
}

/// Whether an obsolete instance has nothing left.
pub(crate) fn leaves(alloc: Global, records: &Records, update: &Update) -> Result<bool, ClaimFault>
    ensures { IfOk result (λ yes. yes ≡ leaves records.now update.now) }
{
    let Some(work) = records.work(update.task) else {
        return Ok(false);
    };
    if !is_leave(present(records, work)) || !is_leaving(records, work, &update.inst) {
        return Ok(false);
    }
    has_no_step(alloc, records, None, &update.inst)
}

fn is_leave(phase: Option<Phase>) -> bool
    ensures { result ≡ is_leave phase }
{
    matches!(phase, Some(Phase::Leave))
}

/// Whether a task is done: none of its calls failed or is open, nothing is left in any phase, each key of its goal is
/// compiled, and no compile machine of its deployment is recorded.
pub(crate) fn ends_task(records: &Records, task: u64) -> bool
    ensures { result ≡ ends_task records.now task }
{
    match records.work(task) {
        Some(work) => {
            work.failed.is_none()
                && work.open == 0
                && present(records, work).is_none()
                && work.keys.queue.is_over()
                && !has_machine(records, dep_of(records, task))
        }
        None => false,
    }
}

fn dep_of(records: &Records, task: u64) -> Option<&Name>
    ensures { option_copied result ≡ dep_of records.now task }
{
    records.task(task)?.dep.as_ref()
}

fn has_machine(records: &Records, dep: Option<&Name>) -> bool
    ensures { result ≡ has_machine records.now (option_copied dep.entry) }
{
    match dep {
        Some(dep) => has_machine_of(records, dep),
        None => false,
    }
}

fn has_machine_of(records: &Records, dep: &Name) -> bool
    ensures { result ≡ has_machine records.now (Some dep.now) }
{
    for (_, machine) in records.machines() {
        if is_of(machine.as_ref(), dep) {
            return true;
        }
    }
    false
}

fn is_of(machine: Option<&Machine>, dep: &Name) -> bool
    ensures { result ≡ option_map_or (is_of dep.now) (option_copied machine.entry) false }
{
    match machine {
        Some(machine) => machine.row.dep == *dep,
        None => false,
    }
}

/// Whether a task ends by its least failed call, once none of its calls is open, or because the director stopped.
pub(crate) fn fails_task(records: &Records, error: &TaskError) -> bool
    ensures { result ≡ fails_task records.now error.now }
{
    match error.cause {
        Failure::Interrupted => is_open(records, error.task),
        Failure::Call(n) => has_failed(records.work(error.task), n, false),
        Failure::Gone(n) => has_failed(records.work(error.task), n, true),
    }
}

fn is_open(records: &Records, task: u64) -> bool
    ensures { result ≡ is_open records.now task }
{
    match records.task(task) {
        Some(row) => row.end.is_none(),
        None => false,
    }
}

fn has_failed(work: Option<&Work>, n: u64, gone: bool) -> bool
    ensures { result ≡ has_failed (option_copied work.entry) n gone }
{
    let Some(work) = work else {
        return false;
    };
    match &work.failed {
        Some(end) => work.open == 0 && number(end) == n && is_gone(end) == gone,
        None => false,
    }
}

fn is_gone(end: &TaskEnd) -> bool
    ensures { result ≡ is_gone end.now }
{
    matches!(end, TaskEnd::Gone { .. })
}
