ghost use Rattle.std.specs.Prelude.{◌≡◌, IfOk};
ghost use Rattle.std.specs.Option.{option_copied};
ghost use Rattle.bosh_claim.specs.Beginning.{begins, call_for, deletion_of, is_call, is_idle, is_leaving};
ghost use Rattle.bosh_claim.specs.Beginning.{leaving_call, ping_of, sweep_for, update_call};

use crate::ClaimFault;
use crate::compile::call_of_slot;
use crate::instance::{step, wanted_step};
use crate::number::is_next;
use crate::phase::{Phase, present};
use crate::sweep::{deletion, sweep_by};
use bosh_base::{Begin, Call, Inst, Owner};
use bosh_records::Records;
use bosh_work::{MachineName, Work};
use std::alloc::Global;

/// Whether a call may begin: it has the next number, and it is the one that is to be made for an owner on which nobody
/// works, and for which something is left to do in the present phase of a task that is open and has no failed call.
pub(crate) fn begins(alloc: Global, records: &Records, begin: &Begin) -> Result<bool, ClaimFault>
    ensures { IfOk result (λ yes. yes ≡ begins records.now begin.now) }
{
    let Some(work) = records.work(begin.task) else {
        return Ok(false);
    };
    if work.failed.is_some() || !is_next(begin.n, records.last_call()) {
        return Ok(false);
    }
    let Some(phase) = present(records, work) else {
        return Ok(false);
    };
    let call = call_for(alloc, records, work, phase, &begin.owner)?;
    Ok(is_call(call.as_ref(), &begin.call))
}

fn is_call(expected: Option<&Call>, call: &Call) -> bool
    ensures { result ≡ is_call (option_copied expected.entry) call.now }
{
    match expected {
        Some(expected) => expected == call,
        None => false,
    }
}

// The call that is to be made for an owner in a phase.
fn call_for(
    alloc: Global,
    records: &Records,
    work: &Work,
    phase: Phase,
    owner: &Owner,
) -> Result<Option<Call>, ClaimFault>
    ensures { IfOk result (λ call. call ≡ call_for records.now work.now phase owner.now) }
{
    match (phase, owner) {
        (Phase::Ask, Owner::Instance(inst)) => Ok(ping_of(records, work, inst)),
        (Phase::DeleteDisks, Owner::Disk(disk)) => Ok(deletion_of(records, work, *disk)),
        (Phase::Sweep, Owner::Compile(task, slot)) => Ok(sweep_of(records, work, *task, *slot)),
        (Phase::Compile, Owner::Compile(task, slot)) if *task == work.task => {
            call_of_slot(alloc, records, work, *slot)
        }
        (Phase::Leave, Owner::Instance(inst)) => leaving_call(alloc, records, work, inst),
        (Phase::Update(stage), Owner::Instance(inst)) => update_call(
            alloc, records, work, stage, inst,
        ),
        _ => Ok(None),
    }
}

fn ping_of(records: &Records, work: &Work, inst: &Inst) -> Option<Call>
    ensures { result ≡ ping_of records.now work.now inst.now }
{
    let instance = records.instance(inst)?;
    if !work.pings.queue.free.is_marked(instance.part.ping?) {
        return None;
    }
    let vm = instance.row.as_ref()?.vm?.vm;
    Some(Call::Ping { vm })
}

fn deletion_of(records: &Records, work: &Work, disk: u64) -> Option<Call>
    ensures { result ≡ deletion_of records.now work.now disk }
{
    let loose = records.orphan(disk)?;
    if !work.disks.queue.free.is_marked(loose.deleting?) {
        return None;
    }
    Some(deletion(loose))
}

fn sweep_of(records: &Records, work: &Work, task: u64, slot: u32) -> Option<Call>
    ensures { result ≡ sweep_for records.now work.now task slot }
{
    let machine = records.machine(MachineName { task, slot })?;
    if !work.sweep.queue.free.is_marked(machine.sweep?) {
        return None;
    }
    sweep_by(machine.row.vm, machine.row.doubt.as_ref())
}

fn leaving_call(
    alloc: Global,
    records: &Records,
    work: &Work,
    inst: &Inst,
) -> Result<Option<Call>, ClaimFault>
    ensures { IfOk result (λ call. call ≡ leaving_call records.now work.now inst.now) }
{
    if !is_leaving(records, work, inst) {
        return Ok(None);
    }
    step(alloc, records, None, inst)
}

/// Whether an obsolete instance has not left yet, and nobody works on it.
pub(crate) fn is_leaving(records: &Records, work: &Work, inst: &Inst) -> bool
    ensures { result ≡ is_leaving records.now work.now inst.now }
{
    match records.instance(inst) {
        Some(instance) => match instance.part.leaving {
            Some(place) => work.obsolete.queue.free.is_marked(place),
            None => false,
        },
        None => false,
    }
}

fn update_call(
    alloc: Global,
    records: &Records,
    work: &Work,
    stage: u32,
    inst: &Inst,
) -> Result<Option<Call>, ClaimFault>
    ensures { IfOk result (λ call. call ≡ update_call records.now work.now stage inst.now) }
{
    if !is_idle(records, work, stage, inst) {
        return Ok(None);
    }
    wanted_step(alloc, records, inst)
}

// The update of a changed instance of the stage has begun, and nobody works on it.
fn is_idle(records: &Records, work: &Work, stage: u32, inst: &Inst) -> bool
    ensures { result ≡ is_idle records.now work.now stage inst.now }
{
    let Some(instance) = records.instance(inst) else {
        return false;
    };
    let Some(change) = instance.part.change else {
        return false;
    };
    match work.groups.get(change.group) {
        Some(group) => group.stage == stage && group.roll.idle.is_marked(change.place),
        None => false,
    }
}
