ghost use Rattle.std.specs.Prelude.{◌≡◌, IfOk, None};
ghost use Rattle.std.specs.Option.{option_copied};
ghost use Rattle.bosh_base.specs.declared.owner.Owner.TheVariants as owners;
ghost use Rattle.bosh_records.specs.Readers.{want_of};
ghost use Rattle.bosh_claim.specs.Noted.{beginning, first_of, leaving, leaving_entry, ping, update_of, vm_of};
ghost use Rattle.bosh_claim.specs.Step.{step_of, step_on};

use crate::ClaimFault;
use crate::choice::{begin, beginning};
use bosh_base::{Call, Copyable, Entry, GoalRow, Inst, Owner, Row, Update};
use bosh_drops::beside;
use bosh_records::Records;
use bosh_rows::{bare, call_of, has_its_machine, next};
use bosh_work::Work;
use std::alloc::Global;

/// The first machine of those that are asked whether they answer.
pub(crate) fn ping(
    alloc: Global,
    records: &Records,
    work: &Work,
    worker: u8,
) -> Result<Option<Entry>, ClaimFault>
    ensures { IfOk result (λ entry. entry ≡ ping records.now work.now worker) }
{
    let Some(inst) = first_asked(work) else {
        return Ok(None);
    };
    let Some(vm) = vm_of(records, inst) else {
        return Ok(None);
    };
    let owner = Owner::Instance(inst.copy(alloc)?);
    begin(records, work, worker, Some((owner, Call::Ping { vm })))
}

fn first_asked(work: &Work) -> Option<&Inst>
    ensures { option_copied result ≡ first_of work.now.pings }
{
    work.pings.items.get(work.pings.queue.first()?)
}

fn vm_of(records: &Records, inst: &Inst) -> Option<u64>
    ensures { result ≡ vm_of records.now inst.now }
{
    Some(records.row(inst)?.vm?.vm)
}

/// The next call of the first obsolete instance, or that it has nothing left.
pub(crate) fn gone(
    alloc: Global,
    records: &Records,
    work: &Work,
    worker: u8,
) -> Result<Option<Entry>, ClaimFault>
    ensures { IfOk result (λ entry. entry ≡ leaving_entry records.now work.now worker) }
{
    let Some(inst) = first_obsolete(work) else {
        return Ok(None);
    };
    Ok(Some(leaving(alloc, records, work, worker, inst)?))
}

// The next call of an obsolete instance, or that it has nothing left.
fn leaving(
    alloc: Global,
    records: &Records,
    work: &Work,
    worker: u8,
    inst: &Inst,
) -> Result<Entry, ClaimFault>
    ensures { IfOk result (λ entry. entry
        ≡ leaving records.now work.now worker inst.now (step_of records.now None inst.now)) }
{
    match step(alloc, records, None, inst)? {
        Some(call) => begun(alloc, records, work, worker, inst, call),
        None => Ok(Entry::Gone(update(alloc, work, inst)?)),
    }
}

/// The beginning of a call of an instance.
pub(crate) fn begun(
    alloc: Global,
    records: &Records,
    work: &Work,
    worker: u8,
    inst: &Inst,
    call: Call,
) -> Result<Entry, ClaimFault>
    ensures { IfOk result (λ entry. entry
        ≡ beginning records.now work.now worker (owners.Instance inst.now) call) }
{
    let (call, inst) = beside(call, inst.copy(alloc))?;
    Ok(beginning(records, work, worker, Owner::Instance(inst), call))
}

fn first_obsolete(work: &Work) -> Option<&Inst>
    ensures { option_copied result ≡ first_of work.now.obsolete }
{
    work.obsolete.items.get(work.obsolete.queue.first()?)
}

/// A task and one of its instances.
pub(crate) fn update(alloc: Global, work: &Work, inst: &Inst) -> Result<Update, ClaimFault>
    ensures { IfOk result (λ update. update ≡ update_of work.now inst.now) }
{
    Ok(Update {
        task: work.task,
        inst: inst.copy(alloc)?,
    })
}

/// The next call of an instance, by how it is wanted.
pub(crate) fn step(
    alloc: Global,
    records: &Records,
    want: Option<&GoalRow>,
    inst: &Inst,
) -> Result<Option<Call>, ClaimFault>
    ensures { IfOk result (λ call. call ≡ step_of records.now (option_copied want.entry) inst.now) }
{
    match records.row(inst) {
        Some(row) => step_of(alloc, want, row),
        None => {
            let row = bare(alloc, inst.copy(alloc)?);
            step_of(alloc, want, &row)
        }
    }
}

/// The next call of an instance, as the current goal of its deployment wants it.
pub(crate) fn wanted_step(
    alloc: Global,
    records: &Records,
    inst: &Inst,
) -> Result<Option<Call>, ClaimFault>
    ensures { IfOk result (λ call. call ≡ step_of records.now (want_of records.now inst.now) inst.now) }
{
    step(alloc, records, records.want_of(inst), inst)
}

// A row whose machine is not recorded, though its doubt names one or it is lost, has no next call.
fn step_of(alloc: Global, want: Option<&GoalRow>, row: &Row) -> Result<Option<Call>, ClaimFault>
    ensures { IfOk result (λ call. call ≡ step_on (option_copied want.entry) row.now) }
{
    if !has_its_machine(row) {
        return Ok(None);
    }
    match next(want, row) {
        Some(step) => Ok(Some(call_of(alloc, step, want, row)?)),
        None => Ok(None),
    }
}
