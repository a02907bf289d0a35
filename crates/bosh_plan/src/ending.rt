ghost use Rattle.std.specs.Prelude.{◌≡◌, IfOk};
ghost use Rattle.std.specs.Option.{option_map};
ghost use Rattle.bosh_rows.specs.After.{after};
ghost use Rattle.bosh_records.specs.Readers.{row_at};
ghost use Rattle.bosh_plan.specs.Ended.{after_of, built_by, disk_told, ended_of, failure, fails_gone, fault_of};
ghost use Rattle.bosh_plan.specs.Ended.{found, gone_of, is_lost, is_told, machine_told};
ghost use Rattle.bosh_plan.specs.declared.ending.After.TheVariants as afters;

use crate::fault::recorded;
use bosh_base::{Answer, Begin, Call, Copyable, Digest, End, Inst, Owner, Row, TaskEnd, Vm};
use bosh_drops::beside;
use bosh_records::{Records, RecordsFault};
use bosh_rows::after;
use std::alloc::Global;

/// What an answer tells of a compile machine or of an orphaned disk.
#[derive(Clone, Copy)]
pub enum Told {
    Nothing,
    /// It is there, and there is no doubt any more: where a machine was asked for, with its number.
    There(Option<Vm>),
    /// It is not there.
    Absent,
}

/// What is recorded of the owner of a call that ends.
#[derive(Drop)]
pub enum After {
    Instance(Row),
    Other(Told),
}

/// What the end of a call changes. It is nothing where no such call is open.
#[derive(Drop)]
pub struct Ended {
    pub n: u64,
    pub after: Option<After>,
    /// How the call failed.
    pub failed: Option<TaskEnd>,
    pub built: Option<Digest>,
    pub is_asked: bool,
}

/// What the end of a call changes.
pub fn plan_end(records: &Records, end: &End) -> Result<Ended, RecordsFault>
    ensures { IfOk result (λ ended. ended ≡ ended_of records.now end.now) }
{
    let failed = failure(records, end)?;
    let after = after_answer(records, end)?;
    Ok(Ended {
        n: end.n,
        after,
        failed,
        built: built_by(&end.answer),
        is_asked: is_told(&end.answer),
    })
}

fn after_answer(records: &Records, end: &End) -> Result<Option<After>, RecordsFault>
    ensures { IfOk result (λ after. after ≡ after_of records.now end.now) }
{
    let Some(begin) = records.call(end.n) else {
        return Ok(None);
    };
    match &begin.owner {
        Owner::Instance(inst) => row_after(records, inst, begin, &end.answer),
        Owner::Compile(..) => Ok(Some(After::Other(machine_told(
            begin.n,
            &begin.call,
            &end.answer,
        )))),
        Owner::Disk(_) => Ok(Some(After::Other(disk_told(&begin.call, &end.answer)))),
    }
}

fn row_after(
    records: &Records,
    inst: &Inst,
    begin: &Begin,
    answer: &Answer,
) -> Result<Option<After>, RecordsFault>
    ensures { IfOk result (λ told. told
        ≡ option_map (λ row. afters.Instance (after begin.now.n begin.now.call answer.now row))
        (row_at records.now inst.now)) }
{
    let Some(row) = records.row(inst) else {
        return Ok(None);
    };
    let mut row = row.copy(records.alloc)?;
    let told = after(records.alloc, &mut row, begin.n, &begin.call, answer);
    let (row, ()) = beside(row, recorded(told))?;
    Ok(Some(After::Instance(row)))
}

// A call fails where it is answered so, and where what it names is gone: but for a ping, and for the deletion of a
// machine that is known to be lost.
fn failure(records: &Records, end: &End) -> Result<Option<TaskEnd>, RecordsFault>
    ensures { IfOk result (λ failed. failed ≡ failure records.now end.now) }
{
    let Some(begin) = records.call(end.n) else {
        return Ok(None);
    };
    match end.answer {
        Answer::Failed => Ok(Some(fault_of(records.alloc, begin)?)),
        Answer::Gone if fails_gone(records, begin) => Ok(Some(gone_of(records.alloc, begin)?)),
        _ => Ok(None),
    }
}

fn fails_gone(records: &Records, begin: &Begin) -> bool
    ensures { result ≡ fails_gone records.now begin.now }
{
    match &begin.call {
        Call::Ping { .. } => false,
        Call::DeleteVm { .. } => !is_lost(records, &begin.owner),
        _ => true,
    }
}

fn is_lost(records: &Records, owner: &Owner) -> bool
    ensures { result ≡ is_lost records.now owner.now }
{
    let Owner::Instance(inst) = owner else {
        return false;
    };
    match records.row(inst) {
        Some(row) => row.lost,
        None => false,
    }
}

fn is_told(answer: &Answer) -> bool
    ensures { result ≡ is_told answer.now }
{
    !matches!(answer, Answer::Failed)
}

fn built_by(answer: &Answer) -> Option<Digest>
    ensures { result ≡ built_by answer.now }
{
    match answer {
        Answer::Built(digest) => Some(*digest),
        _ => None,
    }
}

fn fault_of(alloc: Global, begin: &Begin) -> Result<TaskEnd, RecordsFault>
    ensures { IfOk result (λ end. end ≡ fault_of begin.now) }
{
    let owner = begin.owner.copy(alloc)?;
    Ok(TaskEnd::Fault {
        n: begin.n,
        method: begin.call.method(),
        owner,
    })
}

fn gone_of(alloc: Global, begin: &Begin) -> Result<TaskEnd, RecordsFault>
    ensures { IfOk result (λ end. end ≡ gone_of begin.now) }
{
    let owner = begin.owner.copy(alloc)?;
    Ok(TaskEnd::Gone {
        n: begin.n,
        method: begin.call.method(),
        owner,
    })
}

/// What an answer tells of a compile machine.
fn machine_told(n: u64, call: &Call, answer: &Answer) -> Told
    ensures { result ≡ machine_told n call.now answer.now }
{
    match (call, answer) {
        (Call::CreateVm { .. }, Answer::Cid(vm)) => Told::There(Some(Vm { vm: *vm, agent: n })),
        (Call::FindVm { agent }, Answer::Found(vm)) => found(*agent, *vm),
        (Call::DeleteVm { .. }, Answer::Done) | (Call::HasVm { .. }, Answer::No) => Told::Absent,
        (Call::DeleteVm { .. }, Answer::Gone) | (Call::HasVm { .. }, Answer::Yes) => Told::There(
            None,
        ),
        _ => Told::Nothing,
    }
}

fn found(agent: u64, vm: Option<u64>) -> Told
    ensures { result ≡ found agent vm }
{
    match vm {
        Some(vm) => Told::There(Some(Vm { vm, agent })),
        None => Told::Absent,
    }
}

/// What an answer tells of an orphaned disk.
fn disk_told(call: &Call, answer: &Answer) -> Told
    ensures { result ≡ disk_told call.now answer.now }
{
    match (call, answer) {
        (Call::DeleteDisk { .. }, Answer::Done) | (Call::HasDisk { .. }, Answer::No) =>
            Told::Absent,
        (Call::DeleteDisk { .. }, Answer::Gone) | (Call::HasDisk { .. }, Answer::Yes) =>
            Told::There(None),
        _ => Told::Nothing,
    }
}
