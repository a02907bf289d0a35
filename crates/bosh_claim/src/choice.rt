ghost use Rattle.std.specs.Prelude.{◌≡◌, Err, IfErr, IfOk, OnOk};
ghost use Rattle.bosh_claim.specs.Choice.{begun_by, choice_of, item_of, or_waits};
ghost use Rattle.bosh_claim.specs.Noted.{beginning};

use crate::ClaimFault;
use crate::compile::slot_call;
use crate::instance::{gone, ping};
use crate::phase::{Phase, present};
use crate::sweep::{disk_call, sweep_call};
use crate::update::updated;
use bosh_base::{Begin, Call, Entry, Owner};
use bosh_records::Records;
use bosh_work::Work;
use std::alloc::Global;

/// What comes next in a task.
#[derive(Drop)]
pub enum Choice {
    /// This entry is noted: the beginning of a call, or of an update, or the end of one.
    Noted(Entry),
    /// Nothing can be done now, but what others do may change that.
    Waits,
    /// Nothing is left to do.
    Over,
}

/// What a worker of a task does next: the first of the rules that gives an answer decides. An ended task is over; one
/// with a failed call is over once it has no open call; and else the items of the present phase are tried in order.
pub fn choose(alloc: Global, records: &Records, task: u64, worker: u8) -> Result<Choice, ClaimFault>
    ensures { IfOk result (λ choice. choice ≡ choice_of records.now task worker) }
{
    let Some(work) = records.work(task) else {
        return Ok(Choice::Over);
    };
    if work.failed.is_some() {
        return Ok(if work.open == 0 {
            Choice::Over
        } else {
            Choice::Waits
        });
    }
    match present(records, work) {
        Some(phase) => or_waits(item(alloc, records, work, worker, phase)),
        None => Ok(Choice::Over),
    }
}

fn or_waits(entry: Result<Option<Entry>, ClaimFault>) -> Result<Choice, ClaimFault>
    ensures ok { IfOk result (λ choice. IfOk entry (λ it. choice ≡ or_waits it)) }
    ensures err { IfErr entry (λ fault. result ≡ Err fault) }
{
    match entry {
        Ok(Some(entry)) => Ok(Choice::Noted(entry)),
        Ok(None) => Ok(Choice::Waits),
        Err(fault) => Err(fault),
    }
}

// What is noted of the first item of a phase that is not passed over.
fn item(
    alloc: Global,
    records: &Records,
    work: &Work,
    worker: u8,
    phase: Phase,
) -> Result<Option<Entry>, ClaimFault>
    ensures { IfOk result (λ entry. entry ≡ item_of records.now work.now worker phase) }
{
    match phase {
        Phase::Ask => ping(alloc, records, work, worker),
        Phase::DeleteDisks => begin(records, work, worker, disk_call(records, work)),
        Phase::Sweep => begin(records, work, worker, sweep_call(records, work)),
        Phase::Compile => {
            let call = slot_call(alloc, records, work)?;
            begin(records, work, worker, call)
        }
        Phase::Leave => gone(alloc, records, work, worker),
        Phase::Update(stage) => updated(alloc, records, work, worker, stage),
    }
}

/// The beginning of a call of an owner, where there is one to make.
pub(crate) fn begin(
    records: &Records,
    work: &Work,
    worker: u8,
    call: Option<(Owner, Call)>,
) -> Result<Option<Entry>, ClaimFault>
    ensures { IfOk result (λ entry. entry ≡ begun_by records.now work.now worker call) }
{
    let Some((owner, call)) = call else {
        return Ok(None);
    };
    Ok(Some(beginning(records, work, worker, owner, call)))
}

/// A call of an owner begins.
pub(crate) fn beginning(
    records: &Records,
    work: &Work,
    worker: u8,
    owner: Owner,
    call: Call,
) -> Entry
    ensures { result ≡ beginning records.now work.now worker owner call }
{
    Entry::Begin(Begin {
        n: records.last_call().saturating_add(1),
        task: work.task,
        worker,
        owner,
        call,
    })
}
