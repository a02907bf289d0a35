ghost use Rattle.std.specs.Prelude.{◌≡◌, IfOk, OnOk};
ghost use Rattle.std.specs.Option.{option_copied};
ghost use Rattle.bosh_base.specs.declared.call.Call.TheVariants as calls;
ghost use Rattle.bosh_records.specs.NextKey.{next_key};
ghost use Rattle.bosh_claim.specs.Slot.{call_of_slot, creation, digests_of, key_at, make_for, own_call, slot_at, slot_call};

use crate::ClaimFault;
use bosh_base::{Call, Copyable, Digest, KeyWork, Make, Owner, Seq};
use bosh_records::{Machine, Records};
use bosh_work::{MachineName, Work};
use std::alloc::Global;

/// The call for the first slot of a task that is not passed over.
pub(crate) fn slot_call(
    alloc: Global,
    records: &Records,
    work: &Work,
) -> Result<Option<(Owner, Call)>, ClaimFault>
    ensures { IfOk result (λ call. call ≡ slot_call records.now work.now) }
{
    first_slot_call(alloc, records, work, records.next_key(work))
}

// The same, with the next key, which is looked for once for all slots.
#[tactic(auto, using(crate::proofs::SlotLemmas::below_more, crate::proofs::SlotLemmas::below_found))]
fn first_slot_call(
    alloc: Global,
    records: &Records,
    work: &Work,
    next: Option<usize>,
) -> Result<Option<(Owner, Call)>, ClaimFault>
    requires next { next ≡ next_key records.now work.now }
    ensures { IfOk result (λ call. call ≡ slot_call records.now work.now) }
{
    for slot in 0..work.slots {
        let call = call_by(alloc, records, work, slot, next)?;
        if let Some(call) = call {
            return Ok(Some((Owner::Compile(work.task, slot), call)));
        }
    }
    Ok(None)
}

/// The call of a slot, where it is not passed over.
pub(crate) fn call_of_slot(
    alloc: Global,
    records: &Records,
    work: &Work,
    slot: u32,
) -> Result<Option<Call>, ClaimFault>
    ensures { IfOk result (λ call. call ≡ call_of_slot records.now work.now slot) }
{
    call_by(alloc, records, work, slot, records.next_key(work))
}

// The same, with the next key.
fn call_by(
    alloc: Global,
    records: &Records,
    work: &Work,
    slot: u32,
    next: Option<usize>,
) -> Result<Option<Call>, ClaimFault>
    requires next { next ≡ next_key records.now work.now }
    ensures { IfOk result (λ call. call ≡ call_of_slot records.now work.now slot) }
{
    let name = MachineName {
        task: work.task,
        slot,
    };
    match records.machine(name) {
        Some(machine) => own_call(alloc, records, work, machine),
        None => creation(alloc, records, work, slot, next),
    }
}

// A machine is deleted once its key is compiled, waits while another call compiles the key, and else compiles it. One
// with an open call or in doubt is passed over.
pub(crate) fn own_call(
    alloc: Global,
    records: &Records,
    work: &Work,
    machine: &Machine,
) -> Result<Option<Call>, ClaimFault>
    ensures { IfOk result (λ call. call ≡ own_call records.now work.now machine.now) }
{
    let (None, None, Some(it)) = (machine.call, &machine.row.doubt, machine.row.vm) else {
        return Ok(None);
    };
    let Some(key) = machine.key.and_then(|place| work_at(records, work, place)) else {
        return Ok(None);
    };
    if records.digest_of(&key.key).is_some() {
        return Ok(Some(Call::DeleteVm { vm: it.vm }));
    }
    if records.is_compiling(&key.key) {
        return Ok(None);
    }
    Ok(Some(compiling(alloc, records, it.vm, key)?))
}

/// What a task compiles, by its place among the keys of the goal.
pub(crate) fn work_at<'a>(records: &'a Records, work: &Work, place: usize) -> Option<&'a KeyWork>
    ensures { option_copied result ≡ key_at records.now work.now place }
{
    records.goal_for(work.task)?.keys.get(place)
}

/// The make of a slot of a task.
pub(crate) fn slot_at<'a>(records: &'a Records, work: &Work, slot: u32) -> Option<&'a Make>
    ensures { option_copied result ≡ slot_at records.now work.now slot }
{
    records.goal_for(work.task)?.slots.get(slot as usize)
}

fn compiling(alloc: Global, records: &Records, vm: u64, key: &KeyWork) -> Result<Call, ClaimFault>
    ensures { IfOk result (λ call. call ≡ calls.CompilePackage vm key.now (digests_of records.now key.now.deps)) }
{
    let deps = digests(alloc, records, key)?;
    let work = key.copy(alloc)?;
    Ok(Call::CompilePackage { vm, work, deps })
}

// The digests of what the work needs.
fn digests(alloc: Global, records: &Records, key: &KeyWork) -> Result<Seq<Digest>, ClaimFault>
    ensures { IfOk result (λ digests. digests ≡ digests_of records.now key.now.deps) }
{
    let mut found = Vec::new(alloc);
    for dep in key.deps.iter() {
        if let Some(digest) = records.digest_of(dep) {
            found.push(digest)?;
        }
    }
    Ok(Seq::from(found))
}

// An idle slot makes a machine for the first key that it may take.
pub(crate) fn creation(
    alloc: Global,
    records: &Records,
    work: &Work,
    slot: u32,
    next: Option<usize>,
) -> Result<Option<Call>, ClaimFault>
    requires next { next ≡ next_key records.now work.now }
    ensures { IfOk result (λ call. call ≡ creation records.now work.now slot) }
{
    let Some(key) = next.and_then(|place| work_at(records, work, place)) else {
        return Ok(None);
    };
    let Some(make) = slot_at(records, work, slot) else {
        return Ok(None);
    };
    let make = compile_make(alloc, key, make)?;
    Ok(Some(Call::CreateVm {
        make,
        disks: Seq::new(alloc),
    }))
}

// The make of the slot, with the operating system and the version of the key.
fn compile_make(alloc: Global, key: &KeyWork, make: &Make) -> Result<Make, ClaimFault>
    ensures { IfOk result (λ made. made ≡ make_for key.now make.now) }
{
    let mut made = make.copy(alloc)?;
    set_stemcell(alloc, &mut made, key)?;
    Ok(made)
}

fn set_stemcell(alloc: Global, make: &mut Make, key: &KeyWork) -> Result<(), ClaimFault>
    ensures { OnOk result (make.new ≡ make_for key.now make.old) }
{
    make.os = key.key.os.copy(alloc)?;
    make.version = key.key.version.copy(alloc)?;
    Ok(())
}
