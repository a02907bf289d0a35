ghost use Rattle.std.specs.Prelude.{◌≡◌, IfOk, option_map};
ghost use Rattle.bosh_claim.specs.Updated.{claimable, earlier, first_changed, first_place, first_word, is_waiting};
ghost use Rattle.bosh_claim.specs.Updated.{noted_of, update_entry, with_claimable};

use crate::ClaimFault;
use crate::instance::{begun, update, wanted_step};
use bosh_base::{Entry, Inst};
use bosh_drops::is_some;
use bosh_records::Records;
use bosh_work::{GroupPlace, GroupWork, Work};
use std::alloc::Global;

/// The next call of the first changed instance of a stage that may be worked on now; or that its update begins, or that
/// it is done.
pub(crate) fn updated(
    alloc: Global,
    records: &Records,
    work: &Work,
    worker: u8,
    stage: u32,
) -> Result<Option<Entry>, ClaimFault>
    ensures { IfOk result (λ entry. entry ≡ update_entry records.now work.now worker stage) }
{
    let Some((change, inst)) = first(work, stage) else {
        return Ok(None);
    };
    Ok(Some(noted(alloc, records, work, worker, change, inst)?))
}

// What is noted of an instance whose turn it is.
fn noted(
    alloc: Global,
    records: &Records,
    work: &Work,
    worker: u8,
    change: GroupPlace,
    inst: &Inst,
) -> Result<Entry, ClaimFault>
    ensures { IfOk result (λ entry. entry ≡ noted_of records.now work.now worker (change, inst.now)) }
{
    let call = wanted_step(alloc, records, inst)?;
    if is_waiting(work, change) {
        return first_word(alloc, work, inst, is_some(call));
    }
    match call {
        Some(call) => begun(alloc, records, work, worker, inst, call),
        None => Ok(Entry::UpdDone(update(alloc, work, inst)?)),
    }
}

// The update begins where there is a call to make, and else it is done at once.
fn first_word(alloc: Global, work: &Work, inst: &Inst, has_call: bool) -> Result<Entry, ClaimFault>
    ensures { IfOk result (λ entry. entry ≡ first_word work.now inst.now has_call) }
{
    let update = update(alloc, work, inst)?;
    if has_call {
        Ok(Entry::UpdBegin(update))
    } else {
        Ok(Entry::UpdDone(update))
    }
}

fn is_waiting(work: &Work, change: GroupPlace) -> bool
    ensures { result ≡ is_waiting work.now change }
{
    match work.roll(Some(change)) {
        Some(roll) => roll.is_waiting(change.place),
        None => false,
    }
}

// The first of the instances of the groups of a stage that may be worked on now.
fn first(work: &Work, stage: u32) -> Option<(GroupPlace, &Inst)>
    ensures { option_map (λ it. (it.0, it.1.now)) result ≡ first_changed work.now stage }
{
    let (at, change) = first_place(work.groups.as_slice(), stage)?;
    Some((change, work.changed.get(at)?))
}

// The same, with its place among all that change.
fn first_place(groups: &[GroupWork], stage: u32) -> Option<(usize, GroupPlace)>
    ensures { result ≡ first_place groups.now stage }
{
    let mut found: Option<(usize, GroupPlace)> = None;
    for (group, it) in groups.iter().enumerate() {
        found = with_claimable(stage, found, group, it);
    }
    found
}

// The first, with one more group, where it is of the stage.
fn with_claimable(
    stage: u32,
    found: Option<(usize, GroupPlace)>,
    group: usize,
    it: &GroupWork,
) -> Option<(usize, GroupPlace)>
    ensures { result ≡ with_claimable stage found (group, it.now) }
{
    if it.stage == stage {
        earlier(found, claimable(group, it))
    } else {
        found
    }
}

// The first of those of a group, with its place among all that change.
fn claimable(group: usize, it: &GroupWork) -> Option<(usize, GroupPlace)>
    ensures { result ≡ claimable group it.now }
{
    let place = it.roll.first()?;
    let at = it.places.get(place)?;
    Some((*at, GroupPlace { group, place }))
}

fn earlier(
    one: Option<(usize, GroupPlace)>,
    other: Option<(usize, GroupPlace)>,
) -> Option<(usize, GroupPlace)>
    ensures { result ≡ earlier one other }
{
    match (one, other) {
        (Some(one), Some(other)) if other.0 < one.0 => Some(other),
        (None, other) => other,
        (one, _) => one,
    }
}
