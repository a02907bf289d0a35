ghost use Rattle.std.specs.Prelude.{◌≡◌, option_map};
ghost use Rattle.bosh_claim.specs.Updating.{begins_update, is_stage, of_present};

use crate::phase::{Phase, present};
use bosh_base::{Inst, Update};
use bosh_records::Records;
use bosh_work::{GroupPlace, GroupWork, Work};

/// Whether the update of an instance may begin: its group's turn is now, and canaries and limit allow it.
pub(crate) fn begins_update(records: &Records, update: &Update) -> bool
    ensures { result ≡ begins_update records.now update.now }
{
    let Some(work) = records.work(update.task) else {
        return false;
    };
    match of_present(records, work, &update.inst) {
        Some((group, place)) => {
            work.failed.is_none() && group.roll.is_waiting(place) && group.roll.is_allowed(place)
        }
        None => false,
    }
}

/// The group of a changed instance, and its place there, where the stage of the group is the present phase.
pub(crate) fn of_present<'a>(
    records: &Records,
    work: &'a Work,
    inst: &Inst,
) -> Option<(&'a GroupWork, usize)>
    ensures { option_map (λ it. (it.0.now, it.1)) result ≡ of_present records.now work.now inst.now }
{
    let change: GroupPlace = records.instance(inst)?.part.change?;
    let group = work.groups.get(change.group)?;
    if is_stage(present(records, work), group.stage) {
        Some((group, change.place))
    } else {
        None
    }
}

/// Whether a phase is that of the groups of a stage.
fn is_stage(phase: Option<Phase>, stage: u32) -> bool
    ensures { result ≡ is_stage phase stage }
{
    match phase {
        Some(Phase::Update(it)) => it == stage,
        _ => false,
    }
}
