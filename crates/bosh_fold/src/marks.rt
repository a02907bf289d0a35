ghost use Rattle.std.specs.Prelude.{◌≡◌};
ghost use Rattle.bosh_fold.specs.Tasks.{change_set, changes_set, deletings_set, places_set, leavings_set, pings_set, sweeps_set};

use bosh_base::Inst;
use bosh_records::{Instances, LooseDisk, Machine, Table};
use bosh_work::{GroupPlace, GroupWork, MachineName};

/// Each instance that is asked first knows its place among those.
pub(crate) fn set_pings(instances: &mut Instances, items: &[Inst])
    ensures { instances.new.by_inst.entries ≡ pings_set items.now instances.old.by_inst.entries }
{
    for (place, inst) in items.iter().enumerate() {
        instances.set_ping(inst, Some(place));
    }
}

/// Each instance that goes knows its place among those.
pub(crate) fn set_leavings(instances: &mut Instances, items: &[Inst])
    ensures { instances.new.by_inst.entries ≡ leavings_set items.now instances.old.by_inst.entries }
{
    for (place, inst) in items.iter().enumerate() {
        instances.set_leaving(inst, Some(place));
    }
}

/// Each changed instance knows its group, and its place there.
pub(crate) fn set_changes(instances: &mut Instances, changed: &[Inst], groups: &[GroupWork])
    ensures { instances.new.by_inst.entries ≡ changes_set changed.now groups.now instances.old.by_inst.entries }
{
    for (group, it) in groups.iter().enumerate() {
        set_group(instances, changed, group, it.places.as_slice());
    }
}

fn set_group(instances: &mut Instances, changed: &[Inst], group: usize, places: &[usize])
    ensures { instances.new.by_inst.entries ≡ places_set changed.now group instances.old.by_inst.entries places.now }
{
    for (place, at) in places.iter().enumerate() {
        set_change(instances, changed, group, place, *at);
    }
}

fn set_change(instances: &mut Instances, changed: &[Inst], group: usize, place: usize, at: usize)
    ensures { instances.new.by_inst.entries ≡ change_set changed.now group instances.old.by_inst.entries (place, at) }
{
    if let Some(inst) = changed.get(at) {
        instances.set_change(inst, Some(GroupPlace { group, place }));
    }
}

/// Each compile machine that is swept knows its place among those.
pub(crate) fn set_sweeps(machines: &mut Table<MachineName, Machine>, items: &[MachineName])
    ensures { machines.new.places.entries ≡ sweeps_set items.now machines.old.places.entries }
{
    for (place, name) in items.iter().enumerate() {
        machines.set_sweep(name, Some(place));
    }
}

/// Each disk that is deleted knows its place among those.
pub(crate) fn set_deletings(orphans: &mut Table<u64, LooseDisk>, items: &[u64])
    ensures { orphans.new.places.entries ≡ deletings_set items.now orphans.old.places.entries }
{
    for (place, disk) in items.iter().enumerate() {
        orphans.set_deleting(disk, Some(place));
    }
}
