ghost use Rattle.std.specs.Prelude.{◌≡◌};
ghost use Rattle.std.specs.Option.{option_map};
ghost use Rattle.bosh_records.specs.Recorded.{recorded};
ghost use Rattle.bosh_fold.specs.Calls.{answered_in, built_in, closed_call, deleted_in, disk_told, dropped_machine, failed_in};
ghost use Rattle.bosh_fold.specs.Calls.{ended_in, given_by, machine_told, other_told, pinged_by, swept_in, told_of};
ghost use Rattle.bosh_plan.specs.declared.ending.Told.TheVariants.{Absent};
ghost use Rattle.bosh_records.specs.Readers.{machine_at};

use crate::beginning::{machine_name, set_compiling, set_open_call};
use bosh_base::{Begin, Call, Digest, Owner, TaskEnd};
use bosh_drops::let_go;
use bosh_plan::{After, Ended, Told};
use bosh_records::Records;
use bosh_work::MachineName;

/// A call ends, where it is open.
pub(crate) fn learn_end(records: &mut Records, ended: Ended)
    ensures { recorded records.new ≡ ended_in ended (recorded records.old) }
{
    match records.calls.remove(&ended.n) {
        Some(begin) => answered(records, begin, ended),
        None => let_go(ended),
    }
}

fn answered(records: &mut Records, begin: Begin, ended: Ended)
    ensures { recorded records.new ≡ answered_in begin ended (recorded records.old) }
{
    let Ended {
        n: _,
        after,
        failed,
        built,
        is_asked,
    } = ended;
    close_call(records, &begin);
    give(records, begin.task, &begin.owner);
    note_ping(records, is_asked, &begin);
    fail(records, begin.task, failed);
    tell(records, &begin.owner, after);
    note_built(records, begin.call, built);
}

pub(crate) fn close_call(records: &mut Records, begin: &Begin)
    ensures { recorded records.new ≡ closed_call begin.now (recorded records.old) }
{
    set_open_call(records, &begin.owner, None);
    set_compiling(records, &begin.call, None);
}

fn fail(records: &mut Records, task: u64, failed: Option<TaskEnd>)
    ensures { recorded records.new ≡ failed_in task failed (recorded records.old) }
{
    records.works.fail(&task, failed);
}

// Nobody works on the owner of a call any more.
fn give(records: &mut Records, task: u64, owner: &Owner)
    ensures { recorded records.new ≡ given_by task owner.now (recorded records.old) }
{
    let places = records.places_of(owner);
    records.works.give(&task, places);
}

// An answered ping is noted for its instance.
fn note_ping(records: &mut Records, is_asked: bool, begin: &Begin)
    ensures { recorded records.new ≡ pinged_by is_asked begin.now (recorded records.old) }
{
    if let (true, Call::Ping { .. }) = (is_asked, &begin.call) {
        let place = records.places_of(&begin.owner).part.ping;
        records.works.finish_ping(&begin.task, place);
    }
}

// A compilation that is answered records its key, whatever becomes of the task.
fn note_built(records: &mut Records, call: Call, built: Option<Digest>)
    ensures { recorded records.new ≡ built_in call built (recorded records.old) }
{
    match (call, built) {
        (Call::CompilePackage { work, .. }, Some(digest)) => {
            records.works.finish_key(&work.key);
            records.keys.set_built(work, digest);
        }
        (call, _) => let_go(call),
    }
}

fn tell(records: &mut Records, owner: &Owner, after: Option<After>)
    ensures { recorded records.new ≡ told_of owner.now after (recorded records.old) }
{
    match after {
        None => {}
        Some(After::Instance(row)) => records.instances.record(row),
        Some(After::Other(told)) => tell_other(records, owner, told),
    }
}

fn tell_other(records: &mut Records, owner: &Owner, told: Told)
    ensures { recorded records.new ≡ other_told owner.now told (recorded records.old) }
{
    match owner {
        Owner::Instance(_) => {}
        Owner::Compile(task, slot) => tell_machine(records, machine_name(*task, *slot), told),
        Owner::Disk(disk) => tell_disk(records, *disk, told),
    }
}

fn tell_machine(records: &mut Records, name: MachineName, told: Told)
    ensures { recorded records.new ≡ machine_told name told (recorded records.old) }
{
    match told {
        Told::Nothing => {}
        Told::There(vm) => records.machines.set_there(&name, vm),
        Told::Absent => drop_machine(records, name),
    }
}

fn drop_machine(records: &mut Records, name: MachineName)
    ensures { recorded records.new ≡ dropped_machine name (machine_at records.old name) (recorded records.old) }
{
    let Some((key, sweep)) = uses_of(records, name) else {
        return;
    };
    records.machines.delete(&name);
    records.works.drop_machine(&name.task, key);
    note_swept(records, name, sweep);
}

// The key that a machine is for, and its place among those that are swept.
fn uses_of(records: &Records, name: MachineName) -> Option<(Option<usize>, Option<usize>)>
    ensures { result ≡ option_map (λ machine. (machine.key, machine.sweep)) (machine_at records.now name) }
{
    let machine = records.machines.get(&name)?;
    Some((machine.key, machine.sweep))
}

fn note_swept(records: &mut Records, name: MachineName, sweep: Option<usize>)
    ensures { recorded records.new ≡ swept_in name sweep (recorded records.old) }
{
    if let Some(place) = sweep {
        records.works.finish_machine(name, place);
    }
}

fn tell_disk(records: &mut Records, disk: u64, told: Told)
    ensures { recorded records.new ≡ disk_told disk told (recorded records.old) }
{
    match told {
        Told::Nothing => {}
        Told::There(_) => records.orphans.set_doubt(&disk, None),
        Told::Absent => drop_disk(records, disk),
    }
}

fn drop_disk(records: &mut Records, disk: u64)
    ensures { recorded records.new ≡ disk_told disk Absent (recorded records.old) }
{
    let deleting = records.deleting_of(disk);
    records.orphans.delete(&disk);
    note_deleted(records, disk, deleting);
}

fn note_deleted(records: &mut Records, disk: u64, deleting: Option<usize>)
    ensures { recorded records.new ≡ deleted_in disk deleting (recorded records.old) }
{
    if let Some(place) = deleting {
        records.works.finish_disk(disk, place);
    }
}
