ghost use Rattle.std.specs.Prelude.{◌≡◌};
ghost use Rattle.bosh_records.specs.Recorded.{recorded};
ghost use Rattle.bosh_fold.specs.Calls.{begun_in, counted, machine_name, noted_call, opened_call, taken_by, with_call, with_compiling};
ghost use Rattle.bosh_fold.specs.Calls.{with_doubt, with_machine_of, with_subject};

use bosh_base::{Begin, Call, Doubt, Owner};
use bosh_plan::{Begun, Subject};
use bosh_records::{Machine, Records};
use bosh_work::MachineName;

/// A call begins.
pub(crate) fn learn_begin(records: &mut Records, begun: Begun)
    ensures { recorded records.new ≡ begun_in begun (recorded records.old) }
{
    let Begun { begin, subject } = begun;
    set_subject(records, &begin.owner, subject);
    open_call(records, &begin);
    count_call(records, begin.task);
    note_call(records, begin);
}

fn count_call(records: &mut Records, task: u64)
    ensures { recorded records.new ≡ counted task (recorded records.old) }
{
    records.tasks.count_call(&task);
}

fn note_call(records: &mut Records, begin: Begin)
    ensures { recorded records.new ≡ noted_call begin (recorded records.old) }
{
    let n = begin.n;
    records.last_call = n;
    records.calls.put(&n, begin);
}

fn open_call(records: &mut Records, begin: &Begin)
    ensures { recorded records.new ≡ opened_call begin.now (recorded records.old) }
{
    set_open_call(records, &begin.owner, Some(begin.n));
    set_compiling(records, &begin.call, Some(begin.n));
    take(records, begin.task, &begin.owner);
}

fn set_subject(records: &mut Records, owner: &Owner, subject: Subject)
    ensures { recorded records.new ≡ with_subject owner.now subject (recorded records.old) }
{
    match subject {
        Subject::Instance(row) => records.instances.record(row),
        Subject::Machine(machine) => add_machine(records, machine),
        Subject::Doubt(doubt) => set_doubt(records, owner, doubt),
        Subject::Same => {}
    }
}

fn add_machine(records: &mut Records, machine: Machine)
    ensures { recorded records.new ≡ with_machine_of machine (recorded records.old) }
{
    let name = MachineName {
        task: machine.row.task,
        slot: machine.row.slot,
    };
    records.works.add_machine(&name.task, machine.key);
    records.machines.put(&name, machine);
}

fn set_doubt(records: &mut Records, owner: &Owner, doubt: Doubt)
    ensures { recorded records.new ≡ with_doubt owner.now doubt (recorded records.old) }
{
    match owner {
        Owner::Instance(_) => {}
        Owner::Compile(task, slot) => {
            let name = machine_name(*task, *slot);
            records.machines.set_doubt(&name, doubt);
        }
        Owner::Disk(disk) => records.orphans.set_doubt(disk, Some(doubt)),
    }
}

/// Notes the open call of an owner, or that it has none.
pub(crate) fn set_open_call(records: &mut Records, owner: &Owner, call: Option<u64>)
    ensures { recorded records.new ≡ with_call owner.now call (recorded records.old) }
{
    match owner {
        Owner::Instance(inst) => records.instances.set_call(inst, call),
        Owner::Compile(task, slot) => {
            let name = machine_name(*task, *slot);
            records.machines.set_call(&name, call);
        }
        Owner::Disk(disk) => records.orphans.set_call(disk, call),
    }
}

pub(crate) fn machine_name(task: u64, slot: u32) -> MachineName
    ensures { result ≡ machine_name task slot }
{
    MachineName { task, slot }
}

/// Notes the open call that compiles a key, or that none does.
pub(crate) fn set_compiling(records: &mut Records, call: &Call, open: Option<u64>)
    ensures { recorded records.new ≡ with_compiling call.now «open» (recorded records.old) }
{
    if let Call::CompilePackage { work, .. } = call {
        records.keys.set_call(&work.key, open);
    }
}

// Somebody works on an owner for a task.
fn take(records: &mut Records, task: u64, owner: &Owner)
    ensures { recorded records.new ≡ taken_by task owner.now (recorded records.old) }
{
    let places = records.places_of(owner);
    records.works.take(&task, places);
}
