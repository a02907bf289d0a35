ghost use Rattle.std.specs.Prelude.{◌≡◌, IfOk, None, OnOk};
ghost use Rattle.bosh_base.specs.Inst.{inst_cmp};
ghost use Rattle.bosh_records.specs.Instances.{unknown};
ghost use Rattle.bosh_records.specs.Readers.{machine_cmp};
ghost use Rattle.bosh_records.specs.Recorded.{kept, recorded};
ghost use Rattle.bosh_records.specs.Table.{with_room};
ghost use Rattle.bosh_plan.specs.Begun.{compile_row_of, doubt_of, machine_begun, next_key, row_begun, row_or_bare, subject_of};
ghost use Rattle.bosh_plan.specs.Roomy.{roomy_for_call, roomy_for_owner};

use crate::fault::recorded;
use bosh_base::{
    Begin, Call, CompileRow, Copyable, Doubt, Inst, Make, Name, Owner, Row, copy_both,
};
use bosh_drops::beside;
use bosh_records::{Machine, Records, RecordsFault};
use bosh_rows::{bare, begin};
use bosh_work::MachineName;

/// What the beginning of a call changes in what is recorded of its owner.
#[derive(Drop)]
pub enum Subject {
    Instance(Row),
    /// A compile machine is made.
    Machine(Machine),
    /// A deletion of a compile machine or of a disk is in doubt from now on.
    Doubt(Doubt),
    Same,
}

/// What the beginning of a call changes.
#[derive(Drop)]
pub struct Begun {
    pub begin: Begin,
    pub subject: Subject,
}

/// What the beginning of a call changes. Room is made for it, and what is recorded stays as it is.
pub fn plan_begin(records: &mut Records, begin: &Begin) -> Result<Begun, RecordsFault>
    ensures begins { IfOk result (λ begun. begun.begin ≡ begin.now) }
    ensures subject { IfOk result (λ begun. begun.subject ≡ subject_of records.old begin.now) }
    ensures room { OnOk result (recorded records.new ≡ roomy_for_call begin.now (recorded records.old)) }
    ensures alike { kept (recorded records.new) ≡ kept (recorded records.old) }
{
    records.calls.ensure(begin.n)?;
    let copy = begin.copy(records.alloc)?;
    let (begin, subject) = beside(copy, subject_begun(records, begin))?;
    Ok(Begun { begin, subject })
}

fn subject_begun(records: &mut Records, begin: &Begin) -> Result<Subject, RecordsFault>
    ensures begun { IfOk result (λ subject. subject ≡ subject_of records.old begin.now) }
    ensures room { OnOk result
        (recorded records.new ≡ roomy_for_owner begin.now.owner begin.now.call (recorded records.old)) }
    ensures alike { kept (recorded records.new) ≡ kept (recorded records.old) }
{
    match (&begin.owner, &begin.call) {
        (Owner::Instance(inst), _) => Ok(Subject::Instance(row_begun(records, inst, begin)?)),
        (Owner::Compile(task, slot), Call::CreateVm { make, .. }) => {
            let name = MachineName {
                task: *task,
                slot: *slot,
            };
            machine_begun(records, name, make, begin)
        }
        (Owner::Compile(..), Call::CompilePackage { work, .. }) => {
            records.keys.ensure(records.alloc, &work.name, &work.key)?;
            Ok(Subject::Same)
        }
        (Owner::Compile(..), Call::DeleteVm { .. }) | (Owner::Disk(_), Call::DeleteDisk { .. }) => {
            Ok(Subject::Doubt(doubt(records, begin)?))
        }
        _ => Ok(Subject::Same),
    }
}

fn row_begun(records: &mut Records, inst: &Inst, begun: &Begin) -> Result<Row, RecordsFault>
    ensures begun { IfOk result (λ row. row ≡ row_begun records.old begun.now inst.now) }
    ensures room { OnOk result (recorded records.new ≡ record (recorded records.old) {
      instances = with_room inst_cmp inst.now unknown (recorded records.old).instances;
    }) }
    ensures alike { kept (recorded records.new) ≡ kept (recorded records.old) }
{
    records.instances.ensure(records.alloc, inst)?;
    let mut row = row_or_bare(records, inst)?;
    let begun = begin(records.alloc, &mut row, begun.n, &begun.call);
    let (row, ()) = beside(row, recorded(begun))?;
    Ok(row)
}

fn row_or_bare(records: &Records, inst: &Inst) -> Result<Row, RecordsFault>
    ensures { IfOk result (λ row. row ≡ row_or_bare records.now inst.now) }
{
    match records.instances.row(inst) {
        Some(row) => Ok(row.copy(records.alloc)?),
        None => Ok(bare(records.alloc, inst.copy(records.alloc)?)),
    }
}

fn doubt(records: &Records, begin: &Begin) -> Result<Doubt, RecordsFault>
    ensures { IfOk result (λ doubt. doubt ≡ doubt_of begin.now) }
{
    let call = begin.call.copy(records.alloc)?;
    Ok(Doubt { n: begin.n, call })
}

// A machine is made for the first key that one may be made for. Only a task of a deployment makes any.
fn machine_begun(
    records: &mut Records,
    name: MachineName,
    make: &Make,
    begin: &Begin,
) -> Result<Subject, RecordsFault>
    ensures begun { IfOk result (λ subject. subject ≡ machine_begun records.old begin.now name make.now) }
    ensures room { OnOk result (recorded records.new ≡ record (recorded records.old) {
      machines = with_room machine_cmp name None (recorded records.old).machines;
    }) }
    ensures alike { kept (recorded records.new) ≡ kept (recorded records.old) }
{
    records.machines.ensure(name)?;
    let Some(dep) = records.dep_of(name.task) else {
        return Ok(Subject::Same);
    };
    let row = compile_row(records, name, dep, make, begin)?;
    Ok(Subject::Machine(Machine {
        row,
        key: next_key(records, begin.task),
        sweep: None,
        call: None,
    }))
}

fn compile_row(
    records: &Records,
    name: MachineName,
    dep: &Name,
    make: &Make,
    begin: &Begin,
) -> Result<CompileRow, RecordsFault>
    ensures { IfOk result (λ row. row ≡ compile_row_of begin.now name make.now dep.now) }
{
    let copied = copy_both(dep, make, records.alloc)?;
    let ((dep, make), doubt) = beside(copied, doubt(records, begin))?;
    Ok(CompileRow {
        task: name.task,
        slot: name.slot,
        dep,
        make,
        vm: None,
        doubt: Some(doubt),
    })
}

fn next_key(records: &Records, task: u64) -> Option<usize>
    ensures { result ≡ next_key records.now task }
{
    records.next_key(records.work(task)?)
}
