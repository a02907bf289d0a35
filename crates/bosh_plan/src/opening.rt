ghost use Rattle.std.specs.Prelude.{◌≡◌, ◌<◌, IfErr, IfOk, OnOk};
ghost use Rattle.std.specs.Option.{option_copied};
ghost use Rattle.bosh_records.specs.Recorded.{kept, recorded};
ghost use Rattle.bosh_plan.specs.Opened.{IsOpened, dep_row_of, task_row_of};
ghost use Rattle.bosh_plan.specs.Roomy.{roomy_for_goal, roomy_for_task};
ghost use Rattle.bosh_plan.specs.WorkBy.{asked_in, has_machine, is_asked, is_of, is_swept, swept_in, with_before};
ghost use Rattle.bosh_plan.specs.WorkBy.{with_changes, with_keys, work_by};

use crate::grouping::grouped;
use crate::key_places::key_line;
use crate::lines::{full, nothing};
use bosh_base::{
    Copyable, DepRow, Goal, Inst, Name, Row, Seq, TaskKind, TaskOpen, TaskRow, copy_both,
};
use bosh_drops::{beside, put};
use bosh_records::{Machine, Records, RecordsFault, Since, copies};
use bosh_work::{MachineName, Work};
use std::alloc::Global;

/// What the opening of a task changes.
#[derive(Drop)]
pub struct Opened {
    pub row: TaskRow,
    /// Its deployment with the goal, where it is of one.
    pub deployment: Option<DepRow>,
    pub work: Work,
}

/// What the opening of a task changes. Room is made for it, and what is recorded stays as it is.
pub fn plan_opening(records: &mut Records, opening: &TaskOpen) -> Result<Opened, RecordsFault>
    ensures opened { IfOk result (λ opened. IsOpened records.new opening.now opened) }
    ensures room { OnOk result (recorded records.new ≡ roomy_for_task opening.now (recorded records.old)) }
    ensures alike { kept (recorded records.new) ≡ kept (recorded records.old) }
{
    records.tasks.ensure(opening.task)?;
    records.works.ensure(opening.task)?;
    if let Some(goal) = &opening.goal {
        records.deployments.ensure(Since::Task(opening.task))?;
        make_room(records, goal)?;
    }
    made(records, opening)
}

// Room for what a goal wants.
fn make_room(records: &mut Records, goal: &Goal) -> Result<(), RecordsFault>
    ensures room { OnOk result (recorded records.new ≡ roomy_for_goal goal.now (recorded records.old)) }
    ensures alike { kept (recorded records.new) ≡ kept (recorded records.old) }
{
    for want in goal.rows.iter() {
        records.instances.ensure(records.alloc, &want.inst)?;
    }
    for work in goal.keys.iter() {
        records.keys.ensure(records.alloc, &work.name, &work.key)?;
    }
    Ok(())
}

fn made(records: &Records, opening: &TaskOpen) -> Result<Opened, RecordsFault>
    ensures { IfOk result (λ opened. IsOpened records.now opening.now opened) }
{
    let recorded = beside(
        deployment_of(records.alloc, opening)?,
        task_row(records.alloc, opening),
    )?;
    let ((deployment, row), work) = beside(recorded, work_of(records, opening))?;
    Ok(Opened {
        row,
        deployment,
        work,
    })
}

fn work_of(records: &Records, opening: &TaskOpen) -> Result<Work, RecordsFault>
    ensures { IfOk result (λ work. work ≡ work_by records.now opening.now) }
{
    let mut work = nothing(records.alloc, opening.task);
    let filled = fill(records, &mut work, opening);
    let (work, ()) = beside(work, filled)?;
    Ok(work)
}

fn fill(records: &Records, work: &mut Work, opening: &TaskOpen) -> Result<(), RecordsFault>
    ensures { OnOk result (work.new ≡ with_changes opening.now (with_before records.now opening.now work.old)) }
{
    note_before(records, work, opening)?;
    note_changes(records.alloc, work, opening)
}

// What is asked, swept and compiled before any instance changes.
fn note_before(records: &Records, work: &mut Work, opening: &TaskOpen) -> Result<(), RecordsFault>
    ensures { OnOk result (work.new ≡ with_before records.now opening.now work.old) }
{
    let alloc = records.alloc;
    put(&mut work.pings, full(alloc, to_ping(records, opening)?)?);
    put(&mut work.sweep, full(alloc, to_sweep(records, opening)?)?);
    note_keys(records, work, opening)
}

fn note_keys(records: &Records, work: &mut Work, opening: &TaskOpen) -> Result<(), RecordsFault>
    ensures { OnOk result (work.new ≡ with_keys records.now.keys opening.now.goal work.old) }
{
    if let Some(goal) = &opening.goal {
        put(
            &mut work.keys,
            key_line(records.alloc, goal.keys.as_slice(), &records.keys)?,
        );
        work.slots = counted(goal.slots.len())?;
    }
    Ok(())
}

// Slots have numbers of 32 bits: there is no memory for more of them.
fn counted(slots: usize) -> Result<u32, RecordsFault>
    ensures ok { IfOk result (λ count. count ≡ slots) }
    ensures err { IfErr result (λ _. 4294967295 < slots) }
{
    match u32::try_from(slots) {
        Ok(count) => Ok(count),
        Err(_) => Err(RecordsFault::Memory),
    }
}

// Which instances leave and change, and which disks are deleted.
fn note_changes(alloc: Global, work: &mut Work, opening: &TaskOpen) -> Result<(), RecordsFault>
    ensures { OnOk result (work.new ≡ with_changes opening.now work.old) }
{
    let obsolete = copies(alloc, opening.obsolete.as_slice())?;
    put(&mut work.obsolete, full(alloc, obsolete)?);
    put(&mut work.changed, opening.changed.copy(alloc)?);
    put(&mut work.groups, grouped(alloc, opening)?);
    let disks = copies(alloc, opening.disks.as_slice())?;
    put(&mut work.disks, full(alloc, disks)?);
    Ok(())
}

// A deploy that looks whether each machine answers asks those of all rows of its deployment that are not known to
// be lost, and the task that resolves one instance asks that of its row.
fn to_ping(records: &Records, opening: &TaskOpen) -> Result<Vec<Inst>, RecordsFault>
    ensures { IfOk result (λ found. found.items ≡ asked_in opening.now records.now.instances.by_inst.entries) }
{
    let mut found = Vec::new(records.alloc);
    for (inst, instance) in records.instances.iter() {
        if is_asked(opening, inst) && has_machine(instance.row.as_ref()) {
            found.push(inst.copy(records.alloc)?)?;
        }
    }
    Ok(found)
}

fn has_machine(row: Option<&Row>) -> bool
    ensures { result ≡ has_machine (option_copied row.entry) }
{
    match row {
        Some(row) => row.vm.is_some() && !row.lost,
        None => false,
    }
}

// The compile machines of the deployment that are recorded.
fn to_sweep(records: &Records, opening: &TaskOpen) -> Result<Vec<MachineName>, RecordsFault>
    ensures { IfOk result (λ found. found.items ≡ swept_in opening.now.dep records.now.machines.places.entries) }
{
    let mut found = Vec::new(records.alloc);
    for (name, machine) in records.machines.iter() {
        if is_swept(opening.dep.as_ref(), machine.as_ref()) {
            found.push(*name)?;
        }
    }
    Ok(found)
}

fn is_swept(dep: Option<&Name>, machine: Option<&Machine>) -> bool
    ensures { result ≡ is_swept (option_copied dep.entry) (option_copied machine.entry) }
{
    match machine {
        Some(machine) => is_of(dep, &machine.row.dep),
        None => false,
    }
}

fn is_asked(opening: &TaskOpen, inst: &Inst) -> bool
    ensures { result ≡ is_asked opening.now inst.now }
{
    match &opening.kind {
        TaskKind::Fix => is_of(opening.dep.as_ref(), &inst.dep),
        TaskKind::Resolve(named) => named == inst,
        _ => false,
    }
}

fn is_of(dep: Option<&Name>, other: &Name) -> bool
    ensures { result ≡ is_of (option_copied dep.entry) other.now }
{
    match dep {
        Some(dep) => dep == other,
        None => false,
    }
}

fn deployment_of(alloc: Global, opening: &TaskOpen) -> Result<Option<DepRow>, RecordsFault>
    ensures { IfOk result (λ deployment. deployment ≡ dep_row_of opening.now) }
{
    let Some(goal) = &opening.goal else {
        return Ok(None);
    };
    let goal = goal.copy(alloc)?;
    let dep = goal.dep.copy(alloc)?;
    Ok(Some(DepRow {
        dep,
        goal,
        shared: Seq::new(alloc),
    }))
}

fn task_row(alloc: Global, opening: &TaskOpen) -> Result<TaskRow, RecordsFault>
    ensures { IfOk result (λ row. row ≡ task_row_of opening.now) }
{
    let (kind, dep) = copy_both(&opening.kind, &opening.dep, alloc)?;
    Ok(TaskRow {
        task: opening.task,
        kind,
        dep,
        end: None,
        source: opening.source,
        calls: Some(0),
    })
}
