//! What an answer leaves of what is recorded of an instance.
ghost use Rattle.std.specs.Prelude.{◌≡◌, ℕ, false, None, Some, IsOk, OnOk, OnErr, map};
ghost use Rattle.bosh_base.specs.declared.answer.Answer.TheVariants as answers;
ghost use Rattle.bosh_rows.specs.After.{after, asks_for_memory, migrated_disks, new_role, row_at_gone, row_by_answer, with_disk, with_disks, with_facts, with_found, with_machine, without_machine};
ghost use Rattle.bosh_rows.specs.DiskChange.{disk_after};

use crate::RowFault;
use crate::disk_change::{Change, DiskChange};
use crate::disks::active;
use crate::place::put;
use bosh_base::{Answer, Call, Copyable, DiskRow, DiskWant, Doubt, Role, Row, Spec, Vm};
use std::alloc::Global;

fn clear_doubt(row: &mut Row)
    ensures { row.new ≡ record row.old { doubt = None } }
{
    put(&mut row.doubt, None);
}

fn change_disks(alloc: Global, row: &mut Row, change: DiskChange<'_>)
    ensures { row.new ≡ with_disks (map (disk_after change.entry) row.old.disks) row.old }
{
    change.make(alloc, &mut row.disks);
    clear_doubt(row);
}

/// The machine is absent, and with it what it had.
pub(crate) fn without_machine(alloc: Global, row: &mut Row)
    ensures { row.new ≡ without_machine row.old }
{
    change_disks(alloc, row, DiskChange::Each(Change::LetGo));
    row.vm = None;
    put(&mut row.spec, None);
    row.running = false;
    row.drained = false;
    row.lost = false;
}

// The machine that was made by a call, or that there is none.
fn with_machine(alloc: Global, row: &mut Row, agent: u64, found: Option<u64>)
    ensures { row.new ≡ with_machine agent found row.old }
{
    match found {
        Some(vm) => {
            row.vm = Some(Vm { vm, agent });
            clear_doubt(row);
        }
        None => without_machine(alloc, row),
    }
}

// The contents are to be moved to a new disk, where there is a disk that has them.
#[tactic(auto, using(crate::proofs::DiskLemmas::has_active))]
fn new_role(disks: &[DiskRow]) -> Role
    ensures { result ≡ new_role disks.now }
{
    match active(disks) {
        Some(_) => Role::New,
        None => Role::Active,
    }
}

fn with_disk(row: &mut Row, disk: u64, tag: u64, want: DiskWant) -> Result<(), RowFault>
    ensures ok { OnOk result (row.new ≡ with_disk tag want (Some disk) row.old) }
    ensures err { OnErr result (row.new ≡ row.old) }
{
    let made = DiskRow {
        disk,
        tag,
        want,
        role: new_role(row.disks.as_slice()),
        attached: false,
        mounted: false,
    };
    if row.disks.push(made).is_err() {
        return Err(RowFault::Memory);
    }
    clear_doubt(row);
    Ok(())
}

// What the call n made has this number.
fn with_made(alloc: Global, row: &mut Row, n: u64, call: &Call, number: u64) -> Result<(), RowFault>
    ensures ok { OnOk result (row.new ≡ row_by_answer n call.now (answers.Cid number) row.old) }
    ensures err { OnErr result (row.new ≡ row.old) }
    ensures succeeds { asks_for_memory call.now (answers.Cid number) ≡ false → IsOk result }
{
    match call {
        Call::CreateDisk { want, .. } => {
            let want = want.copy(alloc)?;
            return with_disk(row, number, n, want);
        }
        Call::CreateVm { .. } => with_machine(alloc, row, n, Some(number)),
        _ => {}
    }
    Ok(())
}

// The disk that the call in doubt asked for, or that there is none.
fn with_found_disk(
    alloc: Global,
    row: &mut Row,
    tag: u64,
    found: Option<u64>,
) -> Result<(), RowFault>
    ensures ok { OnOk result (row.new ≡ with_found tag found row.old.doubt row.old) }
    ensures err { OnErr result (row.new ≡ row.old) }
    ensures succeeds { found ≡ None → IsOk result }
{
    let Some(
        Doubt {
            call: Call::CreateDisk { want, .. },
            ..
        },
    ) = &row.doubt
    else {
        return Ok(());
    };
    let Some(disk) = found else {
        clear_doubt(row);
        return Ok(());
    };
    let want = want.copy(alloc)?;
    with_disk(row, disk, tag, want)
}

// What a call looked for is there, with this number, or is not there.
fn with_found(alloc: Global, row: &mut Row, call: &Call, found: Option<u64>) -> Result<(), RowFault>
    ensures ok { OnOk result ((n : ℕ) → row.new ≡ row_by_answer n call.now (answers.Found found) row.old) }
    ensures err { OnErr result (row.new ≡ row.old) }
    ensures succeeds { asks_for_memory call.now (answers.Found found) ≡ false → IsOk result }
{
    match call {
        Call::FindDisk { tag } => return with_found_disk(alloc, row, *tag, found),
        Call::FindVm { agent } => with_machine(alloc, row, *agent, found),
        _ => {}
    }
    Ok(())
}

// The machine has just these disks attached, or mounted.
fn with_listed(alloc: Global, row: &mut Row, call: &Call, numbers: &[u64])
    ensures { (n : ℕ) → row.new ≡ row_by_answer n call.now (answers.Disks numbers.now) row.old }
{
    match call {
        Call::GetDisks { .. } => change_disks(alloc, row, DiskChange::AttachedBy(numbers)),
        Call::ListDisk { .. } => change_disks(alloc, row, DiskChange::MountedBy(numbers)),
        _ => {}
    }
}

// What a machine tells of itself.
fn with_facts(
    alloc: Global,
    row: &mut Row,
    spec: &Option<Spec>,
    running: bool,
    drained: bool,
) -> Result<(), RowFault>
    ensures ok { OnOk result (row.new ≡ with_facts spec.now running drained row.old) }
    ensures err { OnErr result (row.new ≡ row.old) }
{
    let spec = spec.copy(alloc)?;
    put(&mut row.spec, spec);
    with_jobs(row, running, drained);
    Ok(())
}

fn with_spec(alloc: Global, row: &mut Row, spec: &Spec) -> Result<(), RowFault>
    ensures ok { OnOk result (row.new ≡ record row.old { spec = Some spec.now; doubt = None }) }
    ensures err { OnErr result (row.new ≡ row.old) }
{
    let spec = spec.copy(alloc)?;
    put(&mut row.spec, Some(spec));
    clear_doubt(row);
    Ok(())
}

// The contents were moved.
fn migrate(alloc: Global, row: &mut Row, from: u64, to: u64)
    ensures { row.new ≡ record row.old { disks = migrated_disks from to row.old.disks } }
{
    DiskChange::One(from, Change::BecomeOld).make(alloc, &mut row.disks);
    DiskChange::One(to, Change::BecomeActive).make(alloc, &mut row.disks);
}

// The jobs of a machine were started, drained or stopped.
fn with_jobs(row: &mut Row, running: bool, drained: bool)
    ensures { row.new ≡ record row.old { running = running; drained = drained; doubt = None } }
{
    row.running = running;
    row.drained = drained;
    clear_doubt(row);
}

fn with_done(alloc: Global, row: &mut Row, call: &Call) -> Result<(), RowFault>
    ensures ok { OnOk result ((n : ℕ) → row.new ≡ row_by_answer n call.now answers.Done row.old) }
    ensures err { OnErr result (row.new ≡ row.old) }
    ensures succeeds { asks_for_memory call.now answers.Done ≡ false → IsOk result }
{
    match call {
        Call::Apply { spec, .. } => return with_spec(alloc, row, spec),
        Call::DeleteVm { .. } => without_machine(alloc, row),
        Call::AttachDisk { disk, .. } => change_disks(
            alloc,
            row,
            DiskChange::One(*disk, Change::Attach),
        ),
        Call::DetachDisk { disk, .. } => change_disks(
            alloc,
            row,
            DiskChange::One(*disk, Change::LetGo),
        ),
        Call::MountDisk { disk, .. } => change_disks(
            alloc,
            row,
            DiskChange::One(*disk, Change::Mount),
        ),
        Call::UnmountDisk { disk, .. } => change_disks(
            alloc,
            row,
            DiskChange::One(*disk, Change::Unmount),
        ),
        Call::MigrateDisk { from, to, .. } => migrate(alloc, row, *from, *to),
        Call::Start { .. } => with_jobs(row, true, false),
        Call::Drain { .. } => with_jobs(row, row.running, true),
        Call::Stop { .. } => with_jobs(row, false, row.drained),
        _ => {}
    }
    Ok(())
}

fn with_gone(alloc: Global, row: &mut Row, call: &Call)
    ensures { row.new ≡ row_at_gone call.now row.old }
{
    match call {
        Call::Ping { .. } => row.lost = true,
        Call::DeleteVm { .. } if row.lost => without_machine(alloc, row),
        _ => clear_doubt(row),
    }
}

/// What is recorded of an instance, once the call `n` was answered. A failure tells nothing, and neither does an answer
/// that is not of the call's kind.
pub fn after(
    alloc: Global,
    row: &mut Row,
    n: u64,
    call: &Call,
    answer: &Answer,
) -> Result<(), RowFault>
    ensures ok { OnOk result (row.new ≡ after n call.now answer.now row.old) }
    ensures err { OnErr result (row.new ≡ row.old) }
    ensures succeeds { asks_for_memory call.now answer.now ≡ false → IsOk result }
{
    match answer {
        Answer::Cid(number) => return with_made(alloc, row, n, call, *number),
        Answer::Found(found) => return with_found(alloc, row, call, *found),
        Answer::Done => return with_done(alloc, row, call),
        Answer::Disks(numbers) => with_listed(alloc, row, call, numbers.as_slice()),
        Answer::Facts {
            spec,
            running,
            drained,
        } if matches!(call, Call::GetState { .. }) => return with_facts(
            alloc, row, spec, *running, *drained,
        ),
        Answer::Yes if matches!(call, Call::HasVm { .. }) => clear_doubt(row),
        Answer::No if matches!(call, Call::HasVm { .. }) => without_machine(alloc, row),
        Answer::Gone => with_gone(alloc, row, call),
        _ => {}
    }
    Ok(())
}
