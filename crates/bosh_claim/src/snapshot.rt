ghost use Rattle.std.specs.Prelude.{◌≡◌, count_by};
ghost use Rattle.std.specs.List.{list_all, list_any};
ghost use Rattle.std.specs.Option.{option_copied};
ghost use Rattle.bosh_rows.specs.CallOf.{is_doubt_on_machine};
ghost use Rattle.bosh_rows.specs.Disks.{is_active};
ghost use Rattle.bosh_rows.specs.SoundSnapshot.{are_distinct, are_numbered, has_lock, have_locks_of_their_own};
ghost use Rattle.bosh_rows.specs.SoundSnapshot.{is_sound_machine, is_sound_row, is_sound_snapshot, same_disk};

use crate::listed::is_listed_well;
use crate::number::is_next;
use crate::opening::has_lock;
use bosh_base::{Call, CompileRow, DiskRow, Doubt, Role, Row, Seq, Snapshot, TaskRow};

/// Whether a store may begin with a snapshot: what it lists is such as entries leave it.
pub(crate) fn is_sound(snapshot: &Snapshot) -> bool
    ensures { result ≡ is_sound_snapshot snapshot.now }
{
    is_listed_well(snapshot)
        && are_sound_rows(snapshot.rows.as_slice())
        && are_sound_machines(snapshot.compile_rows.as_slice())
        && are_numbered(&snapshot.tasks)
        && have_locks_of_their_own(snapshot.tasks.as_slice())
}

fn are_sound_rows(rows: &[Row]) -> bool
    ensures { result ≡ list_all is_sound_row rows.now }
{
    rows.iter().all(is_sound_row)
}

fn are_sound_machines(rows: &[CompileRow]) -> bool
    ensures { result ≡ list_all is_sound_machine rows.now }
{
    rows.iter().all(is_sound_machine)
}

// A machine is recorded where one was lost, or a call in doubt names one; no disk stands twice, and one at most is
// active.
fn is_sound_row(row: &Row) -> bool
    ensures { result ≡ is_sound_row row.now }
{
    (row.vm.is_some() || (!row.lost && !needs_machine(row.doubt.as_ref())))
        && are_distinct(row.disks.as_slice())
        && actives(row.disks.as_slice()) <= 1
}

fn actives(disks: &[DiskRow]) -> usize
    ensures { result ≡ count_by is_active disks.now }
{
    disks
        .iter()
        .filter(|disk| disk.role == Role::Active)
        .count()
}

fn needs_machine(doubt: Option<&Doubt>) -> bool
    ensures { result ≡ is_doubt_on_machine (option_copied doubt.entry) }
{
    match doubt {
        Some(doubt) => !matches!(doubt.call, Call::CreateVm { .. }),
        None => false,
    }
}

fn are_distinct(disks: &[DiskRow]) -> bool
    ensures { result ≡ are_distinct same_disk disks.now }
{
    let mut left = disks;
    while let [disk, rest @ ..] = left {
        if has_disk(rest, disk) {
            return false;
        }
        left = rest;
    }
    true
}

fn has_disk(disks: &[DiskRow], disk: &DiskRow) -> bool
    ensures { result ≡ list_any (same_disk disk.now) disks.now }
{
    disks.iter().any(|other| disk.disk == other.disk)
}

fn is_sound_machine(row: &CompileRow) -> bool
    ensures { result ≡ is_sound_machine row.now }
{
    row.vm.is_some() || (row.doubt.is_some() && !needs_machine(row.doubt.as_ref()))
}

// They are numbered from 1 on, in order.
fn are_numbered(tasks: &Seq<TaskRow>) -> bool
    ensures { result ≡ are_numbered 0 tasks.now }
{
    let mut last = 0u64;
    for row in tasks.iter() {
        if !is_next(row.task, last) {
            return false;
        }
        last = row.task;
    }
    true
}

// No two open tasks are of one deployment, or of none.
fn have_locks_of_their_own(tasks: &[TaskRow]) -> bool
    ensures { result ≡ have_locks_of_their_own tasks.now }
{
    let mut left = tasks;
    while let [row, rest @ ..] = left {
        if row.end.is_none() && shares_a_lock(row, rest) {
            return false;
        }
        left = rest;
    }
    true
}

fn shares_a_lock(row: &TaskRow, others: &[TaskRow]) -> bool
    ensures { result ≡ list_any (has_lock row.now.dep) others.now }
{
    others.iter().any(|other| has_lock(row.dep.as_ref(), other))
}
