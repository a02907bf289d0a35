//! What is done on a machine that is wanted.
ghost use Rattle.std.specs.Prelude.{◌≡◌, ◌&&◌, ◌||◌, not};
ghost use Rattle.std.specs.List.{list_any};
ghost use Rattle.std.specs.Option.{option_copied};
ghost use Rattle.bosh_rows.specs.Disks.{is_active, is_spare};
ghost use Rattle.bosh_rows.specs.Group.{is_in};
ghost use Rattle.bosh_rows.specs.NextStep.{applying, clearing, disk_step, has_to_stop, is_disk_settled, is_in_place, pausing, placing, providing, releasing, replacing, spec_differs, starting, tending};

use crate::Step;
use crate::disks::{active, coming, is_active, is_right};
use crate::group::Group;
use bosh_base::{DiskRow, DiskWant, GoalRow, Method, Row, State};

fn spec_differs(want: &GoalRow, row: &Row) -> bool
    ensures { result ≡ spec_differs want.now row.now }
{
    row.spec.as_ref() != Some(&want.spec)
}

/// Whether a disk is as it is wanted, attached and mounted.
pub(crate) fn is_in_place(wanted: &DiskWant, disk: &DiskRow) -> bool
    ensures { result ≡ is_in_place wanted.now disk.now }
{
    is_right(wanted, disk) && disk.attached && disk.mounted
}

fn is_disk_settled(wanted: Option<&DiskWant>, disks: &[DiskRow]) -> bool
    ensures { result ≡ is_disk_settled (option_copied wanted.entry) disks.now }
{
    match (wanted, active(disks)) {
        (Some(wanted), Some(disk)) => is_in_place(wanted, disk),
        (Some(_), None) => false,
        (None, Some(disk)) => !disk.attached,
        (None, None) => true,
    }
}

fn spare_disks<'a>(want: &GoalRow, row: &'a Row) -> Group<'a>
    ensures { is_in result ≡ is_spare want.now.disk row.now.disks }
{
    match &want.disk {
        Some(wanted) => Group::Spare(coming(wanted, row.disks.as_slice())),
        None => Group::Spare(None),
    }
}

// Whether a spare disk is attached, or one that is not active is mounted.
fn shows_others(disks: &[DiskRow], spare: Group<'_>) -> bool
    ensures { result
        ≡ list_any (λ d. (is_in spare.entry d && d.attached) || (not (is_active d) && d.mounted)) disks.now }
{
    disks.iter().any(|disk| (spare.has(disk) && disk.attached)
        || (!is_active(disk) && disk.mounted))
}

/// Whether something is to be done that a running job must not see.
fn has_to_stop(want: &GoalRow, row: &Row) -> bool
    ensures { result ≡ has_to_stop want.now row.now }
{
    spec_differs(want, row)
        || want.state != State::Running
        || !is_disk_settled(want.disk.as_ref(), row.disks.as_slice())
        || shows_others(row.disks.as_slice(), spare_disks(want, row))
}

/// 4. A running machine is drained and stopped first.
fn pausing(want: &GoalRow, row: &Row) -> Option<Step>
    ensures { result ≡ pausing want.now row.now }
{
    if !row.running || !has_to_stop(want, row) {
        return None;
    }
    Some(Step::plain(if row.drained {
        Method::Stop
    } else {
        Method::Drain
    }))
}

/// 5. Spare disks are unmounted and detached.
fn clearing(want: &GoalRow, row: &Row) -> Option<Step>
    ensures { result ≡ clearing want.now row.now }
{
    spare_disks(want, row).letting_go(row.disks.as_slice())
}

/// 6. Where no disk is wanted, the active one is unmounted and detached.
fn releasing(row: &Row) -> Option<Step>
    ensures { result ≡ releasing row.now }
{
    Group::Active.letting_go(row.disks.as_slice())
}

/// 7. Where a disk is wanted and there is no active one, it is created; 8 and 9 speak of the active one.
fn providing(wanted: &DiskWant, disks: &[DiskRow], active: Option<&DiskRow>) -> Option<Step>
    ensures { result ≡ providing wanted.now disks.now (option_copied active.entry) }
{
    match active {
        None => Some(Step::plain(Method::CreateDisk)),
        Some(old) if is_right(wanted, old) => placing(old),
        Some(old) => placing(old).or(replacing(coming(wanted, disks))),
    }
}

/// 8. A disk is attached and mounted.
fn placing(disk: &DiskRow) -> Option<Step>
    ensures { result ≡ placing disk.now }
{
    if !disk.attached {
        return Some(Step::with_disk(Method::AttachDisk, disk));
    }
    if !disk.mounted {
        return Some(Step::with_disk(Method::MountDisk, disk));
    }
    None
}

/// 9. An active disk that is not right has its contents moved to a new one.
fn replacing(new: Option<&DiskRow>) -> Option<Step>
    ensures { result ≡ replacing (option_copied new.entry) }
{
    match new {
        Some(new) => placing(new).or(Some(Step::with_disk(Method::MigrateDisk, new))),
        None => Some(Step::plain(Method::CreateDisk)),
    }
}

/// 10. The spec that is wanted is applied.
fn applying(want: &GoalRow, row: &Row) -> Option<Step>
    ensures { result ≡ applying want.now row.now }
{
    if spec_differs(want, row) {
        return Some(Step::plain(Method::Apply));
    }
    None
}

/// 11. The machine is started.
fn starting(want: &GoalRow, row: &Row) -> Option<Step>
    ensures { result ≡ starting want.now row.now }
{
    if want.state == State::Running && !row.running {
        return Some(Step::plain(Method::Start));
    }
    None
}

fn disk_step(want: &GoalRow, row: &Row) -> Option<Step>
    ensures { result ≡ disk_step want.now row.now want.now.disk }
{
    let disks = row.disks.as_slice();
    match &want.disk {
        Some(wanted) => providing(wanted, disks, active(disks)),
        None => releasing(row),
    }
}

/// The first of the rules 4 to 11 that applies.
pub(crate) fn tending(want: &GoalRow, row: &Row) -> Option<Step>
    ensures { result ≡ tending want.now row.now }
{
    pausing(want, row)
        .or(clearing(want, row))
        .or(disk_step(want, row))
        .or(applying(want, row))
        .or(starting(want, row))
}
