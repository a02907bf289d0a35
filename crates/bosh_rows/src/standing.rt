ghost use Rattle.std.specs.Prelude.{◌≡◌, ◌↔◌, IsTrue};
ghost use Rattle.std.specs.Option.{option_copied};
ghost use Rattle.bosh_rows.specs.Standing.{IsStanding, has_disks, has_machine, has_nothing, is_put_away, is_up};

use crate::disks::{are_active, is_active};
use crate::tending::is_in_place;
use bosh_base::{DiskRow, DiskWant, GoalRow, Row, State};

fn has_nothing(row: &Row) -> bool
    ensures { result ≡ has_nothing row.now }
{
    row.doubt.is_none() && row.vm.is_none() && row.disks.is_empty()
}

fn is_put_away(row: &Row) -> bool
    ensures { result ≡ is_put_away row.now }
{
    row.doubt.is_none() && row.vm.is_none() && are_active(row.disks.as_slice())
}

fn has_machine(want: &GoalRow, row: &Row) -> bool
    ensures { result ≡ has_machine want.now row.now row.now.vm }
{
    let Some(vm) = row.vm else {
        return false;
    };
    row.make.as_ref() == Some(&want.make)
        && want.fresh_after < vm.agent
        && row.spec.as_ref() == Some(&want.spec)
        && row.running == (want.state == State::Running)
}

fn has_disks(wanted: Option<&DiskWant>, disks: &[DiskRow]) -> bool
    ensures { result ≡ has_disks (option_copied wanted.entry) disks.now }
{
    match (wanted, disks) {
        (None, []) => true,
        (Some(wanted), [disk]) => is_active(disk) && is_in_place(wanted, disk),
        _ => false,
    }
}

fn is_up(want: &GoalRow, row: &Row) -> bool
    ensures { result ≡ is_up want.now row.now }
{
    row.doubt.is_none()
        && !row.lost
        && has_machine(want, row)
        && has_disks(want.disk.as_ref(), row.disks.as_slice())
}

/// Whether an instance stands as it is wanted, so that nothing has to be done for it. Without a want it stands where it
/// has nothing.
pub fn stands(want: Option<&GoalRow>, row: &Row) -> bool
    ensures { IsTrue result ↔ IsStanding (option_copied want.entry) row.now }
{
    match want {
        None => has_nothing(row),
        Some(want) if want.state == State::Detached => is_put_away(row),
        Some(want) => is_up(want, row),
    }
}
