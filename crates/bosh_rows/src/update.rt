ghost use Rattle.std.specs.Prelude.{◌≡◌, ◌∷◌, [], ◌++◌, IfOk, OnErr, OnOk, filter};
ghost use Rattle.bosh_rows.specs.After.{bare, left_behind, updated_row};
ghost use Rattle.bosh_rows.specs.Disks.{stays};
ghost use Rattle.bosh_rows.specs.Standing.{same_truth};

use crate::RowFault;
use crate::answered::without_machine;
use crate::disks::is_active;
use crate::place::put;
use bosh_base::{Copyable, DiskRow, GoalRow, Row, Seq, State};
use std::alloc::Global;
use std::mem;

/// Whether a disk stays with its instance where an update is done.
fn stays(want: &GoalRow, disk: &DiskRow) -> bool
    ensures { result ≡ stays want.now disk.now }
{
    is_active(disk) && (want.disk.is_some() || want.state == State::Detached)
}

fn push_copy(alloc: Global, disks: &mut Seq<DiskRow>, disk: &DiskRow) -> Result<(), RowFault>
    ensures { OnOk result (disks.new ≡ disks.old ++ disk.now ∷ []) }
{
    let copied = disk.copy(alloc)?;
    match disks.push(copied) {
        Ok(()) => Ok(()),
        Err(_) => Err(RowFault::Memory),
    }
}

// Those that stay, or those that do not.
fn disks_where(
    alloc: Global,
    disks: &[DiskRow],
    want: &GoalRow,
    staying: bool,
) -> Result<Seq<DiskRow>, RowFault>
    ensures { IfOk result (λ some. some ≡ filter (λ d. same_truth staying (stays want.now d)) disks.now) }
{
    let mut some = Seq::new(alloc);
    for disk in disks {
        if stays(want, disk) == staying {
            push_copy(alloc, &mut some, disk)?;
        }
    }
    Ok(some)
}

/// The update of an instance is done, as it is wanted: it keeps the disks that stay with it, and the others, which are
/// given back, are orphaned.
pub fn update_done(alloc: Global, row: &mut Row, want: &GoalRow) -> Result<Seq<DiskRow>, RowFault>
    ensures left { IfOk result (λ left. left ≡ left_behind want.now row.old) }
    ensures ok { OnOk result (row.new ≡ updated_row want.now row.old) }
    ensures err { OnErr result (row.new ≡ row.old) }
{
    let kept = disks_where(alloc, row.disks.as_slice(), want, true)?;
    let left = disks_where(alloc, row.disks.as_slice(), want, false)?;
    put(&mut row.disks, kept);
    Ok(left)
}

/// An instance is gone: nothing is recorded of it any more, and its disks, which are given back, are all orphaned. It
/// takes no memory.
pub fn instance_gone(alloc: Global, row: &mut Row) -> Seq<DiskRow>
    ensures left { result ≡ row.old.disks }
    ensures bare { row.new ≡ bare row.old.inst }
{
    let left = mem::replace(&mut row.disks, Seq::new(alloc));
    without_machine(alloc, row);
    put(&mut row.make, None);
    left
}
