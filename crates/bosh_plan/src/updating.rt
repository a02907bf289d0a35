ghost use Rattle.std.specs.Prelude.{◌≡◌, ◌++◌, None, IfOk, OnOk};
ghost use Rattle.bosh_records.specs.Recorded.{kept, recorded};
ghost use Rattle.bosh_plan.specs.Roomy.{roomy_for_disks};
ghost use Rattle.bosh_plan.specs.Updated.{left_gone, left_updated, orphan_of, orphans_of, row_updated};

use crate::fault::recorded;
use bosh_base::{Copyable, DiskRow, Inst, Orphan, Row, Seq, Update};
use bosh_drops::beside;
use bosh_records::{Records, RecordsFault};
use bosh_rows::update_done;
use std::alloc::Global;

/// What the end of an update, or the leaving of an instance, changes: what is recorded of it then, and the disks that
/// it leaves behind.
#[derive(Drop)]
pub struct Updated {
    pub row: Option<Row>,
    pub left: Vec<Orphan>,
}

/// What the end of an update changes. Room is made for it, and what is recorded stays as it is.
pub fn plan_update_done(records: &mut Records, update: &Update) -> Result<Updated, RecordsFault>
    ensures row { IfOk result (λ it. it.row ≡ row_updated records.old update.now.inst) }
    ensures left { IfOk result (λ it. it.left.items ≡ left_updated records.old update.now.inst) }
    ensures room { OnOk result (recorded records.new
        ≡ roomy_for_disks (left_updated records.old update.now.inst) (recorded records.old)) }
    ensures alike { kept (recorded records.new) ≡ kept (recorded records.old) }
{
    let updated = row_and_disks(records, update)?;
    let room = ensure_disks(records, updated.left.as_slice());
    let (updated, ()) = beside(updated, room)?;
    Ok(updated)
}

fn row_and_disks(records: &Records, update: &Update) -> Result<Updated, RecordsFault>
    ensures row { IfOk result (λ it. it.row ≡ row_updated records.now update.now.inst) }
    ensures left { IfOk result (λ it. it.left.items ≡ left_updated records.now update.now.inst) }
{
    let mut left = Vec::new(records.alloc);
    let row = row_updated(records, &update.inst, &mut left)?;
    Ok(Updated { row, left })
}

fn row_updated(
    records: &Records,
    inst: &Inst,
    left: &mut Vec<Orphan>,
) -> Result<Option<Row>, RecordsFault>
    ensures row { IfOk result (λ row. row ≡ row_updated records.now inst.now) }
    ensures left { OnOk result (left.new.items ≡ left.old.items ++ left_updated records.now inst.now) }
{
    let (Some(row), Some(want)) = (records.row(inst), records.want_of(inst)) else {
        return Ok(None);
    };
    let mut row = row.copy(records.alloc)?;
    let disks = update_done(records.alloc, &mut row, want);
    let (row, disks) = beside(row, recorded(disks))?;
    let (row, ()) = beside(row, orphan(records.alloc, inst, &disks, left))?;
    Ok(Some(row))
}

/// What it changes that an obsolete instance has nothing left. Room is made for it, and what is recorded stays as it
/// is.
pub fn plan_gone(records: &mut Records, update: &Update) -> Result<Updated, RecordsFault>
    ensures row { IfOk result (λ it. it.row ≡ None) }
    ensures left { IfOk result (λ it. it.left.items ≡ left_gone records.old update.now.inst) }
    ensures room { OnOk result (recorded records.new
        ≡ roomy_for_disks (left_gone records.old update.now.inst) (recorded records.old)) }
    ensures alike { kept (recorded records.new) ≡ kept (recorded records.old) }
{
    let mut left = Vec::new(records.alloc);
    if let Some(row) = records.row(&update.inst) {
        orphan(records.alloc, &update.inst, &row.disks, &mut left)?;
    }
    ensure_disks(records, left.as_slice())?;
    Ok(Updated { row: None, left })
}

fn ensure_disks(records: &mut Records, left: &[Orphan]) -> Result<(), RecordsFault>
    ensures room { OnOk result (recorded records.new ≡ roomy_for_disks left.now (recorded records.old)) }
    ensures alike { kept (recorded records.new) ≡ kept (recorded records.old) }
{
    for orphan in left {
        records.orphans.ensure(orphan.disk)?;
    }
    Ok(())
}

// The disks belong to no instance from now on.
fn orphan(
    alloc: Global,
    inst: &Inst,
    disks: &Seq<DiskRow>,
    left: &mut Vec<Orphan>,
) -> Result<(), RecordsFault>
    ensures { OnOk result (left.new.items ≡ left.old.items ++ orphans_of inst.now disks.now) }
{
    for disk in disks.iter() {
        left.push(orphan_of(alloc, inst, disk)?)?;
    }
    Ok(())
}

fn orphan_of(alloc: Global, inst: &Inst, disk: &DiskRow) -> Result<Orphan, RecordsFault>
    ensures { IfOk result (λ orphan. orphan ≡ orphan_of inst.now disk.now) }
{
    let want = disk.want.copy(alloc)?;
    let inst = inst.copy(alloc)?;
    Ok(Orphan {
        disk: disk.disk,
        want,
        inst,
        doubt: None,
    })
}
