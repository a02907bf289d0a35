ghost use Rattle.std.specs.Prelude.{◌≡◌, ◌∷◌, [], IfErr, IfOk, None, OnOk, true};
ghost use Rattle.bosh_asks.specs.Cause.{IsCause};
ghost use Rattle.bosh_asks.specs.Known.{is_orphaned, lock_holder};
ghost use Rattle.bosh_asks.specs.Opened.{CleansUp, disks_alone};
ghost use Rattle.bosh_asks.specs.Over.{CleansUpOver, HasNone};
ghost use Rattle.bosh_asks.specs.Recorded.{loose};
ghost use Rattle.bosh_asks.specs.Refused.{RefusesCleanUp, RefusesDisk};

use crate::BookFault;
use crate::locks::check_free;
use crate::plan::{Plan, disks_alone};
use bosh_base::Seq;
use bosh_records::{LooseDisk, Records};
use std::alloc::{AllocError, Global};
use std::collections::btree_map::Iter;

fn check_orphaned(records: &Records, disk: u64) -> Result<(), BookFault>
    ensures named { OnOk result (is_orphaned records.now disk ≡ true) }
    ensures err { IfErr result (RefusesDisk disk) }
    ensures cause { IfErr result (IsCause records.now (is_orphaned records.now disk ≡ true) None HasNone) }
{
    if records.orphan(disk).is_some() {
        return Ok(());
    }
    if records.disk_owner(disk).is_some() {
        return Err(BookFault::NotOrphaned { disk });
    }
    Err(BookFault::NoDisk { disk })
}

fn one(alloc: Global, disk: u64) -> Result<Seq<u64>, AllocError>
    ensures { IfOk result (λ disks. disks ≡ disk ∷ []) }
{
    let mut disks = Vec::new(alloc);
    disks.push(disk)?;
    Ok(Seq::from(disks))
}

/// An orphaned disk is deleted.
pub(crate) fn disk_plan(alloc: Global, records: &Records, disk: u64) -> Result<Plan, BookFault>
    ensures free { OnOk result (lock_holder records.now None ≡ None) }
    ensures named { OnOk result (is_orphaned records.now disk ≡ true) }
    ensures ok { IfOk result (λ plan. plan ≡ disks_alone (disk ∷ [])) }
    ensures err { IfErr result (RefusesDisk disk) }
    ensures cause { IfErr result (IsCause records.now (is_orphaned records.now disk ≡ true) None HasNone) }
{
    check_orphaned(records, disk)?;
    check_free(records.tasks(), None)?;
    Ok(disks_alone(alloc, one(alloc, disk)?))
}

fn loose(alloc: Global, orphans: Iter<'_, u64, Option<LooseDisk>>) -> Result<Seq<u64>, AllocError>
    ensures { IfOk result (λ disks. disks ≡ loose orphans.entry) }
{
    let mut disks = Vec::new(alloc);
    for (disk, it) in orphans {
        if it.is_some() {
            disks.push(*disk)?;
        }
    }
    Ok(Seq::from(disks))
}

/// All orphaned disks are deleted.
pub(crate) fn clean_up_plan(alloc: Global, records: &Records) -> Result<Plan, BookFault>
    ensures free { OnOk result (lock_holder records.now None ≡ None) }
    ensures over { IfOk result (CleansUpOver records.now) }
    ensures ok { IfOk result CleansUp }
    ensures err { IfErr result RefusesCleanUp }
    ensures cause { IfErr result (IsCause records.now (Unit {0}) None HasNone) }
{
    check_free(records.tasks(), None)?;
    Ok(disks_alone(alloc, loose(alloc, records.orphans())?))
}
