//! Where the records of a deployment and the cloud differ.
ghost use Rattle.std.specs.Prelude.{◌≡◌, ◌++◌, IfOk, OnOk};
ghost use Rattle.std.specs.Option.{option_copied, option_to_list};
ghost use Rattle.bosh_answers.specs.Checks.{all_stand, check_reply, no_deployment, orphan_in, orphans_of, problems_reply, rows_of, tells_none};
ghost use Rattle.bosh_cck.specs.Problems.{AreApart, all_agree};
ghost use Rattle.bosh_cck.specs.Tables.{all_there};
ghost use Rattle.bosh_shown.specs.Instances.{row_in};

use crate::{AnswerFault, refused};
use bosh_asks::BookFault;
use bosh_base::{Copyable, Disk, Inst, Machine, Name, Orphan, Reply, Row};
use bosh_cck::examine;
use bosh_records::{Instance, LooseDisk, Records};
use std::alloc::Global;

fn no_deployment(alloc: Global, dep: &Name) -> Result<Reply, AnswerFault>
    ensures { IfOk result (λ reply. reply ≡ no_deployment dep.now) }
{
    match dep.copy(alloc) {
        Ok(name) => refused(alloc, BookFault::NoDeployment { name }),
        Err(_) => Err(AnswerFault::Memory),
    }
}

/// Lists where the records of a deployment and the cloud differ, where the deployment is recorded.
pub fn check_cloud(
    alloc: Global,
    dep: &Name,
    records: &Records,
    machines: &[Option<Machine>],
    disks: &[Option<Disk>],
) -> Result<Reply, AnswerFault>
    ensures listed { IfOk result (λ reply. reply ≡ check_reply dep.now records.now machines.now disks.now) }
    ensures none { AreApart (all_there machines.now) → IfOk result (λ reply.
        tells_none reply ≡ all_stand dep.now records.now machines.now disks.now) }
{
    if records.deployment(dep).is_some() {
        examined(alloc, dep, records, machines, disks)
    } else {
        no_deployment(alloc, dep)
    }
}

fn examined(
    alloc: Global,
    dep: &Name,
    records: &Records,
    machines: &[Option<Machine>],
    disks: &[Option<Disk>],
) -> Result<Reply, AnswerFault>
    ensures listed { IfOk result (λ reply. reply ≡ problems_reply dep.now records.now machines.now disks.now) }
    ensures none { AreApart (all_there machines.now) → IfOk result (λ reply. tells_none reply
        ≡ all_agree dep.now (rows_of dep.now records.now.instances.by_inst.entries)
        (orphans_of dep.now records.now.orphans.places.entries) (all_there machines.now) (all_there disks.now)) }
{
    let rows = rows_of(alloc, records, dep)?;
    let orphans = orphans_of(alloc, records, dep)?;
    let problems = examine(
        alloc,
        dep,
        rows.as_slice(),
        orphans.as_slice(),
        machines,
        disks,
    )?;
    Ok(Reply::Problems(problems))
}

fn row_of<'a>(dep: &Name, inst: &Inst, instance: &'a Instance) -> Option<&'a Row>
    ensures { option_copied result ≡ row_in dep.now (inst.now, instance.now) }
{
    if inst.dep == *dep {
        instance.row.as_ref()
    } else {
        None
    }
}

fn push_row(alloc: Global, row: Option<&Row>, rows: &mut Vec<Row>) -> Result<(), AnswerFault>
    ensures { OnOk result (rows.new.items ≡ rows.old.items ++ option_to_list (option_copied row.entry)) }
{
    if let Some(row) = row {
        rows.push(row.copy(alloc)?)?;
    }
    Ok(())
}

// The recorded instances of a deployment.
fn rows_of(alloc: Global, records: &Records, dep: &Name) -> Result<Vec<Row>, AnswerFault>
    ensures { IfOk result (λ rows. rows.items ≡ rows_of dep.now records.now.instances.by_inst.entries) }
{
    let mut rows = Vec::new(alloc);
    for (inst, instance) in records.instances() {
        push_row(alloc, row_of(dep, inst, instance), &mut rows)?;
    }
    Ok(rows)
}

fn orphan_in<'a>(dep: &Name, disk: Option<&'a LooseDisk>) -> Option<&'a Orphan>
    ensures { option_copied result ≡ orphan_in dep.now (option_copied disk.entry) }
{
    let disk = disk?;
    if disk.orphan.inst.dep == *dep {
        Some(&disk.orphan)
    } else {
        None
    }
}

fn push_orphan(
    alloc: Global,
    orphan: Option<&Orphan>,
    orphans: &mut Vec<Orphan>,
) -> Result<(), AnswerFault>
    ensures { OnOk result (orphans.new.items ≡ orphans.old.items ++ option_to_list (option_copied orphan.entry)) }
{
    if let Some(orphan) = orphan {
        orphans.push(orphan.copy(alloc)?)?;
    }
    Ok(())
}

// The orphaned disks of a deployment.
fn orphans_of(alloc: Global, records: &Records, dep: &Name) -> Result<Vec<Orphan>, AnswerFault>
    ensures { IfOk result (λ orphans. orphans.items ≡ orphans_of dep.now records.now.orphans.places.entries) }
{
    let mut orphans = Vec::new(alloc);
    for (_, disk) in records.orphans() {
        push_orphan(alloc, orphan_in(dep, disk.as_ref()), &mut orphans)?;
    }
    Ok(orphans)
}
