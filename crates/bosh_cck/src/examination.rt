//! The examination of a deployment.
ghost use Rattle.std.specs.Prelude.{◌≡◌, ◌++◌, IfOk, OnOk};
ghost use Rattle.bosh_rows.specs.Standing.{is_empty};
ghost use Rattle.bosh_cck.specs.Problems.{AreApart, all_row_problems, all_agree, loose_disks, problems};
ghost use Rattle.bosh_cck.specs.Tables.{all_there};

use crate::CckFault;
use crate::loose::add_loose;
use crate::numbers::{disks_there, doubted_creations, recorded_disks};
use crate::owned::by_instance;
use crate::rows::add_rows;
use bosh_base::{Disk, Machine, Name, Orphan, Problem, Row, Seq};
use std::alloc::Global;

// Adds what is wrong with the rows.
fn examine_rows<'a>(
    alloc: Global,
    rows: &'a [Row],
    machines: &'a [Option<Machine>],
    disks: &[Option<Disk>],
    problems: &mut Vec<Problem>,
) -> Result<(), CckFault>
    ensures { OnOk result (problems.new.items
        ≡ problems.old.items ++ all_row_problems rows.now (all_there machines.now) (all_there disks.now)) }
{
    let owned = by_instance(alloc, machines)?;
    let there = disks_there(alloc, disks)?;
    add_rows(alloc, rows, &owned, &there, problems)
}

// Adds the loose disks.
fn examine_disks(
    alloc: Global,
    dep: &Name,
    rows: &[Row],
    orphans: &[Orphan],
    disks: &[Option<Disk>],
    problems: &mut Vec<Problem>,
) -> Result<(), CckFault>
    ensures { OnOk result (problems.new.items
        ≡ problems.old.items ++ loose_disks dep.now rows.now orphans.now (all_there disks.now)) }
{
    let recorded = recorded_disks(alloc, rows, orphans)?;
    let doubted = doubted_creations(alloc, rows)?;
    add_loose(dep, &recorded, &doubted, disks, problems)
}

/// What differs between the records of a deployment and the cloud: the problems of each row, in the order of the rows,
/// and then the disks that an instance of the deployment owns and that are recorded nowhere. `rows` and `orphans` are
/// those of the deployment, `machines` and `disks` the slots of the cloud, by number; what is found of several machines
/// or disks stands in their order. It takes a logarithm for each row, machine and disk.
pub fn examine(
    alloc: Global,
    dep: &Name,
    rows: &[Row],
    orphans: &[Orphan],
    machines: &[Option<Machine>],
    disks: &[Option<Disk>],
) -> Result<Seq<Problem>, CckFault>
    ensures listed { IfOk result (λ found.
        found ≡ problems dep.now rows.now orphans.now (all_there machines.now) (all_there disks.now)) }
    ensures none { AreApart (all_there machines.now) → IfOk result (λ found. is_empty found
        ≡ all_agree dep.now rows.now orphans.now (all_there machines.now) (all_there disks.now)) }
{
    let mut problems = Vec::new(alloc);
    examine_rows(alloc, rows, machines, disks, &mut problems)?;
    examine_disks(alloc, dep, rows, orphans, disks, &mut problems)?;
    Ok(Seq::from(problems))
}
