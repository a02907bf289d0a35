//! What is wrong with rows.
ghost use Rattle.std.specs.Prelude.{◌≡◌, ◌∷◌, ◌++◌, [], OnOk};
ghost use Rattle.std.specs.List.{flat_map};
ghost use Rattle.bosh_cck.specs.Problems.{missing_among, missing_disks, row_problems};
ghost use Rattle.bosh_cck.specs.Tables.{has, owned_by, seen};

use crate::CckFault;
use crate::machines::add_machines;
use crate::numbers::Numbers;
use crate::owned::Owned;
use bosh_base::{Copyable, DiskRow, Machine, Problem, Row};
use std::alloc::Global;

// Adds that a recorded disk is not there.
fn add_missing_disk(
    alloc: Global,
    row: &Row,
    disk: &DiskRow,
    there: &Numbers,
    problems: &mut Vec<Problem>,
) -> Result<(), CckFault>
    ensures { OnOk result (problems.new.items
        ≡ problems.old.items ++ missing_among (has there.now) row.now.inst (disk.now ∷ [])) }
{
    if there.contains(&disk.disk) {
        return Ok(());
    }
    let inst = row.inst.copy(alloc)?;
    let disk = disk.disk;
    problems.push(Problem::MissingDisk { inst, disk })?;
    Ok(())
}

fn add_missing_disks(
    alloc: Global,
    row: &Row,
    there: &Numbers,
    problems: &mut Vec<Problem>,
) -> Result<(), CckFault>
    ensures { OnOk result (problems.new.items ≡ problems.old.items ++ missing_disks (has there.now) row.now) }
{
    for disk in row.disks.as_slice() {
        add_missing_disk(alloc, row, disk, there, problems)?;
    }
    Ok(())
}

fn add_doubt(alloc: Global, row: &Row, n: u64, problems: &mut Vec<Problem>) -> Result<(), CckFault>
    ensures { OnOk result (problems.new.items ≡ problems.old.items ++ Problem.InDoubt row.now.inst n ∷ []) }
{
    let inst = row.inst.copy(alloc)?;
    problems.push(Problem::InDoubt { inst, n })?;
    Ok(())
}

fn add_row(
    alloc: Global,
    row: &Row,
    own: &[&Machine],
    there: &Numbers,
    problems: &mut Vec<Problem>,
) -> Result<(), CckFault>
    ensures { OnOk result (problems.new.items
        ≡ problems.old.items ++ row_problems (seen own.now) (has there.now) row.now) }
{
    if let Some(doubt) = &row.doubt {
        return add_doubt(alloc, row, doubt.n, problems);
    }
    add_machines(alloc, row, own, problems)?;
    add_missing_disks(alloc, row, there, problems)
}

// Adds what is wrong with a row, by the machines that a table has under its instance.
fn add_row_by<'a>(
    alloc: Global,
    row: &'a Row,
    owned: &Owned<'a>,
    there: &Numbers,
    problems: &mut Vec<Problem>,
) -> Result<(), CckFault>
    ensures { OnOk result (problems.new.items
        ≡ problems.old.items ++ row_problems (owned_by owned.now row.now.inst) (has there.now) row.now) }
{
    let inst = &row.inst;
    match owned.get(&inst) {
        None => add_row(alloc, row, &[], there, problems),
        Some(own) => add_row(alloc, row, own.as_slice(), there, problems),
    }
}

/// Adds what is wrong with each row. It takes a logarithm of the number of instances for each.
pub(crate) fn add_rows<'a>(
    alloc: Global,
    rows: &'a [Row],
    owned: &Owned<'a>,
    there: &Numbers,
    problems: &mut Vec<Problem>,
) -> Result<(), CckFault>
    ensures { OnOk result (problems.new.items ≡ problems.old.items
        ++ flat_map (λ row. row_problems (owned_by owned.now row.inst) (has there.now) row) rows.now) }
{
    for row in rows {
        add_row_by(alloc, row, owned, there, problems)?;
    }
    Ok(())
}
