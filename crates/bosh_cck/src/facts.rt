//! In what a row and its machine differ.
ghost use Rattle.std.specs.Prelude.{◌≡◌, ◌++◌, ℕ, List, OnOk, nat_eq, filter, map};
ghost use Rattle.std.specs.Cmp.Lexicographic.{pointwise};
ghost use Rattle.bosh_cck.specs.Held.{is_held, held_numbers};
ghost use Rattle.bosh_cck.specs.Problems.{fact, facts_of, same_disks};

use crate::CckFault;
use bosh_base::{Copyable, DiskRow, Machine, Problem, Row, What};
use std::alloc::Global;

/// How a machine holds a disk.
#[derive(Clone, Copy)]
pub(crate) enum Hold {
    Attached,
    Mounted,
}

impl Hold {
    fn has(self, disk: &DiskRow) -> bool
        ensures { result ≡ is_held self disk.now }
    {
        match self {
            Hold::Attached => disk.attached,
            Hold::Mounted => disk.mounted,
        }
    }
}

// The numbers are just those of the disks that are held so.
fn are_held(hold: Hold, numbers: &[u64], disks: &[DiskRow]) -> bool
    ensures { result ≡ pointwise nat_eq numbers.now (held_numbers hold disks.now) }
{
    let mut rest = numbers;
    for disk in disks {
        if hold.has(disk) {
            match rest {
                [first, others @ ..] if *first == disk.disk => rest = others,
                _ => return false,
            }
        }
    }
    rest.is_empty()
}

fn same_disks(row: &Row, machine: &Machine) -> bool
    ensures { result ≡ same_disks row.now machine.now }
{
    let disks = row.disks.as_slice();
    are_held(Hold::Attached, machine.attached.as_slice(), disks)
        && are_held(Hold::Mounted, machine.mounted.as_slice(), disks)
}

fn add_fact(
    alloc: Global,
    row: &Row,
    what: What,
    same: bool,
    problems: &mut Vec<Problem>,
) -> Result<(), CckFault>
    ensures { OnOk result (problems.new.items ≡ problems.old.items ++ fact row.now what same) }
{
    if same {
        return Ok(());
    }
    let inst = row.inst.copy(alloc)?;
    problems.push(Problem::Facts { inst, what })?;
    Ok(())
}

/// Adds each fact in which a row and its machine differ.
pub(crate) fn add_facts(
    alloc: Global,
    row: &Row,
    machine: &Machine,
    problems: &mut Vec<Problem>,
) -> Result<(), CckFault>
    ensures { OnOk result (problems.new.items ≡ problems.old.items ++ facts_of row.now machine.now) }
{
    add_fact(alloc, row, What::Spec, machine.spec == row.spec, problems)?;
    add_fact(
        alloc,
        row,
        What::Running,
        machine.running == row.running,
        problems,
    )?;
    add_fact(
        alloc,
        row,
        What::Drained,
        machine.drained == row.drained,
        problems,
    )?;
    add_fact(alloc, row, What::Disks, same_disks(row, machine), problems)
}
