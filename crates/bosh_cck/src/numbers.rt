//! Sets of the numbers of disks and of calls.
ghost use Rattle.std.specs.Prelude.{◌≡◌, ◌||◌, ◌==◌, ℕ, IfOk, OnOk};
ghost use Rattle.std.specs.List.{list_any};
ghost use Rattle.bosh_cck.specs.Loose.{creates_disk, is_among, is_in_doubt, is_in_row, is_orphan, is_recorded, may_have_made};
ghost use Rattle.bosh_cck.specs.Problems.{is_disk};
ghost use Rattle.bosh_cck.specs.Tables.{all_there, has, is_slot_of};

use bosh_base::{Call, Disk, DiskRow, Doubt, Orphan, Row};
use std::alloc::{AllocError, Global};
use std::collections::BTreeSet;

/// Numbers, each of which is looked up in the time of a logarithm.
pub(crate) type Numbers = BTreeSet<u64>;

fn note(number: u64, numbers: &mut Numbers) -> Result<(), AllocError>
    ensures { OnOk result ((n : ℕ) → has numbers.new n ≡ (has numbers.old n || number == n)) }
{
    numbers.insert(number)?;
    Ok(())
}

fn note_slots(slots: &[Option<Disk>], numbers: &mut Numbers) -> Result<(), AllocError>
    ensures { OnOk result ((n : ℕ) → has numbers.new n ≡ (has numbers.old n || list_any (is_slot_of n) slots.now)) }
{
    for slot in slots {
        if let Some(disk) = slot {
            note(disk.disk, numbers)?;
        }
    }
    Ok(())
}

/// The numbers of the disks that are there.
pub(crate) fn disks_there(alloc: Global, slots: &[Option<Disk>]) -> Result<Numbers, AllocError>
    ensures { IfOk result (λ numbers. (n : ℕ) → has numbers n ≡ is_disk (all_there slots.now) n) }
{
    let mut numbers = BTreeSet::new(alloc);
    note_slots(slots, &mut numbers)?;
    Ok(numbers)
}

fn note_disks(disks: &[DiskRow], numbers: &mut Numbers) -> Result<(), AllocError>
    ensures { OnOk result ((n : ℕ) → has numbers.new n ≡ (has numbers.old n || is_among n disks.now)) }
{
    for disk in disks {
        note(disk.disk, numbers)?;
    }
    Ok(())
}

fn note_rows(rows: &[Row], numbers: &mut Numbers) -> Result<(), AllocError>
    ensures { OnOk result ((n : ℕ) → has numbers.new n ≡ (has numbers.old n || is_in_row rows.now n)) }
{
    for row in rows {
        note_disks(row.disks.as_slice(), numbers)?;
    }
    Ok(())
}

fn note_orphans(orphans: &[Orphan], numbers: &mut Numbers) -> Result<(), AllocError>
    ensures { OnOk result ((n : ℕ) → has numbers.new n ≡ (has numbers.old n || is_orphan orphans.now n)) }
{
    for orphan in orphans {
        note(orphan.disk, numbers)?;
    }
    Ok(())
}

/// The numbers of the disks of rows, and of those that are orphans.
pub(crate) fn recorded_disks(
    alloc: Global,
    rows: &[Row],
    orphans: &[Orphan],
) -> Result<Numbers, AllocError>
    ensures { IfOk result (λ numbers. (n : ℕ) → has numbers n ≡ is_recorded rows.now orphans.now n) }
{
    let mut numbers = BTreeSet::new(alloc);
    note_rows(rows, &mut numbers)?;
    note_orphans(orphans, &mut numbers)?;
    Ok(numbers)
}

fn creates_disk(call: &Call) -> bool
    ensures { result ≡ creates_disk call.now }
{
    matches!(call, Call::CreateDisk { .. })
}

fn note_doubt(doubt: &Option<Doubt>, numbers: &mut Numbers) -> Result<(), AllocError>
    ensures { OnOk result ((n : ℕ) → has numbers.new n ≡ (has numbers.old n || may_have_made n doubt.now)) }
{
    match doubt {
        Some(doubt) if creates_disk(&doubt.call) => note(doubt.n, numbers),
        _ => Ok(()),
    }
}

fn note_doubts(rows: &[Row], numbers: &mut Numbers) -> Result<(), AllocError>
    ensures { OnOk result ((n : ℕ) → has numbers.new n ≡ (has numbers.old n || is_in_doubt rows.now n)) }
{
    for row in rows {
        note_doubt(&row.doubt, numbers)?;
    }
    Ok(())
}

/// The numbers of the calls that may have created a disk for a row.
pub(crate) fn doubted_creations(alloc: Global, rows: &[Row]) -> Result<Numbers, AllocError>
    ensures { IfOk result (λ numbers. (n : ℕ) → has numbers n ≡ is_in_doubt rows.now n) }
{
    let mut numbers = BTreeSet::new(alloc);
    note_doubts(rows, &mut numbers)?;
    Ok(numbers)
}
