//! What is recorded of instances, and what is there in the cloud.
use bosh_base::{Disk, DiskRow, DiskWant, Inst, Machine, Make, Role, Row, Spec};
use bosh_book_texts::{push_flag, push_make, push_spec};
use bosh_case_texts::{push_count, push_inst, push_owner};
use bosh_cases::push_parts;
use bosh_records::{LooseDisk, Records};
use std::alloc::{AllocError, Global};

/// Whether machines and disks are told by their numbers.
#[derive(Clone, Copy, Debug, PartialEq, Eq)]
pub enum Numbers {
    /// In the order of their numbers.
    Told,
    /// In the order of what is told.
    LeftOut,
}

/// What is recorded, and what there is in a cloud.
#[derive(Drop)]
pub struct There<'a> {
    pub records: &'a Records,
    pub machines: &'a [Option<Machine>],
    pub disks: &'a [Option<Disk>],
    pub numbers: Numbers,
}

// As `vm-1`, or as `vm`.
fn push_head(
    text: &mut Vec<u8>,
    word: &[u8],
    number: u64,
    numbers: Numbers,
) -> Result<(), AllocError> {
    push_parts(text, &[word])?;
    match numbers {
        Numbers::Told => push_count(text, b"-", number),
        Numbers::LeftOut => Ok(()),
    }
}

fn push_spec_if_any(text: &mut Vec<u8>, spec: Option<&Spec>) -> Result<(), AllocError> {
    match spec {
        Some(spec) => push_spec(text, spec),
        None => push_parts(text, &[b" no spec"]),
    }
}

fn push_state(
    text: &mut Vec<u8>,
    spec: Option<&Spec>,
    running: bool,
    drained: bool,
) -> Result<(), AllocError> {
    push_spec_if_any(text, spec)?;
    push_flag(text, b" running", running)?;
    push_flag(text, b" drained", drained)
}

// As `vm-1 dep/web/0 z1 10.0.0.10 - running`.
fn push_machine(text: &mut Vec<u8>, machine: &Machine, numbers: Numbers) -> Result<(), AllocError> {
    push_head(text, b"vm", machine.vm, numbers)?;
    push_owner(text, b" ", &machine.owner)?;
    push_make(text, &machine.make)?;
    push_state(
        text,
        machine.spec.as_ref(),
        machine.running,
        machine.drained,
    )?;
    push_flag(text, b" silent", machine.silent)
}

fn push_size(text: &mut Vec<u8>, want: &DiskWant) -> Result<(), AllocError> {
    push_count(text, b" ", u64::from(want.size))
}

fn is_attached(machines: &[Option<Machine>], disk: u64) -> bool {
    machines
        .iter()
        .filter_map(|slot| slot.as_ref())
        .any(|machine| machine.attached.iter().any(|it| *it == disk))
}

fn is_mounted(machines: &[Option<Machine>], disk: u64) -> bool {
    machines
        .iter()
        .filter_map(|slot| slot.as_ref())
        .any(|machine| machine.mounted.iter().any(|it| *it == disk))
}

fn push_place(text: &mut Vec<u8>, attached: bool, mounted: bool) -> Result<(), AllocError> {
    push_flag(text, b" attached", attached && !mounted)?;
    push_flag(text, b" mounted", mounted)
}

// As ` hello`, where it holds something.
fn push_contents(text: &mut Vec<u8>, contents: &[u8]) -> Result<(), AllocError> {
    if contents.is_empty() {
        return Ok(());
    }
    push_parts(text, &[b" holds ", contents])
}

// As `disk-1 dep/web/0 10 mounted holds hello`.
fn push_disk(text: &mut Vec<u8>, there: &There<'_>, disk: &Disk) -> Result<(), AllocError> {
    push_head(text, b"disk", disk.disk, there.numbers)?;
    push_owner(text, b" ", &disk.owner)?;
    push_size(text, &disk.want)?;
    push_place(
        text,
        is_attached(there.machines, disk.disk),
        is_mounted(there.machines, disk.disk),
    )?;
    push_contents(text, disk.contents.as_slice())
}

fn role_word(role: Role) -> &'static [u8] {
    match role {
        Role::Active => b" active",
        Role::New => b" new",
        Role::Old => b" old",
    }
}

fn push_disk_row(text: &mut Vec<u8>, disk: &DiskRow) -> Result<(), AllocError> {
    push_parts(text, &[b" disk"])?;
    push_size(text, &disk.want)?;
    push_parts(text, &[role_word(disk.role)])?;
    push_place(text, disk.attached, disk.mounted)
}

fn push_make_if_any(text: &mut Vec<u8>, make: Option<&Make>) -> Result<(), AllocError> {
    match make {
        Some(make) => push_make(text, make),
        None => Ok(()),
    }
}

// The machine of a row: what it was made from and its state, or that it has none.
fn push_row_machine(text: &mut Vec<u8>, row: &Row) -> Result<(), AllocError> {
    if row.vm.is_none() {
        return push_parts(text, &[b" without machine"]);
    }
    push_make_if_any(text, row.make.as_ref())?;
    push_state(text, row.spec.as_ref(), row.running, row.drained)
}

// As `row dep/web/0 z1 10.0.0.10 - running disk 10 active mounted`.
fn push_row(text: &mut Vec<u8>, inst: &Inst, row: &Row) -> Result<(), AllocError> {
    push_inst(text, b"row ", inst)?;
    push_row_machine(text, row)?;
    push_flag(text, b" lost", row.lost)?;
    push_flag(text, b" in doubt", row.doubt.is_some())?;
    for disk in row.disks.iter() {
        push_disk_row(text, disk)?;
    }
    Ok(())
}

// Adds a line.
fn add_line(
    lines: &mut Vec<Vec<u8>>,
    line: Vec<u8>,
    told: Result<(), AllocError>,
) -> Result<(), AllocError> {
    told?;
    Ok(lines.push(line)?)
}

fn add_rows(alloc: Global, lines: &mut Vec<Vec<u8>>, there: &There<'_>) -> Result<(), AllocError> {
    for (inst, instance) in there.records.instances() {
        if let Some(row) = &instance.row {
            let mut line = Vec::new(alloc);
            let told = push_row(&mut line, inst, row);
            add_line(lines, line, told)?;
        }
    }
    Ok(())
}

fn add_machines(
    alloc: Global,
    lines: &mut Vec<Vec<u8>>,
    there: &There<'_>,
) -> Result<(), AllocError> {
    for slot in there.machines {
        if let Some(machine) = slot {
            let mut line = Vec::new(alloc);
            let told = push_machine(&mut line, machine, there.numbers);
            add_line(lines, line, told)?;
        }
    }
    Ok(())
}

fn add_disks(alloc: Global, lines: &mut Vec<Vec<u8>>, there: &There<'_>) -> Result<(), AllocError> {
    for slot in there.disks {
        if let Some(disk) = slot {
            let mut line = Vec::new(alloc);
            let told = push_disk(&mut line, there, disk);
            add_line(lines, line, told)?;
        }
    }
    Ok(())
}

// As `orphan-1 dep/web/0 10`.
fn push_orphan(text: &mut Vec<u8>, loose: &LooseDisk, numbers: Numbers) -> Result<(), AllocError> {
    push_head(text, b"orphan", loose.orphan.disk, numbers)?;
    push_inst(text, b" ", &loose.orphan.inst)?;
    push_size(text, &loose.orphan.want)?;
    push_flag(text, b" in doubt", loose.orphan.doubt.is_some())
}

fn add_orphans(
    alloc: Global,
    lines: &mut Vec<Vec<u8>>,
    there: &There<'_>,
) -> Result<(), AllocError> {
    for (_disk, slot) in there.records.orphans() {
        if let Some(loose) = slot {
            let mut line = Vec::new(alloc);
            let told = push_orphan(&mut line, loose, there.numbers);
            add_line(lines, line, told)?;
        }
    }
    Ok(())
}

fn add_all(alloc: Global, lines: &mut Vec<Vec<u8>>, there: &There<'_>) -> Result<(), AllocError> {
    add_rows(alloc, lines, there)?;
    add_machines(alloc, lines, there)?;
    add_disks(alloc, lines, there)?;
    add_orphans(alloc, lines, there)
}

fn push_lines(text: &mut Vec<u8>, lines: &[Vec<u8>]) -> Result<(), AllocError> {
    if lines.is_empty() {
        return push_parts(text, &[b" nothing"]);
    }
    for line in lines {
        push_parts(text, &[b"\n  ", line.as_slice()])?;
    }
    Ok(())
}

/// Adds what is there, each on a line: the rows of instances, the machines, the disks, and the orphaned disks.
pub fn push_there(alloc: Global, text: &mut Vec<u8>, there: &There<'_>) -> Result<(), AllocError> {
    let mut lines = Vec::new(alloc);
    add_all(alloc, &mut lines, there)?;
    match there.numbers {
        Numbers::Told => {}
        Numbers::LeftOut => lines.sort()?,
    }
    push_lines(text, lines.as_slice())
}
