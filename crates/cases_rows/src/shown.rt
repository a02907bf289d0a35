//! Steps and rows in words.
use bosh_base::{DiskRow, Row, Vm};
use bosh_rows::Step;
use cases_words::Told;
use std::fmt;

/// A step: the method, and the disk where there is one.
#[derive(Clone, Copy)]
pub(crate) struct StepTold(pub(crate) Step);

/// A row: its parts, or `nothing`.
#[derive(Clone, Copy)]
pub(crate) struct RowTold<'a>(pub(crate) &'a Row);

/// The disks of a row, or `none`.
#[derive(Clone, Copy)]
pub(crate) struct DisksTold<'a>(pub(crate) &'a [DiskRow]);

impl fmt::Display for StepTold {
    fn fmt<W: fmt::Write>(&self, f: &mut fmt::Formatter<W>) -> fmt::Result {
        let name = self.0.method.name();
        match self.0.disk {
            Some(disk) => write!(f, "{name} {disk}"),
            None => f.write_str(name),
        }
    }
}

// Adds a part, which is a word and what stands behind it, to those before it.
fn add<W: fmt::Write, T: fmt::Display>(
    f: &mut fmt::Formatter<W>,
    is_first: &mut bool,
    word: &str,
    part: &T,
) -> fmt::Result {
    let before = if *is_first { "" } else { "; " };
    *is_first = false;
    write!(f, "{before}{word}{part}")
}

fn add_if<W: fmt::Write>(
    f: &mut fmt::Formatter<W>,
    is_first: &mut bool,
    holds: bool,
    word: &str,
) -> fmt::Result {
    match holds {
        true => add(f, is_first, word, &""),
        false => Ok(()),
    }
}

fn add_machine<W: fmt::Write>(
    f: &mut fmt::Formatter<W>,
    is_first: &mut bool,
    row: &Row,
) -> fmt::Result {
    if let Some(make) = &row.make {
        add(f, is_first, "made ", &Told(&make.vm))?;
    }
    if let Some(Vm { vm, agent }) = row.vm {
        add(f, is_first, "vm ", &vm)?;
        write!(f, " of {agent}")?;
    }
    match &row.spec {
        Some(spec) => add(f, is_first, "spec ", &Told(spec)),
        None => Ok(()),
    }
}

fn add_facts<W: fmt::Write>(
    f: &mut fmt::Formatter<W>,
    is_first: &mut bool,
    row: &Row,
) -> fmt::Result {
    add_if(f, is_first, row.running, "running")?;
    add_if(f, is_first, row.drained, "drained")?;
    add_if(f, is_first, row.lost, "lost")
}

fn add_disks<W: fmt::Write>(
    f: &mut fmt::Formatter<W>,
    is_first: &mut bool,
    disks: &[DiskRow],
) -> fmt::Result {
    for disk in disks {
        add(f, is_first, "disk ", &Told(disk))?;
    }
    Ok(())
}

fn add_doubt<W: fmt::Write>(
    f: &mut fmt::Formatter<W>,
    is_first: &mut bool,
    row: &Row,
) -> fmt::Result {
    if let Some(doubt) = &row.doubt {
        add(f, is_first, "doubt ", &doubt.n)?;
        write!(f, " {}", Told(&doubt.call))?;
    }
    Ok(())
}

impl fmt::Display for RowTold<'_> {
    fn fmt<W: fmt::Write>(&self, f: &mut fmt::Formatter<W>) -> fmt::Result {
        let mut is_first = true;
        add_machine(f, &mut is_first, self.0)?;
        add_facts(f, &mut is_first, self.0)?;
        add_disks(f, &mut is_first, self.0.disks.as_slice())?;
        add_doubt(f, &mut is_first, self.0)?;
        f.write_str(if is_first { "nothing" } else { "" })
    }
}

impl fmt::Display for DisksTold<'_> {
    fn fmt<W: fmt::Write>(&self, f: &mut fmt::Formatter<W>) -> fmt::Result {
        let mut is_first = true;
        add_disks(f, &mut is_first, self.0)?;
        f.write_str(if is_first { "none" } else { "" })
    }
}
