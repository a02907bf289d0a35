//! Instances, and the machines of goals.
use bosh_base::{Digest, DiskWant, GoalRow, Make, Mark, Placed, Seq, State};
use cases_words::Told;
use std::fmt;

/// The first eight digits of a fingerprint.
#[derive(Clone, Copy)]
pub(crate) struct Print<'a>(pub(crate) &'a Digest);

impl fmt::Display for Print<'_> {
    fn fmt<W: fmt::Write>(&self, f: &mut fmt::Formatter<W>) -> fmt::Result {
        let [a, b, c, d, ..] = self.0.0;
        write!(f, "{a:02x}{b:02x}{c:02x}{d:02x}")
    }
}

/// Adds what a machine is made from.
pub(crate) fn add_make<W: fmt::Write>(f: &mut fmt::Formatter<W>, make: &Make) -> fmt::Result {
    let (az, vm) = (Told(&make.az), Told(&make.vm));
    write!(f, "{az} {}/{} {vm}", Told(&make.os), Told(&make.version))?;
    for net in &make.nets {
        write!(f, " {} {}", Told(&net.net), Told(&net.addr))?;
    }
    Ok(())
}

fn add_marks<W: fmt::Write>(
    f: &mut fmt::Formatter<W>,
    word: &str,
    marks: &Seq<Mark>,
) -> fmt::Result {
    for mark in marks {
        write!(
            f,
            "{word} {} {}\n",
            Told(&mark.name),
            Print(&mark.fingerprint)
        )?;
    }
    Ok(())
}

// The text of each file stands between bars.
fn add_files<W: fmt::Write>(f: &mut fmt::Formatter<W>, files: &Seq<Placed>) -> fmt::Result {
    for file in files {
        write!(f, "file {} |{}|\n", Told(&file.path), Told(&file.text))?;
    }
    Ok(())
}

fn state_word(state: State) -> &'static str {
    match state {
        State::Running => "running",
        State::Stopped => "stopped",
        State::Detached => "detached",
    }
}

fn add_disk<W: fmt::Write>(f: &mut fmt::Formatter<W>, disk: &Option<DiskWant>) -> fmt::Result {
    match disk {
        None => Ok(()),
        Some(want) => write!(f, " disk {} {}", want.size, Told(&want.properties)),
    }
}

fn add_age<W: fmt::Write>(f: &mut fmt::Formatter<W>, fresh_after: u64) -> fmt::Result {
    match fresh_after {
        0 => f.write_str("\n"),
        call => write!(f, " after {call}\n"),
    }
}

/// Adds a line for an instance, and for each part of its spec.
pub(crate) fn add_row<W: fmt::Write>(f: &mut fmt::Formatter<W>, row: &GoalRow) -> fmt::Result {
    write!(f, "row {} {} ", Told(&row.inst), state_word(row.state))?;
    add_make(f, &row.make)?;
    add_disk(f, &row.disk)?;
    add_age(f, row.fresh_after)?;
    add_marks(f, "job", &row.spec.jobs)?;
    add_marks(f, "package", &row.spec.packages)?;
    add_files(f, &row.spec.files)
}
