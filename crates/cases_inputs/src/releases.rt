//! Releases, in words.
use bosh_base::{Digest, Name, Release, Seq, Text};
use bosh_release::collect;
use bosh_yaml::Node;
use cases_files::{files, outcome};
use cases_given::{CaseFault, Given, Outcome, timed};
use cases_words::Told;
use std::alloc::Global;
use std::fmt;
use std::rt::Clock;
use std::time::Duration;

// A release: a line for each of its jobs and packages.
#[derive(Clone, Copy)]
struct ReleaseTold<'a>(&'a Release);

// The line of a job or a package: its name, its fingerprint, and the packages that it needs.
fn add_line<W: fmt::Write>(
    f: &mut fmt::Formatter<W>,
    (name, fingerprint): (&Name, &Digest),
    needed: &Seq<Name>,
) -> fmt::Result {
    write!(f, "{} {}", Told(name), Told(fingerprint))?;
    for package in needed {
        write!(f, " {}", Told(package))?;
    }
    f.write_str("\n")
}

impl fmt::Display for ReleaseTold<'_> {
    fn fmt<W: fmt::Write>(&self, f: &mut fmt::Formatter<W>) -> fmt::Result {
        write!(
            f,
            "release {}/{}\n",
            Told(&self.0.name),
            Told(&self.0.version)
        )?;
        for job in &self.0.jobs {
            f.write_str("job ")?;
            add_line(f, (&job.name, &job.fingerprint), &job.packages)?;
        }
        for package in &self.0.packages {
            f.write_str("package ")?;
            add_line(f, (&package.name, &package.fingerprint), &package.deps)?;
        }
        Ok(())
    }
}

fn told(alloc: Global, release: &Release) -> Result<Vec<u8>, CaseFault> {
    Ok(format!(in alloc; "{}", ReleaseTold(release))?.into_bytes())
}

/// The release that files spell, of the version of the setting.
pub(crate) fn collected(alloc: Global, setting: &Node, given: &Node) -> Result<Outcome, CaseFault> {
    let version = Text::of(alloc, setting)?;
    let files = files(alloc, given)?;
    outcome(
        alloc,
        collect(alloc, files.as_slice(), version.as_slice()),
        told,
    )
}

/// The time to collect it.
pub(crate) fn time_of_collect(
    clock: &impl Clock,
    alloc: Global,
    setting: &Node,
    given: &Node,
    rounds: u32,
) -> Result<Duration, CaseFault> {
    let version = Text::of(alloc, setting)?;
    let files = files(alloc, given)?;
    timed(
        clock,
        rounds,
        || collect(alloc, files.as_slice(), version.as_slice()).is_ok(),
    )
}
