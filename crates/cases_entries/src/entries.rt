//! Bodies that are read, and what was read copied and written again.
use crate::bodies::body_of;
use crate::kinds::EntryTold;
use crate::part::parts_of;
use bosh_base::{CopyFault, Copyable, Entry, Text};
use bosh_entry::{EntryFault, read, read_old, write};
use bosh_yaml::Node;
use cases_given::{CaseFault, Given, Outcome, field, refused, timed};
use std::alloc::Global;
use std::fmt;
use std::rt::Clock;
use std::time::Duration;

fn body(alloc: Global, setting: &Node, words: &Text) -> Result<Vec<u8>, CaseFault> {
    let parts = parts_of(alloc, setting)?;
    body_of(alloc, words.as_slice(), parts.as_slice())
}

/// A body whose entry is read as it.
pub(crate) fn present(alloc: Global, setting: &Node, given: &Node) -> Result<Outcome, CaseFault> {
    let words = Text::of(alloc, given)?;
    let body = body(alloc, setting, &words)?;
    outcome(alloc, read(alloc, body.as_slice()), body.as_slice())
}

/// A body of the older format, and the present one of its entry.
pub(crate) fn older(alloc: Global, setting: &Node, given: &Node) -> Result<Outcome, CaseFault> {
    let words: Text = field(alloc, given, "old")?;
    let old = body(alloc, setting, &words)?;
    let now: Option<Text> = field(alloc, given, "now")?;
    let now = match now {
        Some(words) => body(alloc, setting, &words)?,
        None => Vec::new(alloc),
    };
    outcome(alloc, read_old(alloc, old.as_slice()), now.as_slice())
}

// The entry in words, where a copy of it has the body that is wanted.
fn outcome(
    alloc: Global,
    answer: Result<Entry, EntryFault>,
    wanted: &[u8],
) -> Result<Outcome, CaseFault> {
    match answer {
        Ok(entry) => told(alloc, entry, wanted),
        Err(fault) => refused(alloc, &fault),
    }
}

fn told(alloc: Global, entry: Entry, wanted: &[u8]) -> Result<Outcome, CaseFault> {
    let words = format!(in alloc; "{}", EntryTold(&entry));
    let body = body_of_copy(alloc, entry)?;
    let words = words?;
    if body.as_slice() == wanted {
        return Ok(Outcome::gives(words.into_bytes()));
    }
    Outcome::shown(alloc, &Otherwise(words.as_str(), body.as_slice()))
}

// The words of an entry whose body is another, and that body.
#[derive(Clone, Copy)]
struct Otherwise<'a>(&'a str, &'a [u8]);

impl fmt::Display for Otherwise<'_> {
    fn fmt<W: fmt::Write>(&self, f: &mut fmt::Formatter<W>) -> fmt::Result {
        write!(f, "{}, but written {:?}", self.0, self.1)
    }
}

// The body of a copy of an entry. An entry is dropped by name, which proves quickly.
fn body_of_copy(alloc: Global, entry: Entry) -> Result<Vec<u8>, CaseFault> {
    let copied = entry.copy(alloc);
    drop(entry);
    written(alloc, copied)
}

fn written(alloc: Global, copied: Result<Entry, CopyFault>) -> Result<Vec<u8>, CaseFault> {
    let entry = copied?;
    let body = write(alloc, &entry);
    drop(entry);
    match body {
        Ok(body) => Ok(body),
        Err(_) => Err(CaseFault::Memory),
    }
}

// The entry of the words of a case.
fn entry_of(alloc: Global, setting: &Node, given: &Node) -> Result<Entry, CaseFault> {
    let words = Text::of(alloc, given)?;
    let body = body(alloc, setting, &words)?;
    match read(alloc, body.as_slice()) {
        Ok(entry) => Ok(entry),
        Err(_) => Err(CaseFault::Form),
    }
}

fn can_read(alloc: Global, body: &[u8]) -> bool {
    match read(alloc, body) {
        Ok(entry) => {
            drop(entry);
            true
        }
        Err(_) => false,
    }
}

/// The time to read a body.
pub(crate) fn time_of_read(
    clock: &impl Clock,
    alloc: Global,
    setting: &Node,
    given: &Node,
    rounds: u32,
) -> Result<Duration, CaseFault> {
    let words = Text::of(alloc, given)?;
    let body = body(alloc, setting, &words)?;
    timed(clock, rounds, || can_read(alloc, body.as_slice()))
}

/// The time to write the body of an entry.
pub(crate) fn time_of_write(
    clock: &impl Clock,
    alloc: Global,
    setting: &Node,
    given: &Node,
    rounds: u32,
) -> Result<Duration, CaseFault> {
    let entry = entry_of(alloc, setting, given)?;
    let took = timed(clock, rounds, || write(alloc, &entry).is_ok());
    drop(entry);
    took
}

/// The time to copy the bytes of a body.
pub(crate) fn time_of_copy(
    clock: &impl Clock,
    alloc: Global,
    setting: &Node,
    given: &Node,
    rounds: u32,
) -> Result<Duration, CaseFault> {
    let words = Text::of(alloc, given)?;
    let body = body(alloc, setting, &words)?;
    timed(
        clock,
        rounds,
        || Vec::from_slice(alloc, body.as_slice()).is_ok(),
    )
}
