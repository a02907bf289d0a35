//! How long a work takes with what a case gives.
use crate::program::ENDING;
use crate::table::{is_comment, is_setting, node_of};
use bosh_yaml::{Node, Str};
use cases_given::{Calls, Case, CaseFault};
use std::alloc::Global;
use std::rt::{Clock, Files};
use std::time::Duration;
use std::{fs, io};

// The last setting of a table, and its last case.
fn last_case(alloc: Global, text: &[u8]) -> (Node, Node) {
    let mut last = (Node::Null, Node::Null);
    for line in text.split(|byte| *byte == b'\n') {
        if is_comment(line) {
            continue;
        }
        let node = node_of(alloc, line);
        match is_setting(&node) {
            true => last.0 = node,
            false => last.1 = node,
        }
    }
    last
}

// What a file gives to a work: as the last case of a table, or as a text.
fn given_by(alloc: Global, name: &str, text: &[u8]) -> Result<(Node, Node), CaseFault> {
    match name.ends_with(ENDING) {
        true => Ok(last_case(alloc, text)),
        false => Ok((Node::Null, Node::Text(Str::of(alloc, text)?))),
    }
}

fn time_of<C: Calls>(
    clock: &(impl Clock + AllocGlobal),
    calls: &C,
    work: &str,
    given: Result<(Node, Node), CaseFault>,
    rounds: u32,
) -> Result<Duration, CaseFault> {
    let (setting, given) = given?;
    let case = Case {
        alloc: clock.alloc(),
        call: work,
        setting: setting.find(b"setting").unwrap_or(&setting),
        given: given.find(b"given").unwrap_or(&given),
    };
    calls.time(clock, &case, rounds)
}

// How often the words ask for the work.
fn rounds_of(words: &[String]) -> u32 {
    match words {
        [word] => word.as_str().parse::<u32>().unwrap_or(0),
        _ => 1,
    }
}

/// Prints how long a work takes with what a file gives.
pub(crate) fn bench<R: Clock + Files + Print + AllocGlobal, C: Calls>(
    rt: &R,
    calls: &C,
    work: &str,
    name: &str,
    rounds: &[String],
) -> io::Result<bool> {
    let text = fs::read(rt, name)?;
    let given = given_by(rt.alloc(), name, text.as_slice());
    match time_of(rt, calls, work, given, rounds_of(rounds)) {
        Ok(took) => {
            println!(rt; "{}", took.as_micros())?;
            Ok(true)
        }
        Err(fault) => {
            println!(rt; "{work}: {fault}")?;
            Ok(false)
        }
    }
}
