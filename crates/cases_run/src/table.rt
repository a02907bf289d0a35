//! The lines of a file: cases, settings, and comments.
use crate::case::{call_of, outcome_of};
use crate::source::Source;
use crate::tally::Tally;
use bosh_yaml::{Node, read};
use cases_given::{Calls, Outcome};
use std::alloc::Global;
use std::io;

/// Under which name a line counts that is no case.
const NO_CASE: &str = "(no case)";

// Whether a line is empty or a comment.
pub(crate) fn is_comment(line: &[u8]) -> bool {
    line.is_empty() || line.starts_with(b"#")
}

// The JSON of a line, or null where it has none.
pub(crate) fn node_of(alloc: Global, line: &[u8]) -> Node {
    if !line.starts_with(b"{") {
        return Node::Null;
    }
    read(alloc, line).unwrap_or(Node::Null)
}

// Whether a line sets what the cases after it are answered under: `{"setting": ..}`.
pub(crate) fn is_setting(node: &Node) -> bool {
    match node {
        Node::Map(pairs) => pairs.len() == 1 && pairs.has(b"setting"),
        _ => false,
    }
}

// Answers a case, and says so where it comes out otherwise than it states.
fn is_met<R: Print + AllocGlobal, C: Calls>(
    rt: &R,
    calls: &C,
    source: Source<'_>,
    setting: &Node,
    case: &Node,
) -> io::Result<bool> {
    match outcome_of(rt.alloc(), calls, setting, case) {
        Ok(outcome) => is_stated(rt, source, case, &outcome),
        Err(fault) => {
            println!(rt; "{source}: {fault}")?;
            Ok(false)
        }
    }
}

fn is_stated<R: Print + AllocGlobal>(
    rt: &R,
    source: Source<'_>,
    case: &Node,
    outcome: &Outcome,
) -> io::Result<bool> {
    if let Ok(true) = outcome.is_stated(rt.alloc(), case) {
        return Ok(true);
    }
    let (key, text) = (outcome.key(), outcome.text().escape_ascii());
    println!(rt; "{source}: it {key} {text}")?;
    Ok(false)
}

fn run_case<R: Print + AllocGlobal, C: Calls>(
    rt: &R,
    calls: &C,
    source: Source<'_>,
    setting: &Node,
    case: &Node,
    tally: &mut Tally,
) -> io::Result<()> {
    let setting = setting.find(b"setting").unwrap_or(setting);
    let has_passed = is_met(rt, calls, source, setting, case)?;
    tally.add(rt.alloc(), call_of(case).unwrap_or(NO_CASE), has_passed)?;
    Ok(())
}

// Keeps a setting, or answers a case.
fn take_line<R: Print + AllocGlobal, C: Calls>(
    rt: &R,
    calls: &C,
    source: Source<'_>,
    text: &[u8],
    setting: &mut Node,
    tally: &mut Tally,
) -> io::Result<()> {
    let node = node_of(rt.alloc(), text);
    if is_setting(&node) {
        *setting = node;
        return Ok(());
    }
    run_case(rt, calls, source, setting, &node, tally)
}

/// Answers the cases of a file.
pub(crate) fn run_table<R: Print + AllocGlobal, C: Calls>(
    rt: &R,
    calls: &C,
    file: &str,
    text: &[u8],
    tally: &mut Tally,
) -> io::Result<()> {
    let mut setting = Node::Null;
    for (place, text) in text.split(|byte| *byte == b'\n').enumerate() {
        if is_comment(text) {
            continue;
        }
        let line = place.saturating_add(1);
        take_line(rt, calls, Source { file, line }, text, &mut setting, tally)?;
    }
    Ok(())
}
