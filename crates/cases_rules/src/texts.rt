//! Nodes of texts.
use bosh_base::Text;
use bosh_yaml::{Copied, Node, Str, canon, read, scalar};
use cases_given::{CaseFault, Given, Outcome, timed, told};
use serde_json::Value;
use std::alloc::Global;
use std::rt::Clock;
use std::str;
use std::time::Duration;

fn canonical(alloc: Global, node: &Node) -> Result<Vec<u8>, CaseFault> {
    Ok(canon(alloc, node)?)
}

/// The canonical text of the node of a text.
pub(crate) fn node(alloc: Global, given: &Node) -> Result<Outcome, CaseFault> {
    let text = Text::of(alloc, given)?;
    told(alloc, read(alloc, text.as_slice()), canonical)
}

/// The canonical text of a copy of the node of a plain scalar.
pub(crate) fn plain(alloc: Global, given: &Node) -> Result<Outcome, CaseFault> {
    let text = Text::of(alloc, given)?;
    let text = Str::of(alloc, text.as_slice())?;
    let node = scalar(alloc, text.as_bytes())?.copy(alloc)?;
    Ok(Outcome::gives(canonical(alloc, &node)?))
}

/// The time to read a text.
pub(crate) fn time_of_read(
    clock: &impl Clock,
    alloc: Global,
    given: &Node,
    rounds: u32,
) -> Result<Duration, CaseFault> {
    let text = Text::of(alloc, given)?;
    timed(clock, rounds, || read(alloc, text.as_slice()).is_ok())
}

/// The time that the JSON reader below `read` takes for a text.
pub(crate) fn time_of_parse(
    clock: &impl Clock,
    alloc: Global,
    given: &Node,
    rounds: u32,
) -> Result<Duration, CaseFault> {
    let text = Text::of(alloc, given)?;
    match str::from_utf8(text.as_slice()) {
        Ok(text) => timed(clock, rounds, || Value::from_str(alloc, text).is_ok()),
        Err(_) => Err(CaseFault::Form),
    }
}

fn finds_each(node: &Node) -> bool {
    match node {
        Node::Map(pairs) => pairs
            .as_slice()
            .iter()
            .all(|pair| pairs.has(pair.0.as_bytes())),
        _ => false,
    }
}

/// The time to look up each key of the map that a text is.
pub(crate) fn time_of_find(
    clock: &impl Clock,
    alloc: Global,
    given: &Node,
    rounds: u32,
) -> Result<Duration, CaseFault> {
    let text = Text::of(alloc, given)?;
    let node = read(alloc, text.as_slice())?;
    timed(clock, rounds, || finds_each(&node))
}
