//! Steps that are taken with what a case gives.
use crate::asks::{asked, deploy};
use bosh_asks::Ask;
use bosh_case_words::number;
use bosh_cases::{CaseFault, characters};
use bosh_yaml::Node;
use std::alloc::Global;
use std::str::SplitWhitespace;

/// What takes the steps of a case.
pub trait Steps {
    /// Takes a step that is written in words.
    fn take_words(&mut self, text: &str) -> Result<(), CaseFault>;

    /// Takes a step that is written as a map.
    fn take_map(&mut self, node: &Node) -> Result<(), CaseFault>;

    /// A step was taken.
    fn end_step(&mut self) -> Result<(), CaseFault>;
}

/// What opens tasks and gives their work.
pub trait Tasks {
    /// Opens a task.
    fn begin(&mut self, ask: &Ask) -> Result<(), CaseFault>;

    /// Claims work of a task for a worker.
    fn claim(&mut self, task: u64, worker: u8) -> Result<(), CaseFault>;
}

fn take_named<S: Steps>(stand: &mut S, setting: &Node, text: &str) -> Result<(), CaseFault> {
    match text.strip_prefix('@') {
        None => stand.take_words(text),
        Some(key) => match setting.find(key.as_bytes()) {
            Some(node) => stand.take_map(node),
            None => Err(CaseFault::Form),
        },
    }
}

fn take_step<S: Steps>(stand: &mut S, setting: &Node, node: &Node) -> Result<(), CaseFault> {
    match node {
        Node::Text(text) => take_named(stand, setting, characters(text)?),
        _ => stand.take_map(node),
    }
}

/// Takes the steps of a list, one after the other. Each is words, a map, or a word after an `@` under which the setting has
/// a map.
pub fn take_steps<S: Steps>(stand: &mut S, setting: &Node, given: &Node) -> Result<(), CaseFault> {
    let Node::List(steps) = given else {
        return Err(CaseFault::Form);
    };
    for step in steps.as_slice() {
        take_step(stand, setting, step)?;
        stand.end_step()?;
    }
    Ok(())
}

/// Opens the task that words ask for, as `recreate dep/web/0`. What is asked is let go here, and not where steps are taken,
/// since that is dear to prove.
pub fn begin_in_words<T: Tasks>(
    alloc: Global,
    stand: &mut T,
    verb: &str,
    words: &mut SplitWhitespace<'_>,
) -> Result<(), CaseFault> {
    match asked(alloc, verb, words)? {
        Some(ask) => stand.begin(&ask),
        None => Err(CaseFault::Form),
    }
}

/// Opens the task that a map asks for: `{"deploy": MANIFEST, "dep": NAME, "recreate": true, "fix": true}`, the last two
/// only where they are asked for.
pub fn begin_in_map<T: Tasks>(alloc: Global, stand: &mut T, node: &Node) -> Result<(), CaseFault> {
    match node.find(b"deploy") {
        Some(_) => stand.begin(&deploy(alloc, node)?),
        None => Err(CaseFault::Form),
    }
}

/// The number of a worker.
pub fn worker_of(number: u64) -> Result<u8, CaseFault> {
    match u8::try_from(number) {
        Ok(worker) => Ok(worker),
        Err(_) => Err(CaseFault::Form),
    }
}

/// Claims work as words say: `1`, a task, for worker 0, or `1 by 2`.
pub fn claim_in_words<T: Tasks>(
    stand: &mut T,
    words: &mut SplitWhitespace<'_>,
) -> Result<(), CaseFault> {
    let task = number(words)?;
    match words.next() {
        None => stand.claim(task, 0),
        Some(_) => stand.claim(task, worker_of(number(words)?)?),
    }
}

/// Takes a step that looks at what is given, which is let go after it.
pub fn over<S, T: Drop, F: FnOnce(&mut S, &T) -> Result<(), CaseFault> + Drop>(
    stand: &mut S,
    given: Result<T, CaseFault>,
    step: F,
) -> Result<(), CaseFault>
    requires { F.IsAlwaysCallable step }
{
    match given {
        Ok(given) => step(stand, &given),
        Err(fault) => Err(fault),
    }
}
