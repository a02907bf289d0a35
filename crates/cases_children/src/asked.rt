//! Calls on a port over outputs that are given.
use crate::calls::request_of;
use crate::shown::answer_text;
use bosh_spawner::{MemSpawner, Outputs, Spawner};
use bosh_yaml::Node;
use cases_given::{CaseFault, Outcome, bytes_of, items};
use cpi_proc::{ProcPort, Request};
use std::alloc::Global;

fn output_of(alloc: Global, node: &Node) -> Result<Option<Vec<u8>>, CaseFault> {
    match node {
        Node::Null => Ok(None),
        _ => Ok(Some(bytes_of(alloc, node)?)),
    }
}

fn add_output(alloc: Global, outputs: &mut Outputs, node: &Node) -> Result<(), CaseFault> {
    let output = output_of(alloc, node)?;
    match outputs.push(output) {
        Ok(()) => Ok(()),
        Err(_) => Err(CaseFault::Memory),
    }
}

fn outputs_of(alloc: Global, node: &Node) -> Result<Outputs, CaseFault> {
    let mut outputs = Outputs::new(alloc);
    for item in items(node, "outputs")? {
        add_output(alloc, &mut outputs, item)?;
    }
    Ok(outputs)
}

fn ask_of(
    alloc: Global,
    port: &mut ProcPort<MemSpawner>,
    request: &Request,
) -> Result<Vec<u8>, CaseFault> {
    let answer = port.ask(alloc, request);
    answer_text(alloc, &request.call, &answer)
}

// What one request came to.
fn ask_one(
    alloc: Global,
    port: &mut ProcPort<MemSpawner>,
    node: &Node,
) -> Result<Vec<u8>, CaseFault> {
    let request = request_of(alloc, node)?;
    ask_of(alloc, port, &request)
}

fn push_part(text: &mut Vec<u8>, part: &[u8]) -> Result<(), CaseFault> {
    if !text.is_empty() {
        text.extend_from_slice(b"; ")?;
    }
    text.extend_from_slice(part)?;
    Ok(())
}

fn ask_next(
    alloc: Global,
    port: &mut ProcPort<MemSpawner>,
    node: &Node,
    text: &mut Vec<u8>,
) -> Result<(), CaseFault> {
    let part = ask_one(alloc, port, node)?;
    push_part(text, part.as_slice())
}

fn ask_each(
    alloc: Global,
    port: &mut ProcPort<MemSpawner>,
    node: &Node,
    text: &mut Vec<u8>,
) -> Result<(), CaseFault> {
    for item in items(node, "asks")? {
        ask_next(alloc, port, item, text)?;
    }
    Ok(())
}

// How often was asked, and the counts of faults of the port and its spawner.
fn counts(alloc: Global, port: &ProcPort<MemSpawner>) -> Result<String, CaseFault> {
    let asked = port.spawner().asked().len();
    let failed = port.spawner().faults();
    let faults = port.faults();
    Ok(format!(in alloc; " | asked {asked}, failed {failed}, faults {faults}")?)
}

fn ask_all(
    alloc: Global,
    port: &mut ProcPort<MemSpawner>,
    node: &Node,
    text: &mut Vec<u8>,
) -> Result<(), CaseFault> {
    ask_each(alloc, port, node, text)?;
    let counts = counts(alloc, port)?;
    text.extend_from_slice(counts.as_bytes())?;
    Ok(())
}

/// What requests come to on a port whose children give these outputs, and how often was asked.
pub(crate) fn ask(alloc: Global, given: &Node) -> Result<Outcome, CaseFault> {
    let outputs = outputs_of(alloc, given)?;
    let mut port = ProcPort::new(MemSpawner::new(alloc, outputs));
    let mut text = Vec::new(alloc);
    ask_all(alloc, &mut port, given, &mut text)?;
    Ok(Outcome::gives(text))
}
