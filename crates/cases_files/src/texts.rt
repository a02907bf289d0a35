//! Texts of cloud configs and manifests. One that spells none has not the form of its call.
use bosh_base::{Name, Text};
use bosh_cloudcfg::Config;
use bosh_manifest::Manifest;
use bosh_yaml::{Node, read};
use cases_given::{CaseFault, Given};
use std::alloc::Global;

/// The node of a text that a case gives.
pub fn node_of(alloc: Global, given: &Node) -> Result<Node, CaseFault> {
    let text = Text::of(alloc, given)?;
    Ok(read(alloc, text.as_slice())?)
}

// What a text spells. Generic, since to let a fault go is dear to prove.
fn spelled<T: Drop, E: Drop>(checked: Result<T, E>) -> Result<T, CaseFault> {
    match checked {
        Ok(value) => Ok(value),
        Err(_) => Err(CaseFault::Form),
    }
}

/// The cloud config of a text that a case gives.
pub fn config(alloc: Global, given: &Node) -> Result<Config, CaseFault> {
    let node = node_of(alloc, given)?;
    spelled(bosh_cloudcfg::check(alloc, &node))
}

/// The manifest of a deployment that a text spells.
pub fn manifest(alloc: Global, dep: &Name, text: &Text) -> Result<Manifest, CaseFault> {
    let node = read(alloc, text.as_slice())?;
    spelled(bosh_manifest::check(alloc, &node, dep))
}
