//! Manifests.
use bosh_base::{Name, Text};
use bosh_cases::CaseFault;
use bosh_manifest::{Manifest, check};
use bosh_yaml::{Node, read};
use std::alloc::Global;

fn of_node(alloc: Global, dep: &Name, node: &Node) -> Result<Manifest, CaseFault> {
    match check(alloc, node, dep) {
        Ok(manifest) => Ok(manifest),
        Err(_) => Err(CaseFault::Form),
    }
}

/// The manifest of a deployment that a text spells. A text that spells none has not the form of its call.
pub fn manifest(alloc: Global, dep: &Name, text: &Text) -> Result<Manifest, CaseFault> {
    let node = read(alloc, text.as_slice())?;
    of_node(alloc, dep, &node)
}
