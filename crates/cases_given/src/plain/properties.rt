use crate::{CaseFault, Given, two};
use bosh_base::{Prop, PropSpec, Setting, Text};
use bosh_yaml::Node;
use std::alloc::Global;

/// A text, or a list or map for what is no scalar.
impl Given for Setting {
    fn of(alloc: Global, node: &Node) -> Result<Self, CaseFault> {
        match node {
            Node::Text(_) => Ok(Setting::Scalar(Text::of(alloc, node)?)),
            Node::List(_) | Node::Map(_) => Ok(Setting::Compound),
            _ => Err(CaseFault::Form),
        }
    }
}

/// `name` and `value`.
impl Given for Prop {
    fn of(alloc: Global, node: &Node) -> Result<Self, CaseFault> {
        let (name, value) = two(alloc, node, ["name", "value"])?;
        Ok(Prop { name, value })
    }
}

/// `name` and `fallback`.
impl Given for PropSpec {
    fn of(alloc: Global, node: &Node) -> Result<Self, CaseFault> {
        let (name, fallback) = two(alloc, node, ["name", "fallback"])?;
        Ok(PropSpec { name, fallback })
    }
}
