//! Plain types, as cases give them.
mod keys;
mod names;
mod owners;
mod properties;
mod replies;
mod tasks;

use crate::CaseFault;
use crate::bytes::characters;
use bosh_yaml::Node;

/// The characters of a node that is a text.
fn word_of(node: &Node) -> Result<&str, CaseFault> {
    match node {
        Node::Text(text) => characters(text),
        _ => Err(CaseFault::Form),
    }
}

/// What stands before the first such character of a text, and what stands after it.
fn cut(text: &str, at: char) -> Result<(&str, &str), CaseFault> {
    text.split_once(at).ok_or(CaseFault::Form)
}

/// The name of a variant, and what it has: `{NAME: ..}`, or a text where it has nothing.
fn variant(node: &Node) -> Result<(&str, &Node), CaseFault> {
    let Node::Map(pairs) = node else {
        return Ok((word_of(node)?, node));
    };
    match pairs.as_slice() {
        [(name, value)] => Ok((characters(name)?, value)),
        _ => Err(CaseFault::Form),
    }
}
