//! Kinds of values.
ghost use Rattle.std.specs.Prelude.{◌≡◌, Ok};
ghost use Rattle.bosh_yaml.specs.View.{tree_of};
ghost use Rattle.bosh_fields.specs.Answer.{IsAnswer};

use crate::FieldFault;
use crate::fault::wrong_kind;
use bosh_base::{Name, OfFault, Text};
use bosh_yaml::Node;
use std::alloc::Global;

/// A kind of values that stand at keys.
pub trait FromField: Drop {
    ghost use Rattle.bosh_fields.specs.Kind.{Kind};

    ghost kind: { Kind Self };

    /// The value that a node at a key is.
    fn from_field(alloc: Global, key: &[u8], node: &Node) -> Result<Self, FieldFault>
        ensures { IsAnswer result (kind key.now (tree_of node.now)) };
}

impl FromField for Text {
    ghost use Rattle.bosh_fields.specs.Kind.{a_text};

    ghost kind = { a_text };

    fn from_field(alloc: Global, key: &[u8], node: &Node) -> Result<Self, FieldFault> {
        match node {
            Node::Text(text) => Ok(Text::from(Vec::from_slice(alloc, text.as_bytes())?)),
            _ => wrong_kind(alloc, key),
        }
    }
}

impl FromField for Name {
    ghost use Rattle.bosh_fields.specs.Kind.{a_name};

    ghost kind = { a_name };

    fn from_field(alloc: Global, key: &[u8], node: &Node) -> Result<Self, FieldFault> {
        let Node::Text(text) = node else {
            return wrong_kind(alloc, key);
        };
        match Name::of(alloc, text.as_bytes()) {
            Ok(name) => Ok(name),
            Err(OfFault::NotOne) => wrong_kind(alloc, key),
            Err(OfFault::Memory) => Err(FieldFault::Memory),
        }
    }
}

impl FromField for bool {
    ghost use Rattle.bosh_fields.specs.Kind.{a_flag};

    ghost kind = { a_flag };

    fn from_field(alloc: Global, key: &[u8], node: &Node) -> Result<Self, FieldFault> {
        match node {
            Node::Bool(flag) => Ok(*flag),
            _ => wrong_kind(alloc, key),
        }
    }
}

impl FromField for i64 {
    ghost use Rattle.bosh_fields.specs.Kind.{an_integer};

    ghost kind = { an_integer };

    fn from_field(alloc: Global, key: &[u8], node: &Node) -> Result<Self, FieldFault> {
        match node {
            Node::Int(number) => Ok(*number),
            _ => wrong_kind(alloc, key),
        }
    }
}
