//! Values that ask for nothing.
ghost use Rattle.std.specs.Prelude.{◌≡◌, true, Some, map};
ghost use Rattle.std.specs.Option.{option_map};
ghost use Rattle.bosh_yaml.specs.Tree.{fields_of, list, map as map_of, text, trees_of};
ghost use Rattle.bosh_yaml.specs.View.{pair_of, tree_of};
ghost use Rattle.bosh_fields.specs.Answer.{IsAnswerSeen};
ghost use Rattle.bosh_fields.specs.Empty.{is_empty, nothing_at, unless_asked};

use crate::FieldFault;
use crate::fault::unsupported;
use crate::field::value_at;
use bosh_yaml::{Node, Str};
use std::alloc::Global;

#[tactic(auto, using(crate::proofs::EmptyLemmas::some_items))]
fn has_no_items(items: &[Node]) -> bool
    ensures { result ≡ is_empty (Some (list (trees_of (map tree_of items.now)))) }
{
    match items {
        [] => true,
        [_, ..] => false,
    }
}

#[tactic(auto, using(crate::proofs::EmptyLemmas::some_fields))]
fn has_no_fields(fields: &[(Str, Node)]) -> bool
    ensures { result ≡ is_empty (Some (map_of (fields_of (map pair_of fields.now)))) }
{
    match fields {
        [] => true,
        [_, ..] => false,
    }
}

fn has_no_bytes(bytes: &[u8]) -> bool
    ensures { result ≡ is_empty (Some (text bytes.now)) }
{
    match bytes {
        [] => true,
        [_, ..] => false,
    }
}

/// Whether nothing stands at a key, or an empty text, list or mapping.
pub fn is_empty(value: Option<&Node>) -> bool
    ensures { result ≡ is_empty (option_map (λ node. tree_of node.now) value.entry) }
{
    match value {
        None => true,
        Some(Node::Text(text)) => has_no_bytes(text.as_bytes()),
        Some(Node::List(items)) => has_no_items(items.as_slice()),
        Some(Node::Map(pairs)) => has_no_fields(pairs.as_slice()),
        Some(_) => false,
    }
}

/// Refuses a key whose value asks for something.
pub fn unless_asked(alloc: Global, key: &[u8], asks_nothing: bool) -> Result<(), FieldFault>
    ensures { IsAnswerSeen (λ _. true) result (unless_asked key.now asks_nothing) }
{
    if asks_nothing {
        Ok(())
    } else {
        unsupported(alloc, key)
    }
}

/// Refuses what stands at a key, if it is not empty.
pub fn check_nothing(alloc: Global, holder: &Node, key: &[u8]) -> Result<(), FieldFault>
    ensures { IsAnswerSeen (λ _. true) result (nothing_at key.now (tree_of holder.now)) }
{
    unless_asked(alloc, key, is_empty(value_at(holder, key)))
}
