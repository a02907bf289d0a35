//! How large what filling makes is.

ghost use Rattle.std.specs.Prelude.{◌≡◌, ◌≤◌, ◌-◌, SomeIff};
ghost use Rattle.std.specs.Option.{option_map};
ghost use Rattle.bosh_yaml.specs.Tree.{fields_of, trees_of};
ghost use Rattle.bosh_yaml.specs.View.{tree_of};
ghost use Rattle.bosh_vars.specs.Placeholder.{parts};
ghost use Rattle.bosh_vars.specs.Size.{filled_fields_size, filled_items_size, filled_size, filled_text_size, fits, inner_size, joined_text_size, size, size_of_fields, size_of_items, value_size};
ghost use Rattle.bosh_vars.specs.Table.{found_in};

use crate::insertion::only_name;
use crate::placeholder::placeholder_at;
use crate::table::Table;
use bosh_yaml::{Items, Node, Pairs};

const NODE_BYTES: usize = 32;

const MOST_BYTES: usize = 268_435_456;

// ---- A node as it is: what is left of a number of bytes once it is made, or `None` where it is larger.

#[cycle(value)]
fn after_value(left: usize, node: &Node) -> Option<usize>
    ensures { SomeIff result (size (tree_of node.now) ≤ left) (left - size (tree_of node.now)) }
{
    let left = left.checked_sub(NODE_BYTES)?;
    match node {
        Node::Null | Node::Bool(_) | Node::Int(_) => Some(left),
        Node::Text(text) => left.checked_sub(text.len()),
        Node::List(items) => after_values(left, items),
        Node::Map(pairs) => after_keyed_values(left, pairs),
    }
}

#[cycle(value)]
fn after_values(left: usize, items: &Items) -> Option<usize>
    ensures { SomeIff result (size_of_items (trees_of items.now) ≤ left) (left - size_of_items (trees_of items.now)) }
{
    let mut room = left;
    for node in items.as_slice() {
        room = after_value(room, node)?;
    }
    Some(room)
}

#[cycle(value)]
fn after_keyed_values(left: usize, pairs: &Pairs) -> Option<usize>
    ensures { SomeIff result (size_of_fields (fields_of pairs.now) ≤ left) (left - size_of_fields (fields_of pairs.now)) }
{
    let mut room = left;
    for (key, value) in pairs.as_slice() {
        room = after_value(room.checked_sub(key.len())?, value)?;
    }
    Some(room)
}

// ---- A text, filled.

// How many bytes stand for a placeholder inside a longer text.
fn inner_len(value: Option<&Node>) -> usize
    ensures { result ≡ inner_size (option_map (λ n. tree_of n.now) value.entry) }
{
    match value {
        Some(Node::Bool(true)) => 4,
        Some(Node::Bool(false)) => 5,
        Some(Node::Int(n)) => itoa::Buffer::new().format(*n).len(),
        Some(Node::Text(text)) => text.len(),
        None | Some(Node::Null | Node::List(_) | Node::Map(_)) => 0,
    }
}

fn inner_len_of(values: &Table, name: &[u8]) -> usize
    ensures { result ≡ inner_size (found_in values.now name.now) }
{
    inner_len(values.get(name).copied())
}

fn after_joined(left: usize, text: &[u8], values: &Table) -> Option<usize>
    ensures { SomeIff result (joined_text_size (found_in values.now) (parts text.now) ≤ left) (left - joined_text_size (found_in values.now) (parts text.now)) }
{
    let mut room = left;
    let mut rest = text;
    while let Some((_, after)) = rest.split_first() {
        match placeholder_at(rest) {
            Some((name, after)) => {
                room = room.checked_sub(inner_len_of(values, name))?;
                rest = after;
            }
            None => {
                room = room.checked_sub(1)?;
                rest = after;
            }
        }
    }
    Some(room)
}

// The value that a text becomes which is one placeholder.
fn after_whole(left: usize, value: Option<&Node>) -> Option<usize>
    ensures { SomeIff result (value_size (option_map (λ n. tree_of n.now) value.entry) ≤ left) (left - value_size (option_map (λ n. tree_of n.now) value.entry)) }
{
    match value {
        Some(value) => after_value(left, value),
        None => Some(left),
    }
}

fn after_text(left: usize, text: &[u8], values: &Table) -> Option<usize>
    ensures { SomeIff result (filled_text_size (found_in values.now) (parts text.now) ≤ left) (left - filled_text_size (found_in values.now) (parts text.now)) }
{
    match only_name(text) {
        Some(name) => after_whole(left, values.get(name).copied()),
        None => after_joined(left.checked_sub(NODE_BYTES)?, text, values),
    }
}

// ---- A node, filled.

#[cycle(filled)]
fn after_filled(left: usize, node: &Node, values: &Table) -> Option<usize>
    ensures { SomeIff result (filled_size (found_in values.now) (tree_of node.now) ≤ left) (left - filled_size (found_in values.now) (tree_of node.now)) }
{
    match node {
        Node::Null | Node::Bool(_) | Node::Int(_) => left.checked_sub(NODE_BYTES),
        Node::Text(text) => after_text(left, text.as_bytes(), values),
        Node::List(items) => after_items(left.checked_sub(NODE_BYTES)?, items, values),
        Node::Map(pairs) => after_pairs(left.checked_sub(NODE_BYTES)?, pairs, values),
    }
}

#[cycle(filled)]
fn after_items(left: usize, items: &Items, values: &Table) -> Option<usize>
    ensures { SomeIff result (filled_items_size (found_in values.now) (trees_of items.now) ≤ left) (left - filled_items_size (found_in values.now) (trees_of items.now)) }
{
    let mut room = left;
    for node in items.as_slice() {
        room = after_filled(room, node, values)?;
    }
    Some(room)
}

#[cycle(filled)]
fn after_pairs(left: usize, pairs: &Pairs, values: &Table) -> Option<usize>
    ensures { SomeIff result (filled_fields_size (found_in values.now) (fields_of pairs.now) ≤ left) (left - filled_fields_size (found_in values.now) (fields_of pairs.now)) }
{
    let mut room = left;
    for (key, value) in pairs.as_slice() {
        room = after_filled(room.checked_sub(key.len())?, value, values)?;
    }
    Some(room)
}

// Whether what filling makes takes at most 256 MB.
pub(crate) fn fits(node: &Node, values: &Table) -> bool
    ensures { result ≡ fits (found_in values.now) (tree_of node.now) }
{
    after_filled(MOST_BYTES, node, values).is_some()
}
