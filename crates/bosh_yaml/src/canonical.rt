//! The canonical text of a node: compact JSON with each mapping's keys in byte order.

ghost use Rattle.std.specs.Prelude.{◌≡◌, ◌≤◌, ℕ, List, IfErr, IfOk, OnOk, Ok, length, option_map, string_bytes};
ghost use Rattle.std.specs.Str.{IsUtf8};
ghost use Rattle.serde_json.specs.Data.{no_members};
ghost use Rattle.serde_json.specs.View.{items_view, members_view, view};
ghost use Rattle.bosh_yaml.specs.Canon.{canon_text, data_items, data_members, data_of};
ghost use Rattle.bosh_yaml.specs.Keys.{value_of_key};
ghost use Rattle.bosh_yaml.specs.Limits.{depth};
ghost use Rattle.bosh_yaml.specs.Order.{in_key_order, IsOfNode};
ghost use Rattle.bosh_yaml.specs.Reading.{reading};
ghost use Rattle.bosh_yaml.specs.Tree.{Fields, fields_of, list, map as map_tree, trees_of};
ghost use Rattle.bosh_yaml.specs.View.{tree_of};

use crate::fault::ReadFault;
use crate::node::{Items, Node, Pairs};
use crate::text::Str;
use serde_json::{Map, Number, Value};
use std::alloc::{AllocError, Global};
use std::str;

/// The node as compact JSON, with each mapping's keys in byte order. Of a mapping the text is read back by `read`, as
/// the mapping in the order of its keys, where it has at most 1,048,576 bytes and nests at most 64 lists and mappings;
/// each key has the value that it had.
pub fn canon(alloc: Global, node: &Node) -> Result<Vec<u8>, ReadFault>
    ensures text { IfOk result (λ v. v.items ≡ canon_text (tree_of node.now)) }
    ensures read { IfOk result (λ v. (fs : Fields) → tree_of node.now ≡ map_tree fs
        → depth (tree_of node.now) ≤ 64 → length v.items ≤ 1048576
        → reading v.items ≡ Ok (in_key_order (tree_of node.now))) }
    ensures values { OnOk result ((key : List ℕ) → value_of_key key (in_key_order (tree_of node.now))
        ≡ option_map in_key_order (value_of_key key (tree_of node.now))) }
    ensures memory { IfErr result (λ e. e ≡ ReadFault.Memory) }
{
    let value = value_of(alloc, node)?;
    Ok(value.to_string(alloc)?.into_bytes())
}

fn string_of(alloc: Global, text: &Str) -> Result<String, AllocError>
    ensures text { IfOk result (λ s. string_bytes s ≡ text.now) }
    ensures utf8 { OnOk result (IsUtf8 text.now) }
{
    match str::from_utf8(text.as_bytes()) {
        Ok(text) => String::from_str(alloc, text),
        Err(_) => unreachable!(),
    }
}

#[cycle(canon)]
fn value_of(alloc: Global, node: &Node) -> Result<Value, AllocError>
    ensures as_data { IfOk result (λ v. view v ≡ data_of (tree_of node.now)) }
    ensures of_node { OnOk result (IsOfNode (tree_of node.now)) }
{
    match node {
        Node::Null => Ok(Value::Null),
        Node::Bool(b) => Ok(Value::Bool(*b)),
        Node::Int(n) => Ok(Value::Number(Number::from(*n))),
        Node::Text(text) => Ok(Value::String(string_of(alloc, text)?)),
        Node::List(items) => Ok(Value::Array(values_of(alloc, items)?)),
        Node::Map(pairs) => Ok(Value::Object(members_of(alloc, pairs)?)),
    }
}

#[cycle(canon)]
fn values_of(alloc: Global, items: &Items) -> Result<Vec<Value>, AllocError>
    ensures as_data { IfOk result (λ v. items_view v.items ≡ data_items (trees_of items.now)) }
    ensures of_node { OnOk result (IsOfNode (list (trees_of items.now))) }
{
    let mut values = Vec::new(alloc);
    for node in &items.nodes {
        values.push(value_of(alloc, node)?)?;
    }
    Ok(values)
}

#[cycle(canon)]
fn members_of(alloc: Global, pairs: &Pairs) -> Result<Map<String, Value>, AllocError>
    ensures as_data { IfOk result (λ m. members_view m.entries ≡ data_members (fields_of pairs.now) no_members) }
    ensures of_node { OnOk result (IsOfNode (map_tree (fields_of pairs.now))) }
{
    let mut members = Map::new(alloc);
    for (key, value) in &pairs.entries {
        let key = string_of(alloc, key)?;
        drop(members.insert(key, value_of(alloc, value)?)?);
    }
    Ok(members)
}
