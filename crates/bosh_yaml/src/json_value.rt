//! JSON texts.

ghost use Rattle.std.specs.Prelude.{◌≡◌, false, true, [], ◌∷◌, ◌++◌, nat_lt, IfNone, IfOk, IfSome, OnOk, string_bytes};
ghost use Rattle.std.specs.Str.{is_utf8};
ghost use Rattle.serde_json.specs.View.{items_view, members_view, view};
ghost use Rattle.bosh_yaml.specs.Json.{has_integers, integers_or, items_have_integers, json_data, members_have_integers};
ghost use Rattle.bosh_yaml.specs.Keys.{has_key};
ghost use Rattle.bosh_yaml.specs.Limits.{depth, depth_all, depth_keyed};
ghost use Rattle.bosh_yaml.specs.Result.{Gives};
ghost use Rattle.bosh_yaml.specs.Spelling.{json_items, json_members, json_tree};
ghost use Rattle.bosh_yaml.specs.Tree.{fields_of, trees_of};
ghost use Rattle.bosh_yaml.specs.View.{tree_of};

use crate::fault::ReadFault;
use crate::node::{Items, Node, Pairs};
use crate::text::Str;
use serde_json::error::Category;
use serde_json::{Map, Value};
use std::alloc::{AllocError, Global};
use std::str;

/// The value that a text is as JSON.
pub(crate) fn value_of(alloc: Global, text: &[u8]) -> Result<Value, ReadFault>
    ensures { Gives view result (json_data text.now) }
{
    let Some(text) = as_text(text) else {
        return Err(ReadFault::Syntax { line: 0 });
    };
    match Value::from_str(alloc, text) {
        Ok(value) => Ok(value),
        Err(e) => match e.classify() {
            Category::Memory => Err(ReadFault::Memory),
            _ => Err(ReadFault::Syntax { line: 0 }),
        },
    }
}

#[tactic(auto, using(crate::proofs::TextLemmas::tests_text))]
fn as_text(bytes: &[u8]) -> Option<&str>
    ensures some { IfSome result (λ s. (s.now ≡ bytes.now) × (is_utf8 bytes.now ≡ true)) }
    ensures none { IfNone result (is_utf8 bytes.now ≡ false) }
{
    match str::from_utf8(bytes) {
        Ok(text) => Some(text),
        Err(_) => None,
    }
}

// Whether lists and mappings nest deeper than this.
#[cycle(depth)]
pub(crate) fn is_deeper(most: usize, value: &Value) -> bool
    ensures { result ≡ nat_lt most (depth (json_tree (view value.now))) }
{
    match value {
        Value::Null | Value::Bool(_) | Value::Number(_) | Value::String(_) => false,
        Value::Array(items) => most == 0 || has_deeper_item(most - 1, items),
        Value::Object(members) => most == 0 || has_deeper_member(most - 1, members),
    }
}

#[cycle(depth)]
fn has_deeper_item(most: usize, items: &Vec<Value>) -> bool
    ensures { result ≡ nat_lt most (depth_all (trees_of (json_items (items_view items.now.items)))) }
{
    for item in items {
        if is_deeper(most, item) {
            return true;
        }
    }
    false
}

#[cycle(depth)]
fn has_deeper_member(most: usize, members: &Map<String, Value>) -> bool
    ensures { result ≡ nat_lt most (depth_keyed (fields_of (json_members (members_view members.now.entries)))) }
{
    for (_, member) in members.iter() {
        if is_deeper(most, member) {
            return true;
        }
    }
    false
}

/// The node of a value whose numbers are integers within 64 bits. Its texts are not copied.
#[cycle(json)]
pub(crate) fn node_of(alloc: Global, value: Value) -> Result<Node, ReadFault>
    ensures { Gives tree_of result (integers_or (has_integers (view value)) (json_tree (view value))) }
{
    match value {
        Value::Null => Ok(Node::Null),
        Value::Bool(b) => Ok(Node::Bool(b)),
        Value::Number(n) => match n.as_i64() {
            Some(n) => Ok(Node::Int(n)),
            None => Err(ReadFault::Number),
        },
        Value::String(text) => Ok(Node::Text(Str::from_string(text))),
        Value::Array(items) => Ok(Node::List(items_of(alloc, items)?)),
        Value::Object(members) => Ok(Node::Map(pairs_of(alloc, members)?)),
    }
}

#[cycle(json)]
fn items_of(alloc: Global, items: Vec<Value>) -> Result<Items, ReadFault>
    ensures { let ds = items_view items.items in
        Gives (λ ts. ts) result (integers_or (items_have_integers ds) (json_items ds)) }
{
    let mut nodes = Items::with_capacity(alloc, items.len())?;
    for item in items {
        let node = node_of(alloc, item)?;
        if nodes.push(node).is_err() {
            return Err(ReadFault::Memory);
        }
    }
    Ok(nodes)
}

#[cycle(json)]
fn pairs_of(alloc: Global, members: Map<String, Value>) -> Result<Pairs, ReadFault>
    ensures { let ms = members_view members.entries in
        Gives (λ ps. ps) result (integers_or (members_have_integers ms) (json_members ms)) }
{
    let mut pairs = Pairs::with_capacity(alloc, members.len())?;
    for (key, member) in members {
        let node = node_of(alloc, member)?;
        push_member(key, node, &mut pairs)?;
    }
    Ok(pairs)
}

// Adds a key and its value.
fn push_member(key: String, value: Node, pairs: &mut Pairs) -> Result<(), AllocError>
    requires { has_key (string_bytes key) pairs.old ≡ false }
    ensures { OnOk result (pairs.new ≡ pairs.old ++ (string_bytes key, tree_of value) ∷ []) }
{
    match pairs.push(Str::from_string(key), value) {
        Ok(()) => Ok(()),
        Err(_) => Err(AllocError),
    }
}
