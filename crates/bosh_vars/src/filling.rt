//! Nodes with the values of their placeholders.

ghost use Rattle.std.specs.Prelude.{◌≡◌, ◌≤◌, false, [], ◌∷◌, ◌++◌, Err, IfErr, IfOk, IsFalse, OnOk};
ghost use Rattle.bosh_yaml.specs.Keys.{has_key};
ghost use Rattle.bosh_yaml.specs.Tree.{fields_of, trees_of};
ghost use Rattle.bosh_yaml.specs.View.{tree_of};
ghost use Rattle.bosh_vars.specs.Filled.{filled, filled_fields, filled_items, values_of};
ghost use Rattle.bosh_vars.specs.Result.{Gives};
ghost use Rattle.bosh_vars.specs.Size.{fits, most_bytes, size};
ghost use Rattle.bosh_vars.specs.Table.{found_in};
ghost use Rattle.bosh_vars.specs.declared.fault.VarsFault.TheVariants.{Memory};

use crate::fault::VarsFault;
use crate::insertion::fill_text;
use crate::measure::fits;
use crate::table::{Table, table_of};
use crate::var::Var;
use bosh_yaml::{Copied, Items, Node, Pairs, Str};
use std::alloc::Global;

/// The node with each placeholder of its texts replaced by the value for its name. A text that is
/// one placeholder becomes the value; inside a longer text the value's text is put in its place. Of
/// several values for one name the last counts. A refusal names the first placeholder, in the order
/// of the node, that cannot be replaced.
///
/// What it makes is measured first: where texts and keys, with 32 bytes for each node, would take more
/// than 268,435,456 bytes, nothing is made, and the answer is want of memory.
#[tactic(auto, using(crate::proofs::TreeLemmas::filled_alike))]
pub fn fill(alloc: Global, node: &Node, vars: &[Var]) -> Result<Node, VarsFault>
    ensures value { Gives tree_of result (filled (values_of vars.now) (tree_of node.now)) }
    ensures large { IsFalse (fits (values_of vars.now) (tree_of node.now)) → result ≡ Err Memory }
    ensures size { IfOk result (λ filled. size (tree_of filled) ≤ most_bytes) }
{
    let values = table_of(alloc, vars)?;
    if !fits(node, &values) {
        return Err(VarsFault::Memory);
    }
    fill_node(alloc, node, &values)
}

#[cycle(fill)]
fn fill_node(alloc: Global, node: &Node, values: &Table) -> Result<Node, VarsFault>
    ensures { Gives tree_of result (filled (found_in values.now) (tree_of node.now)) }
{
    match node {
        Node::Null => Ok(Node::Null),
        Node::Bool(b) => Ok(Node::Bool(*b)),
        Node::Int(n) => Ok(Node::Int(*n)),
        Node::Text(text) => fill_text(alloc, text, values),
        Node::List(items) => Ok(Node::List(fill_items(alloc, items, values)?)),
        Node::Map(pairs) => Ok(Node::Map(fill_pairs(alloc, pairs, values)?)),
    }
}

fn push_item(filled: &mut Items, node: Node) -> Result<(), VarsFault>
    ensures ok { OnOk result (filled.new ≡ filled.old ++ tree_of node ∷ []) }
    ensures err { IfErr result (λ e. e ≡ Memory) }
{
    match filled.push(node) {
        Ok(()) => Ok(()),
        Err(_node) => Err(VarsFault::Memory),
    }
}

#[cycle(fill)]
fn fill_items(alloc: Global, items: &Items, values: &Table) -> Result<Items, VarsFault>
    ensures { Gives trees_of result (filled_items (found_in values.now) (trees_of items.now)) }
{
    let mut filled = Items::new(alloc);
    for node in items.as_slice() {
        let item = fill_node(alloc, node, values)?;
        push_item(&mut filled, item)?;
    }
    Ok(filled)
}

fn push_pair(filled: &mut Pairs, key: Str, value: Node) -> Result<(), VarsFault>
    requires { has_key key filled.old ≡ false }
    ensures ok { OnOk result (filled.new ≡ filled.old ++ (key, tree_of value) ∷ []) }
    ensures err { IfErr result (λ e. e ≡ Memory) }
{
    match filled.push(key, value) {
        Ok(()) => Ok(()),
        Err(_pair) => Err(VarsFault::Memory),
    }
}

#[cycle(fill)]
fn fill_pairs(alloc: Global, pairs: &Pairs, values: &Table) -> Result<Pairs, VarsFault>
    ensures { Gives fields_of result (filled_fields (found_in values.now) (fields_of pairs.now)) }
{
    let mut filled = Pairs::new(alloc);
    for (key, value) in pairs.as_slice() {
        let value = fill_node(alloc, value, values)?;
        let key = key.copy(alloc)?;
        push_pair(&mut filled, key, value)?;
    }
    Ok(filled)
}
