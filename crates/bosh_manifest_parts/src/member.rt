//! Lists in which no name stands twice, and whose items depend on what is given for all of them.
ghost use Rattle.std.specs.Prelude.{◌≡◌, ℕ, List, [], ◌∷◌, map, codes, OnOk, Ok};
ghost use Rattle.bosh_yaml.specs.Tree.{trees_of};
ghost use Rattle.bosh_yaml.specs.View.{tree_of};
ghost use Rattle.bosh_fields.specs.Answer.{IsAnswer};
ghost use Rattle.bosh_fields.specs.Distinct.{distinct, fresh_name, name_in, next_item};
ghost use Rattle.bosh_fields.specs.Field.{required};
ghost use Rattle.bosh_fields.specs.Seen.{HasNames};
ghost use Rattle.bosh_manifest_parts.specs.Named.{a_named_list, each_named, some_items};

use bosh_base::{Name, Seq};
use bosh_fields::{FieldFault, item_name, items_up_to, missing, note_name, value_at};
use bosh_yaml::Node;
use std::alloc::Global;
use std::collections::BTreeSet;

/// An item that has a name.
pub trait Member: Drop {
    ghost use Rattle.std.specs.Prelude.{ℕ, List, Result};
    ghost use Rattle.bosh_yaml.specs.Tree.{Tree};
    ghost use Rattle.bosh_fields.specs.declared.fault.FieldFault.{FieldFault};

    /// What is given for all items.
    type Given;

    /// What an item of a name is.
    ghost item: { Self.Given → List ℕ → Tree → Result Self FieldFault };

    /// The item, whose name was read.
    fn item(alloc: Global, given: &Self::Given, name: Name, node: &Node) -> Result<Self, FieldFault>
        ensures { IsAnswer result (item given.now name (tree_of node.now)) };
}

// An item, whose name none before it has.
fn next_member<T: Member>(
    alloc: Global,
    given: &T::Given,
    key: &[u8],
    node: &Node,
    seen: &mut BTreeSet<Name>,
) -> Result<T, FieldFault>
    ensures item { (before : List (List ℕ)) → HasNames before seen.old
        → IsAnswer result (next_item (name_in (codes "name") key.now) (T.item given.now) before (tree_of node.now)) }
    ensures noted { (before : List (List ℕ)) → HasNames before seen.old
        → OnOk result ((name : List ℕ) → fresh_name (name_in (codes "name") key.now) before (tree_of node.now) ≡ Ok name
        → HasNames (name ∷ before) seen.new) }
{
    let name = item_name(alloc, b"name", key, node)?;
    note_name(alloc, &name, seen)?;
    T::item(alloc, given, name, node)
}

// The items that nodes are. As dear to prove as a body may be, since the set and the items are alive at each turn.
fn distinct_members<T: Member>(
    alloc: Global,
    given: &T::Given,
    key: &[u8],
    nodes: &[Node],
) -> Result<Seq<T>, FieldFault>
    ensures { IsAnswer result
        (distinct (name_in (codes "name") key.now) (T.item given.now) [] (trees_of (map tree_of nodes.now))) }
{
    let mut seen = BTreeSet::new(alloc);
    let mut items = Vec::new(alloc);
    for node in nodes {
        items.push(next_member(alloc, given, key, node, &mut seen)?)?;
    }
    Ok(Seq::from(items))
}

/// The items that nodes are, in their order.
#[tactic(auto, unfolding(crate::specs::Named::each_named))]
pub(crate) fn members<T: Member>(
    alloc: Global,
    given: &T::Given,
    key: &[u8],
    nodes: &[Node],
) -> Result<Seq<T>, FieldFault>
    ensures { IsAnswer result (each_named (T.item given.now) key.now (trees_of (map tree_of nodes.now))) }
{
    distinct_members(alloc, given, key, nodes)
}

/// The items of the list at a key, which has to be there, and has no more than the most.
pub fn required_members<T: Member>(
    alloc: Global,
    given: &T::Given,
    holder: &Node,
    key: &[u8],
    most: usize,
) -> Result<Seq<T>, FieldFault>
    ensures { IsAnswer result (required (a_named_list (T.item given.now) most) key.now (tree_of holder.now)) }
{
    match value_at(holder, key) {
        Some(list) => members(alloc, given, key, items_up_to(alloc, most, key, list)?),
        None => missing(alloc, key),
    }
}

/// Refuses a list without items, as if nothing stood at its key.
pub fn some_items<T: Drop>(alloc: Global, key: &[u8], items: Seq<T>) -> Result<Seq<T>, FieldFault>
    ensures { IsAnswer result (some_items key.now items) }
{
    if items.is_empty() {
        missing(alloc, key)
    } else {
        Ok(items)
    }
}
