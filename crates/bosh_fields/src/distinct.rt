//! Lists in which no name stands twice.
ghost use Rattle.std.specs.Prelude.{◌≡◌, ℕ, List, [], ◌∷◌, map, OnOk, Ok, IfOk};
ghost use Rattle.bosh_yaml.specs.Tree.{trees_of};
ghost use Rattle.bosh_yaml.specs.View.{tree_of};
ghost use Rattle.bosh_fields.specs.Answer.{IsAnswer, IsAnswerSeen};
ghost use Rattle.bosh_fields.specs.Distinct.{distinct, fresh_name, name_in, new_name, next_item};
ghost use Rattle.bosh_fields.specs.Kind.{a_mapping};
ghost use Rattle.bosh_fields.specs.Seen.{HasNames};

use crate::fault::{repeated, wrong_kind};
use crate::field::required;
use crate::list::items_up_to;
use crate::{FieldFault, FromField};
use bosh_base::{Copyable, Name, Seq};
use bosh_yaml::Node;
use std::alloc::Global;
use std::collections::BTreeSet;
use std::marker::Model;

/// An item of a list in which no name stands twice.
pub trait NamedItem: Drop {
    ghost use Rattle.std.specs.Prelude.{ℕ, List, Result};
    ghost use Rattle.bosh_yaml.specs.Tree.{Tree};
    ghost use Rattle.bosh_fields.specs.Kind.{Kind};
    ghost use Rattle.bosh_fields.specs.declared.fault.FieldFault.{FieldFault};

    /// Which name an item has, under the key of its list.
    ghost naming: { Kind (List ℕ) };

    /// What an item of a name is.
    ghost item: { List ℕ → Tree → Result Self FieldFault };

    /// The name of an item of the list at a key.
    fn name(alloc: Global, key: &[u8], node: &Node) -> Result<Name, FieldFault>
        ensures { IsAnswer result (naming key.now (tree_of node.now)) };

    /// The item, whose name was read.
    fn item(alloc: Global, name: Name, node: &Node) -> Result<Self, FieldFault>
        ensures { IsAnswer result (item name (tree_of node.now)) };
}

/// Refuses what is no mapping.
pub fn check_mapping(alloc: Global, key: &[u8], node: &Node) -> Result<(), FieldFault>
    ensures { IsAnswerSeen (λ _. tree_of node.now) result (a_mapping key.now (tree_of node.now)) }
{
    match node {
        Node::Map(_) => Ok(()),
        _ => wrong_kind(alloc, key),
    }
}

/// The name at a key of an item of a list; the item has to be a mapping.
pub fn item_name(
    alloc: Global,
    name_key: &[u8],
    key: &[u8],
    node: &Node,
) -> Result<Name, FieldFault>
    ensures { IsAnswer result (name_in name_key.now key.now (tree_of node.now)) }
{
    check_mapping(alloc, key, node)?;
    required(alloc, node, name_key)
}

/// Notes a name that was not seen before, and refuses another.
pub fn note_name(alloc: Global, name: &Name, seen: &mut BTreeSet<Name>) -> Result<(), FieldFault>
    ensures new { (before : List (List ℕ)) → HasNames before seen.old
        → IsAnswerSeen (λ _. name.now) result (new_name before name.now) }
    ensures noted { (before : List (List ℕ)) → HasNames before seen.old
        → OnOk result (HasNames (name.now ∷ before) seen.new) }
{
    if seen.insert(name.copy(alloc)?)? {
        Ok(())
    } else {
        repeated(alloc, name.as_bytes())
    }
}

// The name of an item, which none before it has.
fn fresh_name<T: NamedItem>(
    alloc: Global,
    key: &[u8],
    node: &Node,
    seen: &mut BTreeSet<Name>,
) -> Result<Name, FieldFault>
    ensures new { (before : List (List ℕ)) → HasNames before seen.old
        → IsAnswer result (fresh_name (T.naming key.now) before (tree_of node.now)) }
    ensures noted { (before : List (List ℕ)) → HasNames before seen.old
        → IfOk result (λ name. HasNames (name ∷ before) seen.new) }
{
    let name = T::name(alloc, key, node)?;
    note_name(alloc, &name, seen)?;
    Ok(name)
}

// An item, whose name none before it has.
fn next_item<T: NamedItem>(
    alloc: Global,
    key: &[u8],
    node: &Node,
    seen: &mut BTreeSet<Name>,
) -> Result<T, FieldFault>
    ensures item { (before : List (List ℕ)) → HasNames before seen.old
        → IsAnswer result (next_item (T.naming key.now) T.item before (tree_of node.now)) }
    ensures noted { (before : List (List ℕ)) → HasNames before seen.old
        → OnOk result ((name : List ℕ) → fresh_name (T.naming key.now) before (tree_of node.now) ≡ Ok name
        → HasNames (name ∷ before) seen.new) }
{
    let name = fresh_name::<T>(alloc, key, node, seen)?;
    T::item(alloc, name, node)
}

// What each node is read as. As dear to prove as a body may be, since the set and the items are alive at each turn.
fn items_of<T: NamedItem>(alloc: Global, key: &[u8], nodes: &[Node]) -> Result<Seq<T>, FieldFault>
    ensures { IsAnswer result (distinct (T.naming key.now) T.item [] (trees_of (map tree_of nodes.now))) }
{
    let mut seen = BTreeSet::new(alloc);
    let mut items = Vec::new(alloc);
    for node in nodes {
        items.push(next_item(alloc, key, node, &mut seen)?)?;
    }
    Ok(Seq::from(items))
}

/// A list of at most `MOST` items, in which no name stands twice.
#[derive(Drop)]
pub struct Distinct<T, const MOST: usize> {
    items: Seq<T>,
}

impl<T, const MOST: usize> Model for Distinct<T, MOST> {
    ghost use Rattle.std.specs.Prelude.{List as Items};

    ghost Value = { Items T };

    ghost view = { λ list. list.items };
}

impl<T, const MOST: usize> Distinct<T, MOST> {
    pub fn into_items(self) -> Seq<T>
        ensures { result ≡ self }
    {
        let Distinct { items } = self;
        items
    }
}

impl<T: NamedItem, const MOST: usize> FromField for Distinct<T, MOST> {
    ghost use Rattle.bosh_fields.specs.Distinct.{a_distinct_list};

    ghost kind = { a_distinct_list T.naming T.item MOST };

    fn from_field(alloc: Global, key: &[u8], node: &Node) -> Result<Self, FieldFault> {
        let items = items_of(alloc, key, items_up_to(alloc, MOST, key, node)?)?;
        Ok(Distinct { items })
    }
}

impl NamedItem for Name {
    ghost use Rattle.bosh_fields.specs.Kind.{a_name};

    ghost naming = { a_name };

    ghost item = { λ name _. Ok name };

    fn name(alloc: Global, key: &[u8], node: &Node) -> Result<Name, FieldFault> {
        Name::from_field(alloc, key, node)
    }

    fn item(_alloc: Global, name: Name, _node: &Node) -> Result<Self, FieldFault> {
        Ok(name)
    }
}
