//! Lists of values of one kind.
ghost use Rattle.std.specs.Prelude.{◌≡◌, map};
ghost use Rattle.bosh_yaml.specs.Tree.{trees_of};
ghost use Rattle.bosh_yaml.specs.View.{tree_of};
ghost use Rattle.bosh_fields.specs.Answer.{IsAnswer, IsAnswerSeen};
ghost use Rattle.bosh_fields.specs.Kind.{items};
ghost use Rattle.bosh_fields.specs.List.{each, items_up_to};

use crate::fault::{limit, wrong_kind};
use crate::{FieldFault, FromField};
use bosh_base::Seq;
use bosh_yaml::Node;
use std::alloc::Global;
use std::marker::Model;

/// The most items of a list that may have any number of them.
pub const UNLIMITED: usize = usize::MAX;

// The items of a list.
fn items<'a>(alloc: Global, key: &[u8], node: &'a Node) -> Result<&'a [Node], FieldFault>
    ensures { IsAnswerSeen (λ nodes. trees_of (map tree_of nodes.now)) result (items key.now (tree_of node.now)) }
{
    match node {
        Node::List(items) => Ok(items.as_slice()),
        _ => wrong_kind(alloc, key),
    }
}

/// The items of a list that has no more than the most.
#[tactic(auto, using(crate::proofs::ListLemmas::count_trees))]
pub fn items_up_to<'a>(
    alloc: Global,
    most: usize,
    key: &[u8],
    node: &'a Node,
) -> Result<&'a [Node], FieldFault>
    ensures { IsAnswerSeen (λ nodes. trees_of (map tree_of nodes.now)) result
        (items_up_to most key.now (tree_of node.now)) }
{
    let nodes = items(alloc, key, node)?;
    if nodes.len() <= most {
        Ok(nodes)
    } else {
        limit(alloc, key)
    }
}

// What each node is read as.
fn each<T: FromField>(alloc: Global, key: &[u8], nodes: &[Node]) -> Result<Seq<T>, FieldFault>
    ensures { IsAnswer result (each (T.kind key.now) (trees_of (map tree_of nodes.now))) }
{
    let mut values = Vec::new(alloc);
    for node in nodes {
        values.push(T::from_field(alloc, key, node)?)?;
    }
    Ok(Seq::from(values))
}

impl<T: FromField> FromField for Seq<T> {
    ghost use Rattle.bosh_fields.specs.List.{a_list};

    ghost kind = { a_list T.kind };

    fn from_field(alloc: Global, key: &[u8], node: &Node) -> Result<Self, FieldFault> {
        each(alloc, key, items(alloc, key, node)?)
    }
}

/// A list of at most `MOST` values.
#[derive(Drop)]
pub struct List<T, const MOST: usize> {
    values: Seq<T>,
}

impl<T, const MOST: usize> Model for List<T, MOST> {
    ghost use Rattle.std.specs.Prelude.{List as Values};

    ghost Value = { Values T };

    ghost view = { λ list. list.values };
}

impl<T, const MOST: usize> List<T, MOST> {
    pub fn into_values(self) -> Seq<T>
        ensures { result ≡ self }
    {
        let List { values } = self;
        values
    }
}

impl<T: FromField, const MOST: usize> FromField for List<T, MOST> {
    ghost use Rattle.bosh_fields.specs.List.{a_list_up_to};

    ghost kind = { a_list_up_to MOST T.kind };

    fn from_field(alloc: Global, key: &[u8], node: &Node) -> Result<Self, FieldFault> {
        let values = each(alloc, key, items_up_to(alloc, MOST, key, node)?)?;
        Ok(List { values })
    }
}
