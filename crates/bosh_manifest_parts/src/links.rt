//! The links of a mapping.
ghost use Rattle.std.specs.Prelude.{◌≡◌, ◌++◌, [], map, IfErr, OnOk};
ghost use Rattle.bosh_yaml.specs.Tree.{fields_of, text};
ghost use Rattle.bosh_yaml.specs.View.{pair_of, tree_of};
ghost use Rattle.bosh_fields.specs.Answer.{IsAnswer};
ghost use Rattle.bosh_fields.specs.Kind.{a_name};
ghost use Rattle.bosh_fields.specs.declared.fault.FieldFault.TheVariants.{Memory};
ghost use Rattle.bosh_manifest_parts.specs.Link.{a_link, before, each_link, links_at, named_link};

use crate::Member;
use bosh_base::{Name, OfFault, Seq};
use bosh_fields::{FieldFault, value_at, wrong_kind};
use bosh_yaml::{Node, Str};
use std::alloc::Global;

fn link_name(alloc: Global, key: &[u8], link: &Str) -> Result<Name, FieldFault>
    ensures { IsAnswer result (a_name key.now (text link.now)) }
{
    match Name::of(alloc, link.as_bytes()) {
        Ok(name) => Ok(name),
        Err(OfFault::NotOne) => wrong_kind(alloc, key),
        Err(OfFault::Memory) => Err(FieldFault::Memory),
    }
}

fn named_link<T: Member>(
    alloc: Global,
    given: &T::Given,
    key: &[u8],
    link: &Str,
    node: &Node,
) -> Result<Option<T>, FieldFault>
    ensures { IsAnswer result (named_link (T.item given.now) key.now link.now (tree_of node.now)) }
{
    let name = link_name(alloc, key, link)?;
    Ok(Some(T::item(alloc, given, name, node)?))
}

// A link by its name, if its value is not null.
fn link<T: Member>(
    alloc: Global,
    given: &T::Given,
    key: &[u8],
    link: &Str,
    node: &Node,
) -> Result<Option<T>, FieldFault>
    ensures { IsAnswer result (a_link (T.item given.now) key.now link.now (tree_of node.now)) }
{
    match node {
        Node::Null => Ok(None),
        _ => named_link(alloc, given, key, link, node),
    }
}

fn push_some<T: Drop>(items: &mut Vec<T>, item: Option<T>) -> Result<(), FieldFault>
    ensures ok { OnOk result (items.new.items ≡ items.old.items ++ before item []) }
    ensures err { IfErr result (λ fault. fault ≡ Memory) }
{
    if let Some(item) = item {
        items.push(item)?;
    }
    Ok(())
}

// The links in the order in which they are written.
fn each_link<T: Member>(
    alloc: Global,
    given: &T::Given,
    key: &[u8],
    fields: &[(Str, Node)],
) -> Result<Seq<T>, FieldFault>
    ensures { IsAnswer result (each_link (T.item given.now) key.now (fields_of (map pair_of fields.now))) }
{
    let mut links = Vec::new(alloc);
    for (name, node) in fields {
        push_some(&mut links, link(alloc, given, key, name, node)?)?;
    }
    Ok(Seq::from(links))
}

/// The links at a key; there are none where nothing stands there.
pub(crate) fn links_at<T: Member>(
    alloc: Global,
    given: &T::Given,
    holder: &Node,
    key: &[u8],
) -> Result<Seq<T>, FieldFault>
    ensures { IsAnswer result (links_at (T.item given.now) key.now (tree_of holder.now)) }
{
    match value_at(holder, key) {
        Some(Node::Map(pairs)) => each_link(alloc, given, key, pairs.as_slice()),
        Some(_) => wrong_kind(alloc, key),
        None => Ok(Seq::new(alloc)),
    }
}
