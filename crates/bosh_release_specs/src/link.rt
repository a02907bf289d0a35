//! Links that a job provides or consumes.
ghost use Rattle.std.specs.Prelude.{◌≡◌, ◌∷◌, ◌++◌, map};
ghost use Rattle.bosh_yaml.specs.Tree.{trees_of};
ghost use Rattle.bosh_yaml.specs.View.{tree_of};
ghost use Rattle.bosh_fields.specs.Answer.{IsAnswer};
ghost use Rattle.bosh_fields.specs.List.{each};
ghost use Rattle.bosh_release_specs.specs.JobSpec.{list_at};

use crate::package_file::list_at;
use bosh_base::{LinkSpec, Seq};
use bosh_fields::{FieldFault, check_mapping, optional, required, value_at, wrong_kind};
use bosh_yaml::Node;
use std::alloc::Global;

/// A side of links.
pub(crate) trait Side {
    ghost use Rattle.bosh_base.specs.declared.release.LinkSpec.{LinkSpec};
    ghost use Rattle.bosh_fields.specs.Kind.{Kind};

    ghost form: { Kind LinkSpec };

    fn link(alloc: Global, key: &[u8], node: &Node) -> Result<LinkSpec, FieldFault>
        ensures { IsAnswer result (form key.now (tree_of node.now)) };
}

/// Links that a job provides, each with the properties that it lists.
pub(crate) enum Provided {}

impl Side for Provided {
    ghost use Rattle.bosh_release_specs.specs.JobSpec.{a_provided_link};

    ghost form = { a_provided_link };

    fn link(alloc: Global, key: &[u8], node: &Node) -> Result<LinkSpec, FieldFault> {
        check_mapping(alloc, key, node)?;
        let name = required(alloc, node, b"name")?;
        let kind = required(alloc, node, b"type")?;
        let properties = list_at(alloc, node, b"properties")?;
        Ok(LinkSpec {
            name,
            kind,
            optional: false,
            properties,
        })
    }
}

/// Links that a job consumes.
pub(crate) enum Consumed {}

impl Side for Consumed {
    ghost use Rattle.bosh_release_specs.specs.JobSpec.{a_consumed_link};

    ghost form = { a_consumed_link };

    fn link(alloc: Global, key: &[u8], node: &Node) -> Result<LinkSpec, FieldFault> {
        check_mapping(alloc, key, node)?;
        let name = required(alloc, node, b"name")?;
        let kind = required(alloc, node, b"type")?;
        let flag = optional(alloc, node, b"optional")?;
        Ok(LinkSpec {
            name,
            kind,
            optional: flag.unwrap_or(false),
            properties: Seq::new(alloc),
        })
    }
}

// What each node is read as.
fn each_link<S: Side>(
    alloc: Global,
    key: &[u8],
    nodes: &[Node],
) -> Result<Seq<LinkSpec>, FieldFault>
    ensures { IsAnswer result (each (S.form key.now) (trees_of (map tree_of nodes.now))) }
{
    let mut links = Vec::new(alloc);
    for node in nodes {
        links.push(S::link(alloc, key, node)?)?;
    }
    Ok(Seq::from(links))
}

/// The links at a key; there are none where nothing stands there.
pub(crate) fn links_at<S: Side>(
    alloc: Global,
    holder: &Node,
    key: &[u8],
) -> Result<Seq<LinkSpec>, FieldFault>
    ensures { IsAnswer result (list_at S.form key.now (tree_of holder.now)) }
{
    match value_at(holder, key) {
        Some(Node::List(items)) => each_link::<S>(alloc, key, items.as_slice()),
        Some(_) => wrong_kind(alloc, key),
        None => Ok(Seq::new(alloc)),
    }
}
