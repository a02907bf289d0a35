//! The jobs of a group.
ghost use Rattle.std.specs.Prelude.{◌≡◌, codes, map, Ok};
ghost use Rattle.bosh_yaml.specs.Tree.{map as map_of, no_fields};
ghost use Rattle.bosh_yaml.specs.View.{tree_of};
ghost use Rattle.bosh_fields.specs.Answer.{IsAnswer, both};
ghost use Rattle.bosh_fields.specs.Field.{required};
ghost use Rattle.bosh_fields.specs.Kind.{a_name};
ghost use Rattle.bosh_manifest_parts.specs.Job.{group_jobs, links, properties};

use crate::Member;
use crate::link::{Consume, Provide};
use crate::links::links_at;
use crate::member::required_members;
use bosh_base::{Name, Seq};
use bosh_fields::{FieldFault, check_mapping, required, value_at};
use bosh_yaml::{Copied, CopyFault, Node, Pairs};
use std::alloc::Global;
use std::marker::Model;

// The most jobs of a group.
const MAX_JOBS: usize = 64;

/// The properties of a job, which are a mapping.
#[derive(Drop)]
pub struct Properties {
    node: Node,
}

impl Model for Properties {
    ghost use Rattle.bosh_yaml.specs.Tree.{Tree};
    ghost use Rattle.bosh_yaml.specs.Code.{tree_code};
    ghost use Rattle.bosh_yaml.specs.View.{tree_of};

    ghost Value = { Tree };

    ghost coded = { tree_code };

    ghost view = { λ properties. tree_of properties.node };
}

impl Properties {
    pub fn as_node(&self) -> &Node
        ensures { tree_of result.now ≡ self.now }
    {
        &self.node
    }
}

/// A job that the instances of a group run.
#[derive(Drop)]
pub struct JobUse {
    pub name: Name,
    pub release: Name,
    pub properties: Properties,
    pub provides: Seq<Provide>,
    pub consumes: Seq<Consume>,
}

fn copy_of(alloc: Global, node: &Node) -> Result<Properties, FieldFault>
    ensures { IsAnswer result (Ok (tree_of node.now)) }
{
    match node.copy(alloc) {
        Ok(node) => Ok(Properties { node }),
        Err(CopyFault::Memory) => Err(FieldFault::Memory),
    }
}

fn properties_at(alloc: Global, node: &Node) -> Result<Properties, FieldFault>
    ensures { IsAnswer result (properties (tree_of node.now)) }
{
    let Some(given) = value_at(node, b"properties") else {
        return Ok(Properties {
            node: Node::Map(Pairs::new(alloc)),
        });
    };
    check_mapping(alloc, b"properties", given)?;
    copy_of(alloc, given)
}

fn release_and_properties(alloc: Global, node: &Node) -> Result<(Name, Properties), FieldFault>
    ensures { IsAnswer result
        (both (required a_name (codes "release") (tree_of node.now)) (properties (tree_of node.now))) }
{
    let release = required(alloc, node, b"release")?;
    Ok((release, properties_at(alloc, node)?))
}

fn links(alloc: Global, own: &Name, node: &Node) -> Result<(Seq<Provide>, Seq<Consume>), FieldFault>
    ensures { IsAnswer result (links own.now (tree_of node.now)) }
{
    let provides = links_at(alloc, own, node, b"provides")?;
    Ok((provides, links_at(alloc, own, node, b"consumes")?))
}

impl Member for JobUse {
    ghost use Rattle.bosh_manifest_parts.specs.Job.{a_job};

    /// The name of the deployment.
    type Given = Name;

    ghost item = { a_job };

    // Dear to prove: the name, the release and the properties are alive where a link may be refused.
    fn item(alloc: Global, own: &Name, name: Name, node: &Node) -> Result<Self, FieldFault> {
        let (release, properties) = release_and_properties(alloc, node)?;
        let (provides, consumes) = links(alloc, own, node)?;
        Ok(JobUse {
            name,
            release,
            properties,
            provides,
            consumes,
        })
    }
}

/// The jobs of a group of a deployment.
pub fn group_jobs(alloc: Global, own: &Name, node: &Node) -> Result<Seq<JobUse>, FieldFault>
    ensures { IsAnswer result (group_jobs own.now (tree_of node.now)) }
{
    required_members(alloc, own, node, b"jobs", MAX_JOBS)
}
