//! Links that jobs provide and consume, as a manifest changes them.
ghost use Rattle.std.specs.Prelude.{◌≡◌, Some};
ghost use Rattle.bosh_yaml.specs.View.{tree_of};
ghost use Rattle.bosh_fields.specs.Answer.{IsAnswer};
ghost use Rattle.bosh_manifest_parts.specs.Link.{an_offering, an_origin, is_nil, names, unless_own};

use crate::Member;
use crate::unoffered::is_text;
use bosh_base::{Name, Text};
use bosh_fields::{FieldFault, check_mapping, optional};
use bosh_lookup::Named;
use bosh_yaml::Node;
use std::alloc::Global;

/// How a link is offered.
#[derive(Drop)]
pub struct Offering {
    /// The name that it is public by, if not its own.
    pub alias: Option<Text>,
    /// Whether other deployments may use it.
    pub shared: bool,
}

/// A link that a job provides.
#[derive(Drop)]
pub struct Provide {
    pub link: Name,
    /// None where the manifest withdraws the link.
    pub offering: Option<Offering>,
}

/// Where the provider of a link is looked for.
#[derive(Drop)]
pub struct Origin {
    /// The public name that the provider is to have.
    pub from: Option<Text>,
    /// The deployment that it is of, if not the same one.
    pub deployment: Option<Name>,
}

/// A link that a job consumes.
#[derive(Drop)]
pub struct Consume {
    pub link: Name,
    /// None where the manifest blocks the link.
    pub origin: Option<Origin>,
}

impl Named for Provide {
    ghost name_of = { λ provide. provide.link };

    fn name(&self) -> &[u8] {
        self.link.as_bytes()
    }
}

impl Named for Consume {
    ghost name_of = { λ consume. consume.link };

    fn name(&self) -> &[u8] {
        self.link.as_bytes()
    }
}

fn is_nil(node: &Node) -> bool
    ensures { result ≡ is_nil (tree_of node.now) }
{
    is_text(b"nil", Some(node))
}

fn offering_of(alloc: Global, node: &Node) -> Result<Offering, FieldFault>
    ensures { IsAnswer result (an_offering (tree_of node.now)) }
{
    check_mapping(alloc, b"provides", node)?;
    let alias = optional(alloc, node, b"as")?;
    let shared = optional(alloc, node, b"shared")?;
    Ok(Offering {
        alias,
        shared: shared.unwrap_or(false),
    })
}

impl Member for Provide {
    ghost use Rattle.bosh_manifest_parts.specs.Link.{a_provide};

    /// The name of the deployment, which is not looked at.
    type Given = Name;

    ghost item = { λ _. a_provide };

    fn item(alloc: Global, _own: &Name, link: Name, node: &Node) -> Result<Self, FieldFault> {
        if is_nil(node) {
            return Ok(Provide {
                link,
                offering: None,
            });
        }
        let offering = Some(offering_of(alloc, node)?);
        Ok(Provide { link, offering })
    }
}

// A deployment, where it is another one.
fn unless_own(own: &Name, deployment: Option<Name>) -> Option<Name>
    ensures { result ≡ unless_own own.now deployment }
{
    match deployment {
        Some(deployment) if deployment == *own => None,
        other => other,
    }
}

fn names(alloc: Global, node: &Node) -> Result<(Option<Text>, Option<Name>), FieldFault>
    ensures { IsAnswer result (names (tree_of node.now)) }
{
    let from = optional(alloc, node, b"from")?;
    Ok((from, optional(alloc, node, b"deployment")?))
}

fn origin_of(alloc: Global, own: &Name, node: &Node) -> Result<Origin, FieldFault>
    ensures { IsAnswer result (an_origin own.now (tree_of node.now)) }
{
    check_mapping(alloc, b"consumes", node)?;
    let (from, deployment) = names(alloc, node)?;
    Ok(Origin {
        from,
        deployment: unless_own(own, deployment),
    })
}

impl Member for Consume {
    ghost use Rattle.bosh_manifest_parts.specs.Link.{a_consume};

    /// The name of the deployment.
    type Given = Name;

    ghost item = { a_consume };

    fn item(alloc: Global, own: &Name, link: Name, node: &Node) -> Result<Self, FieldFault> {
        if is_nil(node) {
            return Ok(Consume { link, origin: None });
        }
        let origin = Some(origin_of(alloc, own, node)?);
        Ok(Consume { link, origin })
    }
}
