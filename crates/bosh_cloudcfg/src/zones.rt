//! The availability zones that a subnet lists.
ghost use Rattle.std.specs.Prelude.{◌≡◌};
ghost use Rattle.bosh_yaml.specs.View.{tree_of};
ghost use Rattle.bosh_fields.specs.Answer.{IsAnswer};
ghost use Rattle.bosh_cloudcfg.specs.Zones.{names, one_zone, zones};

use bosh_base::{Name, Seq};
use bosh_fields::{Distinct, FieldFault, FromField, UNLIMITED, optional, value_at};
use bosh_yaml::Node;
use std::alloc::Global;

fn names(alloc: Global, key: &[u8], node: &Node) -> Result<Seq<Name>, FieldFault>
    ensures { IsAnswer result (names key.now (tree_of node.now)) }
{
    Ok(Distinct::<Name, UNLIMITED>::from_field(alloc, key, node)?.into_items())
}

fn one_zone(alloc: Global, node: &Node) -> Result<Option<Seq<Name>>, FieldFault>
    ensures { IsAnswer result (one_zone (tree_of node.now)) }
{
    let Some(az) = optional::<Name>(alloc, node, b"az")? else {
        return Ok(None);
    };
    let mut zones = Vec::new(alloc);
    zones.push(az)?;
    Ok(Some(Seq::from(zones)))
}

/// The zones of a subnet, where it lists any.
pub(crate) fn zones(alloc: Global, node: &Node) -> Result<Option<Seq<Name>>, FieldFault>
    ensures { IsAnswer result (zones (tree_of node.now)) }
{
    match value_at(node, b"azs") {
        Some(azs) => Ok(Some(names(alloc, b"azs", azs)?)),
        None => one_zone(alloc, node),
    }
}
