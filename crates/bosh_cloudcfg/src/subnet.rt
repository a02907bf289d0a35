//! Subnets and networks, as a cloud config has them.
ghost use Rattle.std.specs.Prelude.{◌≡◌, codes};
ghost use Rattle.bosh_yaml.specs.View.{tree_of};
ghost use Rattle.bosh_fields.specs.Answer.{IsAnswer, both};
ghost use Rattle.bosh_fields.specs.Address.{a_band};
ghost use Rattle.bosh_cloudcfg.specs.Subnet.{is_manual, list_at, lists, network_type, zones_behind_dns};

use crate::block::Block;
use crate::zones::zones;
use bosh_base::{Addr, Band, Name, Seq, Text};
use bosh_fields::{
    FieldFault, FromField, List, NamedItem, check_mapping, item_name, optional, required,
    unsupported,
};
use bosh_yaml::Node;
use std::alloc::Global;

// The most subnets of a network.
const MAX_SUBNETS: usize = 16;

/// The fields of a subnet.
#[derive(Drop)]
pub(crate) struct SubnetFields {
    pub(crate) range: Band,
    pub(crate) gateway: Option<Addr>,
    pub(crate) reserved: Seq<Band>,
    pub(crate) fixed: Seq<Band>,
    /// The availability zones that it lists, if it lists any.
    pub(crate) azs: Option<Seq<Name>>,
}

/// The fields of a network.
#[derive(Drop)]
pub(crate) struct NetworkFields {
    pub(crate) name: Name,
    pub(crate) subnets: Seq<SubnetFields>,
}

// A list at a key, which is empty where the key is absent.
fn list_at<T: FromField>(alloc: Global, holder: &Node, key: &[u8]) -> Result<Seq<T>, FieldFault>
    ensures { IsAnswer result (list_at T.kind key.now (tree_of holder.now)) }
{
    let found = optional::<Seq<T>>(alloc, holder, key)?;
    Ok(found.unwrap_or(Seq::new(alloc)))
}

// The reserved and the static addresses.
fn bands(alloc: Global, node: &Node) -> Result<(Seq<Band>, Seq<Band>), FieldFault>
    ensures { IsAnswer result
        (both (list_at a_band (codes "reserved") (tree_of node.now))
        (list_at a_band (codes "static") (tree_of node.now))) }
{
    let reserved = list_at(alloc, node, b"reserved")?;
    Ok((reserved, list_at(alloc, node, b"static")?))
}

// The zones, behind the addresses of name servers.
fn zones_behind_dns(alloc: Global, node: &Node) -> Result<Option<Seq<Name>>, FieldFault>
    ensures { IsAnswer result (zones_behind_dns (tree_of node.now)) }
{
    let _dns = list_at::<Addr>(alloc, node, b"dns")?;
    zones(alloc, node)
}

// The reserved and the static addresses, and the zones.
fn lists(
    alloc: Global,
    node: &Node,
) -> Result<((Seq<Band>, Seq<Band>), Option<Seq<Name>>), FieldFault>
    ensures { IsAnswer result (lists (tree_of node.now)) }
{
    let bands = bands(alloc, node)?;
    Ok((bands, zones_behind_dns(alloc, node)?))
}

impl FromField for SubnetFields {
    ghost use Rattle.bosh_cloudcfg.specs.Subnet.{a_subnet};

    ghost kind = { a_subnet };

    fn from_field(alloc: Global, key: &[u8], node: &Node) -> Result<Self, FieldFault> {
        check_mapping(alloc, key, node)?;
        let block = required::<Block>(alloc, node, b"range")?;
        let gateway = optional::<Addr>(alloc, node, b"gateway")?;
        let ((reserved, fixed), azs) = lists(alloc, node)?;
        Ok(SubnetFields {
            range: block.addresses,
            gateway,
            reserved,
            fixed,
            azs,
        })
    }
}

// The type of a network, which is `manual` where it is given.
fn is_manual(alloc: Global, given: Option<Text>) -> Result<Option<Text>, FieldFault>
    ensures { IsAnswer result (is_manual given) }
{
    match given {
        None => Ok(None),
        Some(kind) => {
            if kind.as_slice() == b"manual".as_slice() {
                Ok(Some(kind))
            } else {
                unsupported(alloc, b"type")
            }
        }
    }
}

fn network_type(alloc: Global, node: &Node) -> Result<Option<Text>, FieldFault>
    ensures { IsAnswer result (network_type (tree_of node.now)) }
{
    is_manual(alloc, optional(alloc, node, b"type")?)
}

impl NamedItem for NetworkFields {
    ghost use Rattle.std.specs.Prelude.{codes};
    ghost use Rattle.bosh_fields.specs.Distinct.{name_in};
    ghost use Rattle.bosh_cloudcfg.specs.Subnet.{a_network};

    ghost naming = { name_in (codes "name") };

    ghost item = { a_network };

    fn name(alloc: Global, key: &[u8], node: &Node) -> Result<Name, FieldFault> {
        item_name(alloc, b"name", key, node)
    }

    fn item(alloc: Global, name: Name, node: &Node) -> Result<Self, FieldFault> {
        let _type = network_type(alloc, node)?;
        let subnets = required::<List<SubnetFields, MAX_SUBNETS>>(alloc, node, b"subnets")?;
        Ok(NetworkFields {
            name,
            subnets: subnets.into_values(),
        })
    }
}
