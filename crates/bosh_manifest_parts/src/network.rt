//! The networks of a group.
ghost use Rattle.std.specs.Prelude.{◌≡◌, ◌==◌, count_by, map};
ghost use Rattle.std.specs.List.{list_any};
ghost use Rattle.bosh_yaml.specs.Tree.{trees_of};
ghost use Rattle.bosh_yaml.specs.View.{tree_of};
ghost use Rattle.bosh_fields.specs.Answer.{IsAnswer};
ghost use Rattle.bosh_fields.specs.List.{count};
ghost use Rattle.bosh_manifest_parts.specs.Network.{a_network_list, each_network, fixed_bands, group_networks, has_gateway, is_default_gateway, is_gateway, one_gateway, role_in, untyped};

use crate::member::{Member, members, some_items};
use bosh_base::{Band, Name, Seq};
use bosh_fields::{
    FieldFault, FromField, items_up_to, missing, optional, unsupported, value_at, wrong_kind,
};
use bosh_yaml::Node;
use std::alloc::Global;

// The most networks of a group.
const MAX_NETWORKS: usize = 16;

/// A network of a group.
#[derive(Drop)]
pub struct NetUse {
    pub net: Name,
    /// Addresses that the instances are to have.
    pub fixed: Seq<Band>,
    /// Whether the gateway of the instances is that of this network. It is so of one network of a group.
    pub gateway: bool,
}

/// What a network is the default for.
#[derive(Clone, Copy)]
enum Role {
    Dns,
    Gateway,
}

fn role_in(alloc: Global, key: &[u8], text: &[u8]) -> Result<Role, FieldFault>
    ensures { IsAnswer result (role_in key.now text.now) }
{
    if text == b"dns".as_slice() {
        Ok(Role::Dns)
    } else if text == b"gateway".as_slice() {
        Ok(Role::Gateway)
    } else if text == b"addressable".as_slice() {
        unsupported(alloc, key)
    } else {
        wrong_kind(alloc, key)
    }
}

impl FromField for Role {
    ghost use Rattle.bosh_fields.specs.List.{count};
    ghost use Rattle.bosh_manifest_parts.specs.Network.{a_role};

    ghost kind = { a_role };

    fn from_field(alloc: Global, key: &[u8], node: &Node) -> Result<Self, FieldFault> {
        match node {
            Node::Text(text) => role_in(alloc, key, text.as_bytes()),
            _ => wrong_kind(alloc, key),
        }
    }
}

// A text that is no address or range is of a wrong kind.
fn untyped(fault: FieldFault) -> FieldFault
    ensures { result ≡ untyped fault }
{
    match fault {
        FieldFault::Malformed { key } => FieldFault::WrongKind { key },
        other => other,
    }
}

fn fixed_bands(alloc: Global, node: &Node) -> Result<Seq<Band>, FieldFault>
    ensures { IsAnswer result (fixed_bands (tree_of node.now)) }
{
    match optional::<Seq<Band>>(alloc, node, b"static_ips") {
        Ok(bands) => Ok(bands.unwrap_or(Seq::new(alloc))),
        Err(fault) => Err(untyped(fault)),
    }
}

fn is_gateway(role: Role) -> bool
    ensures { result ≡ is_gateway role }
{
    match role {
        Role::Gateway => true,
        Role::Dns => false,
    }
}

fn have_gateway(roles: &Seq<Role>) -> bool
    ensures { result ≡ list_any is_gateway roles.now }
{
    roles.iter().any(|role| is_gateway(*role))
}

fn is_default_gateway(alloc: Global, node: &Node) -> Result<bool, FieldFault>
    ensures { IsAnswer result (is_default_gateway (tree_of node.now)) }
{
    match optional::<Seq<Role>>(alloc, node, b"default")? {
        Some(roles) => Ok(have_gateway(&roles)),
        None => Ok(false),
    }
}

impl Member for NetUse {
    ghost use Rattle.std.specs.Prelude.{Bool};
    ghost use Rattle.bosh_fields.specs.List.{count};
    ghost use Rattle.bosh_manifest_parts.specs.Network.{a_network};

    /// Whether the group has no other network.
    type Given = bool;

    ghost item = { a_network };

    fn item(alloc: Global, is_only: &bool, name: Name, node: &Node) -> Result<Self, FieldFault> {
        let fixed = fixed_bands(alloc, node)?;
        let gateway = is_default_gateway(alloc, node)?;
        Ok(NetUse {
            net: name,
            fixed,
            gateway: *is_only || gateway,
        })
    }
}

fn gateways(networks: &Seq<NetUse>) -> usize
    ensures { result ≡ count_by has_gateway networks.now }
{
    networks.iter().filter(|network| network.gateway).count()
}

// Refuses networks of which not exactly one has the gateway.
fn one_gateway(alloc: Global, networks: Seq<NetUse>) -> Result<Seq<NetUse>, FieldFault>
    ensures { IsAnswer result (one_gateway networks) }
{
    if gateways(&networks) == 1 {
        Ok(networks)
    } else {
        missing(alloc, b"default")
    }
}

// Whether there is one node.
fn is_one(nodes: &[Node]) -> bool
    ensures { result ≡ (count (trees_of (map tree_of nodes.now)) == 1) }
{
    nodes.len() == 1
}

fn each_network(alloc: Global, key: &[u8], nodes: &[Node]) -> Result<Seq<NetUse>, FieldFault>
    ensures { IsAnswer result (each_network key.now (trees_of (map tree_of nodes.now))) }
{
    let networks = members(alloc, &is_one(nodes), key, nodes)?;
    one_gateway(alloc, some_items(alloc, key, networks)?)
}

fn network_list(alloc: Global, key: &[u8], node: &Node) -> Result<Seq<NetUse>, FieldFault>
    ensures { IsAnswer result (a_network_list key.now (tree_of node.now)) }
{
    each_network(alloc, key, items_up_to(alloc, MAX_NETWORKS, key, node)?)
}

/// The networks of a group, exactly one of which has its gateway.
pub fn group_networks(alloc: Global, node: &Node) -> Result<Seq<NetUse>, FieldFault>
    ensures { IsAnswer result (group_networks (tree_of node.now)) }
{
    match value_at(node, b"networks") {
        Some(list) => network_list(alloc, b"networks", list),
        None => missing(alloc, b"networks"),
    }
}
