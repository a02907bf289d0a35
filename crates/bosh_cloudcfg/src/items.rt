//! Availability zones, and types of machines and disks, as a cloud config has them.
ghost use Rattle.std.specs.Prelude.{◌≡◌, Ok};
ghost use Rattle.bosh_yaml.specs.Canon.{canon_text};
ghost use Rattle.bosh_yaml.specs.View.{tree_of};
ghost use Rattle.bosh_fields.specs.Answer.{IsAnswer};
ghost use Rattle.bosh_cloudcfg.specs.Properties.{properties};
ghost use Rattle.bosh_cloudcfg.specs.Tables.{places};

use crate::{Compilation, DiskKind, VmKind};
use bosh_base::{DiskWant, Name, Text};
use bosh_fields::{
    FieldFault, FromField, NamedItem, Number, check_mapping, item_name, required, required_both,
    value_at,
};
use bosh_yaml::{Node, canon};
use std::alloc::Global;

/// An availability zone.
#[derive(Drop)]
pub(crate) struct Zone {
    pub(crate) name: Name,
}

fn canonical(alloc: Global, node: &Node) -> Result<Text, FieldFault>
    ensures { IsAnswer result (Ok (canon_text (tree_of node.now))) }
{
    match canon(alloc, node) {
        Ok(text) => Ok(Text::from(text)),
        Err(_) => Err(FieldFault::Memory),
    }
}

// The cloud properties of a type.
fn properties(alloc: Global, node: &Node) -> Result<Text, FieldFault>
    ensures { IsAnswer result (Ok (properties (tree_of node.now))) }
{
    match value_at(node, b"cloud_properties") {
        Some(given) => canonical(alloc, given),
        None => canonical(alloc, &Node::Null),
    }
}

impl NamedItem for Zone {
    ghost use Rattle.std.specs.Prelude.{codes};
    ghost use Rattle.bosh_fields.specs.Distinct.{name_in};
    ghost use Rattle.bosh_cloudcfg.specs.Tables.{a_zone};

    ghost naming = { name_in (codes "name") };

    ghost item = { a_zone };

    fn name(alloc: Global, key: &[u8], node: &Node) -> Result<Name, FieldFault> {
        item_name(alloc, b"name", key, node)
    }

    fn item(_alloc: Global, name: Name, _node: &Node) -> Result<Self, FieldFault> {
        Ok(Zone { name })
    }
}

impl NamedItem for VmKind {
    ghost use Rattle.std.specs.Prelude.{codes};
    ghost use Rattle.bosh_fields.specs.Distinct.{name_in};
    ghost use Rattle.bosh_cloudcfg.specs.Tables.{a_vm_kind};

    ghost naming = { name_in (codes "name") };

    ghost item = { a_vm_kind };

    fn name(alloc: Global, key: &[u8], node: &Node) -> Result<Name, FieldFault> {
        item_name(alloc, b"name", key, node)
    }

    fn item(alloc: Global, name: Name, node: &Node) -> Result<Self, FieldFault> {
        let properties = properties(alloc, node)?;
        Ok(VmKind { name, properties })
    }
}

impl NamedItem for DiskKind {
    ghost use Rattle.std.specs.Prelude.{codes};
    ghost use Rattle.bosh_fields.specs.Distinct.{name_in};
    ghost use Rattle.bosh_cloudcfg.specs.Tables.{a_disk_kind};

    ghost naming = { name_in (codes "name") };

    ghost item = { a_disk_kind };

    fn name(alloc: Global, key: &[u8], node: &Node) -> Result<Name, FieldFault> {
        item_name(alloc, b"name", key, node)
    }

    fn item(alloc: Global, name: Name, node: &Node) -> Result<Self, FieldFault> {
        let size = required::<Number<1, 16_777_216>>(alloc, node, b"disk_size")?.value();
        let properties = properties(alloc, node)?;
        let want = DiskWant { size, properties };
        Ok(DiskKind { name, want })
    }
}

// The zone, the type of machines and the network.
fn places(alloc: Global, node: &Node) -> Result<(Name, (Name, Name)), FieldFault>
    ensures { IsAnswer result (places (tree_of node.now)) }
{
    let az = required(alloc, node, b"az")?;
    let others = required_both(alloc, node, b"vm_type", b"network")?;
    Ok((az, others))
}

impl FromField for Compilation {
    ghost use Rattle.bosh_cloudcfg.specs.Tables.{a_compilation};

    ghost kind = { a_compilation };

    fn from_field(alloc: Global, key: &[u8], node: &Node) -> Result<Self, FieldFault> {
        check_mapping(alloc, key, node)?;
        let workers = required::<Number<1, 64>>(alloc, node, b"workers")?.value();
        let (az, (vm_type, network)) = places(alloc, node)?;
        Ok(Compilation {
            workers,
            az,
            vm_type,
            network,
        })
    }
}
