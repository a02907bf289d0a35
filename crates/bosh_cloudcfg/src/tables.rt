//! The tables of a cloud config.
ghost use Rattle.std.specs.Prelude.{codes};
ghost use Rattle.bosh_yaml.specs.View.{tree_of};
ghost use Rattle.bosh_fields.specs.Answer.{IsAnswer, both};
ghost use Rattle.bosh_fields.specs.Field.{required};
ghost use Rattle.bosh_cloudcfg.specs.Tables.{a_named_list, a_vm_kind, disk_types, kinds, tables};

use crate::items::Zone;
use crate::subnet::NetworkFields;
use crate::{Compilation, DiskKind, VmKind};
use bosh_base::Seq;
use bosh_fields::{Distinct, FieldFault, optional, required, required_both};
use bosh_yaml::Node;
use std::alloc::Global;

const MAX_NETWORKS: usize = 16;

// The most availability zones, and types of machines and of disks.
const MAX_KINDS: usize = 64;

/// The tables of a cloud config.
#[derive(Drop)]
pub(crate) struct Tables {
    pub(crate) azs: Seq<Zone>,
    pub(crate) networks: Seq<NetworkFields>,
    pub(crate) vm_types: Seq<VmKind>,
    pub(crate) disk_types: Seq<DiskKind>,
    pub(crate) compilation: Compilation,
}

// The types of disks, of which there may be none.
fn disk_types(alloc: Global, node: &Node) -> Result<Seq<DiskKind>, FieldFault>
    ensures { IsAnswer result (disk_types (tree_of node.now)) }
{
    match optional::<Distinct<DiskKind, MAX_KINDS>>(alloc, node, b"disk_types")? {
        Some(kinds) => Ok(kinds.into_items()),
        None => Ok(Seq::new(alloc)),
    }
}

// The types of machines and of disks.
fn vm_and_disk_types(alloc: Global, node: &Node) -> Result<(Seq<VmKind>, Seq<DiskKind>), FieldFault>
    ensures { IsAnswer result
        (both (required (a_named_list a_vm_kind 64) (codes "vm_types") (tree_of node.now)) (disk_types (tree_of node.now))) }
{
    let vm_types = required::<Distinct<VmKind, MAX_KINDS>>(alloc, node, b"vm_types")?;
    Ok((vm_types.into_items(), disk_types(alloc, node)?))
}

// The types, and where packages are compiled.
fn kinds(
    alloc: Global,
    node: &Node,
) -> Result<((Seq<VmKind>, Seq<DiskKind>), Compilation), FieldFault>
    ensures { IsAnswer result (kinds (tree_of node.now)) }
{
    let types = vm_and_disk_types(alloc, node)?;
    Ok((types, required(alloc, node, b"compilation")?))
}

/// The tables of a node.
pub(crate) fn read_tables(alloc: Global, node: &Node) -> Result<Tables, FieldFault>
    ensures { IsAnswer result (tables (tree_of node.now)) }
{
    let (azs, networks) = required_both::<
        Distinct<Zone, MAX_KINDS>,
        Distinct<NetworkFields, MAX_NETWORKS>,
    >(alloc, node, b"azs", b"networks")?;
    let ((vm_types, disk_types), compilation) = kinds(alloc, node)?;
    Ok(Tables {
        azs: azs.into_items(),
        networks: networks.into_items(),
        vm_types,
        disk_types,
        compilation,
    })
}
