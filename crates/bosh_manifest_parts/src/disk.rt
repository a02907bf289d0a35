//! The persistent disk of each instance of a group.
ghost use Rattle.std.specs.Prelude.{◌≡◌, codes};
ghost use Rattle.bosh_yaml.specs.View.{tree_of};
ghost use Rattle.bosh_fields.specs.Answer.{IsAnswer, both};
ghost use Rattle.bosh_fields.specs.Field.{optional};
ghost use Rattle.bosh_fields.specs.Kind.{a_name};
ghost use Rattle.bosh_fields.specs.Number.{a_number};
ghost use Rattle.bosh_manifest_parts.specs.Disk.{group_disk, one_disk};

use bosh_base::Name;
use bosh_fields::{FieldFault, Number, optional, wrong_kind};
use bosh_yaml::Node;
use std::alloc::Global;

/// Which persistent disk an instance is to have.
#[derive(Drop)]
pub enum DiskUse {
    /// One of a size in MB, from 1 on.
    Size(u32),
    /// One of a type.
    Kind(Name),
}

fn size(alloc: Global, node: &Node) -> Result<Option<u32>, FieldFault>
    ensures { IsAnswer result (optional (a_number 0 16777216) (codes "persistent_disk") (tree_of node.now)) }
{
    match optional::<Number<0, 16_777_216>>(alloc, node, b"persistent_disk")? {
        Some(size) => Ok(Some(size.value())),
        None => Ok(None),
    }
}

fn size_and_kind(alloc: Global, node: &Node) -> Result<(Option<u32>, Option<Name>), FieldFault>
    ensures { IsAnswer result
        (both (optional (a_number 0 16777216) (codes "persistent_disk") (tree_of node.now))
        (optional a_name (codes "persistent_disk_type") (tree_of node.now))) }
{
    let size = size(alloc, node)?;
    Ok((size, optional(alloc, node, b"persistent_disk_type")?))
}

fn one_disk(
    alloc: Global,
    size: Option<u32>,
    kind: Option<Name>,
) -> Result<Option<DiskUse>, FieldFault>
    ensures { IsAnswer result (one_disk size kind) }
{
    match (size, kind) {
        (None, None) | (Some(0), None) => Ok(None),
        (None, Some(kind)) => Ok(Some(DiskUse::Kind(kind))),
        (Some(size), None) => Ok(Some(DiskUse::Size(size))),
        (Some(_), Some(_)) => wrong_kind(alloc, b"persistent_disk"),
    }
}

/// The disk of a group, if it has one.
pub fn group_disk(alloc: Global, node: &Node) -> Result<Option<DiskUse>, FieldFault>
    ensures { IsAnswer result (group_disk (tree_of node.now)) }
{
    let (size, kind) = size_and_kind(alloc, node)?;
    one_disk(alloc, size, kind)
}
