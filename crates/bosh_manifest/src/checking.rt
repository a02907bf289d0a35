ghost use Rattle.std.specs.Prelude.{◌≡◌, Err, Ok};
ghost use Rattle.bosh_base.specs.Name.{IsName};
ghost use Rattle.bosh_yaml.specs.View.{tree_of};
ghost use Rattle.bosh_manifest.specs.Answer.{IsAnswer};
ghost use Rattle.bosh_manifest.specs.Check.{manifest_of, named};
ghost use Rattle.bosh_manifest.specs.declared.fault.ManifestFault.TheVariants.{NameDiffers};

use crate::manifest::read_manifest;
use crate::{Manifest, ManifestFault};
use bosh_base::{Name, Text};
use bosh_fields::required;
use bosh_yaml::Node;
use std::alloc::Global;

fn differs(alloc: Global, name: &Name) -> Result<Manifest, ManifestFault>
    ensures { IsAnswer result (Err (NameDiffers name.now)) }
{
    match Vec::from_slice(alloc, name.as_bytes()) {
        Ok(bytes) => Err(ManifestFault::NameDiffers {
            name: Text::from(bytes),
        }),
        Err(_) => Err(ManifestFault::Memory),
    }
}

fn named(
    alloc: Global,
    name: Name,
    node: &Node,
    deployment: &Name,
) -> Result<Manifest, ManifestFault>
    requires { IsName name }
    ensures { IsAnswer result (named deployment.now (Ok name) (tree_of node.now)) }
{
    if name == *deployment {
        Ok(Manifest::of(read_manifest(alloc, name, node)?))
    } else {
        differs(alloc, &name)
    }
}

/// The manifest that a node is, which has to be that of a deployment, or its first fault. The name comes first, then
/// the other keys in their order: the releases, the stemcells, the update rules, the groups, and what is not offered;
/// last, how many instances there are in all. Within a list an item's name comes first, and then its other keys in
/// their order. Other keys are not looked at.
pub fn check(alloc: Global, node: &Node, deployment: &Name) -> Result<Manifest, ManifestFault>
    ensures { IsAnswer result (manifest_of deployment.now (tree_of node.now)) }
{
    let name = required(alloc, node, b"name")?;
    named(alloc, name, node, deployment)
}
