//! Manifests from their names on.
ghost use Rattle.std.specs.Prelude.{◌≡◌, ◌≤◌, true, nat_le, sum_by, Ok};
ghost use Rattle.bosh_yaml.specs.View.{tree_of};
ghost use Rattle.bosh_fields.specs.Answer.{IsAnswer, IsAnswerSeen};
ghost use Rattle.bosh_manifest.specs.Manifest.{a_manifest, all_groups, few_instances, groups, instances_of, offered, offered_groups};

use crate::Group;
use crate::group::Common;
use bosh_base::{Copyable, Name, Seq};
use bosh_fields::{FieldFault, check_nothing, limit, required};
use bosh_manifest_parts::{ReleaseUse, StemcellUse, required_members, sources};
use bosh_yaml::Node;
use std::alloc::Global;

// The most groups of a deployment.
const MAX_GROUPS: usize = 64;

// The most instances of a deployment.
const MAX_INSTANCES: u64 = 512;

/// What a manifest says.
#[derive(Drop)]
pub struct Contents {
    /// Of the deployment.
    pub name: Name,
    pub releases: Seq<ReleaseUse>,
    pub stemcells: Seq<StemcellUse>,
    pub groups: Seq<Group>,
}

fn check_offered(alloc: Global, node: &Node) -> Result<(), FieldFault>
    ensures { IsAnswerSeen (λ _. true) result (offered (tree_of node.now)) }
{
    check_nothing(alloc, node, b"variables")?;
    check_nothing(alloc, node, b"addons")?;
    check_nothing(alloc, node, b"properties")
}

// Whether groups have no more instances than a deployment may have.
fn are_few(groups: &[Group]) -> bool
    ensures { result ≡ nat_le (sum_by instances_of groups.now) 512 }
{
    let mut rest = MAX_INSTANCES;
    for group in groups {
        let count = u64::from(group.instances);
        if count > rest {
            return false;
        }
        rest -= count;
    }
    true
}

fn few_instances(alloc: Global, groups: Seq<Group>) -> Result<Seq<Group>, FieldFault>
    ensures { IsAnswer result (few_instances groups) }
{
    if are_few(groups.as_slice()) {
        Ok(groups)
    } else {
        limit(alloc, b"instances")
    }
}

#[tactic(auto, unfolding(crate::specs::Manifest::all_groups))]
fn all_groups(alloc: Global, common: &Common, node: &Node) -> Result<Seq<Group>, FieldFault>
    ensures { IsAnswer result (all_groups common.now (tree_of node.now)) }
{
    required_members(alloc, common, node, b"instance_groups", MAX_GROUPS)
}

fn offered_groups(alloc: Global, common: &Common, node: &Node) -> Result<Seq<Group>, FieldFault>
    ensures { IsAnswer result (offered_groups common.now (tree_of node.now)) }
{
    let groups = all_groups(alloc, common, node)?;
    check_offered(alloc, node)?;
    few_instances(alloc, groups)
}

fn own_name(alloc: Global, name: &Name) -> Result<Name, FieldFault>
    ensures { IsAnswer result (Ok name.now) }
{
    Ok(name.copy(alloc)?)
}

fn groups(alloc: Global, name: &Name, node: &Node) -> Result<Seq<Group>, FieldFault>
    ensures { IsAnswer result (groups name.now (tree_of node.now)) }
{
    let update = required(alloc, node, b"update")?;
    let common = Common {
        name: own_name(alloc, name)?,
        update,
    };
    offered_groups(alloc, &common, node)
}

/// What follows the name of a manifest.
pub(crate) fn read_manifest(alloc: Global, name: Name, node: &Node) -> Result<Contents, FieldFault>
    ensures { IsAnswer result (a_manifest name (tree_of node.now)) }
{
    let (releases, stemcells) = sources(alloc, node)?;
    let groups = groups(alloc, &name, node)?;
    Ok(Contents {
        name,
        releases,
        stemcells,
        groups,
    })
}
