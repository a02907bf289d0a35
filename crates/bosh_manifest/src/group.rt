//! Instance groups.
ghost use Rattle.std.specs.Prelude.{◌≡◌, true, codes};
ghost use Rattle.bosh_yaml.specs.View.{tree_of};
ghost use Rattle.bosh_fields.specs.Answer.{IsAnswer, IsAnswerSeen, both};
ghost use Rattle.bosh_fields.specs.Field.{required};
ghost use Rattle.bosh_fields.specs.Kind.{a_name};
ghost use Rattle.bosh_fields.specs.Number.{a_number};
ghost use Rattle.bosh_manifest_parts.specs.Disk.{group_disk};
ghost use Rattle.bosh_manifest_parts.specs.Job.{group_jobs};
ghost use Rattle.bosh_manifest_parts.specs.Network.{group_networks};
ghost use Rattle.bosh_manifest.specs.Group.{contents, offered, place, service, update_of, zones};

use bosh_base::{Name, Seq};
use bosh_fields::{
    Distinct, FieldFault, Number, UNLIMITED, check_nothing, is_empty, required, required_both,
    unless_asked, value_at,
};
use bosh_manifest_parts::{
    DiskUse, JobUse, Member, NetUse, group_disk, group_jobs, group_networks, is_text, some_items,
};
use bosh_manifest_update::{Update, group_update};
use bosh_yaml::Node;
use std::alloc::Global;

/// A group of instances.
#[derive(Drop)]
pub struct Group {
    pub name: Name,
    /// How many there are, at most 256.
    pub instances: u32,
    /// The availability zones that they are spread over.
    pub azs: Seq<Name>,
    pub vm_type: Name,
    /// The alias of the stemcell.
    pub stemcell: Name,
    pub networks: Seq<NetUse>,
    pub jobs: Seq<JobUse>,
    pub disk: Option<DiskUse>,
    pub update: Update,
}

/// What the groups of a deployment have in common.
#[derive(Drop)]
pub struct Common {
    /// The name of the deployment.
    pub name: Name,
    /// The rules of a group that gives none.
    pub update: Update,
}

fn zones(alloc: Global, node: &Node) -> Result<Seq<Name>, FieldFault>
    ensures { IsAnswer result (zones (tree_of node.now)) }
{
    let names = required::<Distinct<Name, UNLIMITED>>(alloc, node, b"azs")?;
    some_items(alloc, b"azs", names.into_items())
}

// The zones, the type of machines and the stemcell.
fn place(alloc: Global, node: &Node) -> Result<(Seq<Name>, (Name, Name)), FieldFault>
    ensures { IsAnswer result (place (tree_of node.now)) }
{
    let azs = zones(alloc, node)?;
    Ok((azs, required_both(alloc, node, b"vm_type", b"stemcell")?))
}

fn check_service(alloc: Global, node: &Node) -> Result<(), FieldFault>
    ensures { IsAnswerSeen (λ _. true) result (service (tree_of node.now)) }
{
    let given = value_at(node, b"lifecycle");
    unless_asked(
        alloc,
        b"lifecycle",
        is_empty(given) || is_text(b"service", given),
    )
}

fn check_offered(alloc: Global, node: &Node) -> Result<(), FieldFault>
    ensures { IsAnswerSeen (λ _. true) result (offered (tree_of node.now)) }
{
    check_service(alloc, node)?;
    check_nothing(alloc, node, b"migrated_from")?;
    check_nothing(alloc, node, b"vm_extensions")?;
    check_nothing(alloc, node, b"vm_resources")
}

fn update_of(alloc: Global, common: Update, node: &Node) -> Result<Update, FieldFault>
    ensures { IsAnswer result (update_of common (tree_of node.now)) }
{
    let update = group_update(alloc, common, node)?;
    check_offered(alloc, node)?;
    Ok(update)
}

fn networks_and_jobs(
    alloc: Global,
    own: &Name,
    node: &Node,
) -> Result<(Seq<NetUse>, Seq<JobUse>), FieldFault>
    ensures { IsAnswer result (both (group_networks (tree_of node.now)) (group_jobs own.now (tree_of node.now))) }
{
    let networks = group_networks(alloc, node)?;
    Ok((networks, group_jobs(alloc, own, node)?))
}

fn disk_and_update(
    alloc: Global,
    common: Update,
    node: &Node,
) -> Result<(Option<DiskUse>, Update), FieldFault>
    ensures { IsAnswer result (both (group_disk (tree_of node.now)) (update_of common (tree_of node.now))) }
{
    let disk = group_disk(alloc, node)?;
    Ok((disk, update_of(alloc, common, node)?))
}

// What the instances are attached to and run, and how they are updated.
fn contents(
    alloc: Global,
    common: &Common,
    node: &Node,
) -> Result<((Seq<NetUse>, Seq<JobUse>), (Option<DiskUse>, Update)), FieldFault>
    ensures { IsAnswer result (contents common.now (tree_of node.now)) }
{
    let shared = networks_and_jobs(alloc, &common.name, node)?;
    Ok((shared, disk_and_update(alloc, common.update, node)?))
}

impl Member for Group {
    ghost use Rattle.bosh_manifest.specs.declared.group.Common.{Common};
    ghost use Rattle.bosh_manifest.specs.Group.{a_group};

    type Given = Common;

    ghost item = { a_group };

    // Dear to prove: the name and the place are alive where what the group holds may be refused.
    fn item(alloc: Global, common: &Common, name: Name, node: &Node) -> Result<Self, FieldFault> {
        let instances = required::<Number<0, 256>>(alloc, node, b"instances")?.value();
        let (azs, (vm_type, stemcell)) = place(alloc, node)?;
        let ((networks, jobs), (disk, update)) = contents(alloc, common, node)?;
        Ok(Group {
            name,
            instances,
            azs,
            vm_type,
            stemcell,
            networks,
            jobs,
            disk,
            update,
        })
    }
}
