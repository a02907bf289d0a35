//! How groups are updated.
ghost use Rattle.std.specs.Prelude.{◌≡◌, ◌≤◌, ◌<◌, ◌^◌, All, IfOk, length};
ghost use Rattle.bosh_manifest.specs.Sound.{IsSoundGroup};
ghost use Rattle.bosh_wants.specs.Plans.{plan_of, plans, stage_of};

use bosh_base::{CopyFault, Copyable, GroupPlan, Seq};
use bosh_manifest::{Group, Manifest};
use bosh_roll::limit_of;
use std::alloc::Global;

// The stage of a group after so many stages.
fn stage_of(count: u32, is_concurrent_before: bool, group: &Group) -> u32
    ensures { result ≡ stage_of count is_concurrent_before group.now }
{
    if is_concurrent_before && !group.update.serial {
        count.saturating_sub(1)
    } else {
        count
    }
}

fn plan_of(alloc: Global, stage: u32, group: &Group) -> Result<GroupPlan, CopyFault>
    requires { IsSoundGroup group.now }
    ensures { IfOk result (λ plan. plan ≡ plan_of stage group.now) }
{
    let canaries = limit_of(group.update.canaries, group.instances, 0);
    let limit = limit_of(group.update.limit, group.instances, 1);
    Ok(GroupPlan {
        name: group.name.copy(alloc)?,
        canaries,
        limit,
        stage,
    })
}

fn plans_of(alloc: Global, groups: &[Group]) -> Result<Seq<GroupPlan>, CopyFault>
    requires sound { All IsSoundGroup groups.now }
    requires few { length groups.now ≤ 64 }
    ensures { IfOk result (λ all. all ≡ plans groups.now) }
{
    let mut plans = Vec::with_capacity(alloc, groups.len())?;
    let mut count = 0u32;
    let mut is_concurrent = false;
    for group in groups {
        let stage = stage_of(count, is_concurrent, group);
        plans.push(plan_of(alloc, stage, group)?)?;
        count = stage + 1;
        is_concurrent = !group.update.serial;
    }
    Ok(Seq::from(plans))
}

/// How the groups of a manifest are updated, in its order.
pub fn plans(alloc: Global, manifest: &Manifest) -> Result<Seq<GroupPlan>, CopyFault>
    ensures { IfOk result (λ all. all ≡ plans manifest.now.groups) }
{
    plans_of(alloc, manifest.contents().groups.as_slice())
}
