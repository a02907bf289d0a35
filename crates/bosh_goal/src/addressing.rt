//! The addresses of a deployment's instances.
ghost use Rattle.std.specs.Prelude.{◌≡◌, List, Option, Result, true};
ghost use Rattle.bosh_base.specs.declared.addr.Addr.{Addr};
ghost use Rattle.bosh_goal.specs.Goal.{addresses, assigned, none_wrong};
ghost use Rattle.bosh_wants.specs.Statics.{static_fault};
ghost use Rattle.bosh_pool.specs.Answer as pool;
ghost use Rattle.bosh_pool.specs.declared.fault.PoolFault.{PoolFault};
ghost use Rattle.bosh_manifest_names.specs.Answer.{IsAnswer, IsAnswerSeen, with_fault};
ghost use Rattle.bosh_manifest_names.specs.declared.fault.GoalFault.TheVariants.{Pool};

use bosh_base::{Addr, Seq, View};
use bosh_cloudcfg::Config;
use bosh_manifest::{Group, Manifest};
use bosh_manifest_names::GoalFault;
use bosh_pool::{PoolFault, assign};
use bosh_wants::{check_counts, kept, wants};
use std::alloc::Global;

fn counted(answer: Result<(), PoolFault>) -> Result<(), GoalFault>
    ensures { (told : Option PoolFault) → pool.IsTest answer told
        → IsAnswerSeen (λ _. true) result (none_wrong told) }
{
    match answer {
        Ok(()) => Ok(()),
        Err(PoolFault::Memory) => Err(GoalFault::Memory),
        Err(fault) => Err(GoalFault::Pool(fault)),
    }
}

fn given(answer: Result<Seq<Addr>, PoolFault>) -> Result<Seq<Addr>, GoalFault>
    ensures { (told : Result (List Addr) PoolFault) → pool.IsAnswer answer told
        → IsAnswer result (with_fault Pool told) }
{
    match answer {
        Ok(addrs) => Ok(addrs),
        Err(PoolFault::Memory) => Err(GoalFault::Memory),
        Err(fault) => Err(GoalFault::Pool(fault)),
    }
}

fn check_statics(alloc: Global, groups: &[Group]) -> Result<(), GoalFault>
    ensures { IsAnswerSeen (λ _. true) result (none_wrong (static_fault groups.now)) }
{
    counted(check_counts(alloc, groups))
}

fn assigned(
    alloc: Global,
    manifest: &Manifest,
    config: &Config,
    view: &View,
) -> Result<Seq<Addr>, GoalFault>
    ensures { IsAnswer result (assigned manifest.now config.now view.now) }
{
    let contents = manifest.contents();
    let rows = view.rows.as_slice();
    let groups = contents.groups.as_slice();
    let wants = wants(alloc, &contents.name, rows, groups)?;
    let kept = kept(alloc, &contents.name, groups, rows)?;
    given(assign(
        alloc,
        wants.as_slice(),
        &config.plan,
        view.taken.as_slice(),
        kept.as_slice(),
    ))
}

/// The addresses of the instances of a manifest, by group, by index and by network.
pub(crate) fn addresses(
    alloc: Global,
    manifest: &Manifest,
    config: &Config,
    view: &View,
) -> Result<Seq<Addr>, GoalFault>
    ensures { IsAnswer result (addresses manifest.now config.now view.now) }
{
    check_statics(alloc, manifest.contents().groups.as_slice())?;
    assigned(alloc, manifest, config, view)
}
