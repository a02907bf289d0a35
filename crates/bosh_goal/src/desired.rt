//! The goal of a manifest.
ghost use Rattle.std.specs.Prelude.{◌≡◌, ◌≤◌, All, IfOk, length};
ghost use Rattle.bosh_goal.specs.Goal.{fresh_after, rows_of, slots_and_rows, stay_and_rows, with_keys};
ghost use Rattle.bosh_instances.specs.Rows.{rows};
ghost use Rattle.bosh_manifest.specs.Sound.{IsSoundGroup};
ghost use Rattle.bosh_offers.specs.Offers.{offers};
ghost use Rattle.bosh_offers.specs.declared.offering.Choice.TheVariants as choice;
ghost use Rattle.bosh_wants.specs.Plans.{plans};
ghost use Rattle.bosh_manifest_names.specs.Answer.{IsAnswer};

use bosh_base::{
    Addr, CopyFault, Copyable, Goal, GoalRow, GroupPlan, KeyWork, Make, Name, Offer, Seq, Tie, View,
};
use bosh_cloudcfg::Config;
use bosh_instances::{Scene, check_disks, rows};
use bosh_manifest::Manifest;
use bosh_manifest_names::GoalFault;
use bosh_offers::{Choice, Offered, Sited, offers};
use bosh_slots::slots;
use bosh_wants::plans;
use std::alloc::Global;

/// What a goal depends on beside the manifest and what that uses.
#[derive(Clone, Copy)]
pub(crate) struct Setting<'s> {
    pub(crate) config: &'s Config,
    pub(crate) view: &'s View,
    /// Whether all machines are made anew.
    pub(crate) recreate: bool,
}

fn fresh_after(recreate: bool, view: &View) -> u64
    ensures { result ≡ fresh_after recreate view.now }
{
    if recreate { view.last_call } else { 0 }
}

// The rows of a deployment, whose own jobs offer `own`.
fn rows_offered<'o, 'a: 'o>(
    alloc: Global,
    dep: &'a Name,
    setting: Setting<'o>,
    ties: &'o [Tie],
    own: &'o [Offer],
    groups: &[Sited<'a, '_>],
) -> Result<Seq<GoalRow>, GoalFault>
    requires { All (λ group. 1 ≤ length group.used.group.azs) groups.now }
    ensures { IsAnswer result (rows (record {
      dep = dep.now;
      offered = record { ties = ties.now; own = own.now; known = setting.entry.view.now.known };
      view = setting.entry.view.now;
      fresh_after = fresh_after setting.entry.recreate setting.entry.view.now;
    }) groups.now) }
{
    let view = setting.view;
    let offered = Offered::of(alloc, ties, own, view.known.as_slice())?;
    let after = fresh_after(setting.recreate, view);
    let scene = Scene::of(dep, &offered, view, after);
    rows(alloc, &scene, groups)
}

fn rows_of<'a>(
    alloc: Global,
    dep: &'a Name,
    setting: Setting<'_>,
    ties: &[Tie],
    groups: &[Sited<'a, '_>],
) -> Result<Seq<GoalRow>, GoalFault>
    requires { All (λ group. 1 ≤ length group.used.group.azs) groups.now }
    ensures { IsAnswer result (rows_of dep.now groups.now ties.now setting.entry.recreate setting.entry.view.now) }
{
    let own = offers(alloc, Choice::All, dep, groups)?;
    rows_offered(alloc, dep, setting, ties, own.as_slice(), groups)
}

// The rows, where no disk would leave its zone.
fn stay_and_rows<'a>(
    alloc: Global,
    manifest: &'a Manifest,
    setting: Setting<'_>,
    ties: &[Tie],
    groups: &[Sited<'a, '_>],
) -> Result<Seq<GoalRow>, GoalFault>
    requires { All (λ group. 1 ≤ length group.used.group.azs) groups.now }
    ensures { IsAnswer result
        (stay_and_rows manifest.now groups.now ties.now setting.entry.recreate setting.entry.view.now) }
{
    let contents = manifest.contents();
    let dep = &contents.name;
    check_disks(
        alloc,
        dep,
        setting.view.rows.as_slice(),
        contents.groups.as_slice(),
    )?;
    rows_of(alloc, dep, setting, ties, groups)
}

fn slots_and_rows<'a>(
    alloc: Global,
    manifest: &'a Manifest,
    setting: Setting<'_>,
    ties: &[Tie],
    addrs: &[Addr],
    keys: usize,
    groups: &[Sited<'a, '_>],
) -> Result<(Seq<Make>, Seq<GoalRow>), GoalFault>
    requires { All (λ group. 1 ≤ length group.used.group.azs) groups.now }
    ensures { IsAnswer result (slots_and_rows manifest.now setting.entry.config.now groups.now ties.now addrs.now keys
        setting.entry.recreate setting.entry.view.now) }
{
    let slots = slots(alloc, setting.config, keys, addrs, setting.view)?;
    let rows = stay_and_rows(alloc, manifest, setting, ties, groups)?;
    Ok((slots, rows))
}

fn plans_and_offers<'a>(
    alloc: Global,
    manifest: &'a Manifest,
    groups: &[Sited<'a, '_>],
) -> Result<(Seq<GroupPlan>, Seq<Offer>), CopyFault>
    ensures { IfOk result (λ both. both
        ≡ (plans manifest.now.groups, offers choice.Shared manifest.now.name groups.now)) }
{
    let plans = plans(alloc, manifest)?;
    let offers = offers(alloc, Choice::Shared, &manifest.contents().name, groups)?;
    Ok((plans, offers))
}

/// The goal, where it is known what is to be compiled and its groups stand with their addresses.
pub(crate) fn with_keys<'a>(
    alloc: Global,
    manifest: &'a Manifest,
    setting: Setting<'_>,
    groups: &[Sited<'a, '_>],
    ties: Seq<Tie>,
    addrs: &[Addr],
    keys: Seq<KeyWork>,
) -> Result<Goal, GoalFault>
    requires { All (λ group. 1 ≤ length group.used.group.azs) groups.now }
    ensures { IsAnswer result (with_keys manifest.now setting.entry.config.now setting.entry.view.now
        setting.entry.recreate groups.now ties addrs.now keys) }
{
    let dep = manifest.contents().name.copy(alloc)?;
    let (slots, rows) = slots_and_rows(
        alloc,
        manifest,
        setting,
        ties.as_slice(),
        addrs,
        keys.len(),
        groups,
    )?;
    let (plans, offers) = plans_and_offers(alloc, manifest, groups)?;
    Ok(Goal {
        dep,
        rows,
        groups: plans,
        ties,
        keys,
        slots,
        offers,
    })
}
