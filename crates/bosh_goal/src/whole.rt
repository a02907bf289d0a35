//! The goal of a manifest, from what is uploaded and what is recorded.
ghost use Rattle.std.specs.Prelude.{◌≡◌, ◌≤◌, All, IfErr, IfOk, Some, length, map};
ghost use Rattle.std.specs.Option.{option_copied};
ghost use Rattle.bosh_alike.specs.Alike.{AreAlike};
ghost use Rattle.bosh_goal.specs.Goal.{IsGoal, of_used, with_addrs};
ghost use Rattle.bosh_keys.specs.Works.{AreKeys, releases_of};
ghost use Rattle.bosh_release.specs.Sound.{IsSound};
ghost use Rattle.bosh_manifest_names.specs.Answer.{IsAnswer};
ghost use Rattle.bosh_manifest_names.specs.declared.fault.GoalFault.TheVariants.{Memory};

use crate::addressing::addresses;
use crate::desired::{Setting, with_keys};
use bosh_base::{Addr, Goal, KeyWork, Release, Seq, Stemcell, Tie, View};
use bosh_cloudcfg::Config;
use bosh_keys::keys;
use bosh_manifest::Manifest;
use bosh_manifest_names::{GoalFault, UsedGroup, uses};
use bosh_offers::sites;
use bosh_ties::ties;
use std::alloc::Global;

fn with_addrs<'a>(
    alloc: Global,
    manifest: &'a Manifest,
    setting: Setting<'_>,
    used: &[UsedGroup<'a>],
    ties: Seq<Tie>,
    addrs: &[Addr],
    keys: Seq<KeyWork>,
) -> Result<Goal, GoalFault>
    requires { All (λ it. 1 ≤ length it.group.azs) used.now }
    ensures { IsAnswer result (with_addrs keys manifest.now setting.entry.config.now setting.entry.view.now
        setting.entry.recreate used.now ties addrs.now) }
{
    let groups = sites(alloc, used, addrs)?;
    with_keys(
        alloc,
        manifest,
        setting,
        groups.as_slice(),
        ties,
        addrs,
        keys,
    )
}

fn of_used<'a>(
    alloc: Global,
    manifest: &'a Manifest,
    setting: Setting<'_>,
    used: &[UsedGroup<'a>],
    keys: Seq<KeyWork>,
) -> Result<Goal, GoalFault>
    requires { map (λ it. it.group) used.now ≡ manifest.now.groups }
    ensures { IsAnswer result (of_used keys manifest.now setting.entry.config.now setting.entry.view.now
        setting.entry.recreate used.now) }
{
    let known = setting.view.known.as_slice();
    let ties = ties(alloc, &manifest.contents().name, used, known)?;
    let addrs = addresses(alloc, manifest, setting.config, setting.view)?;
    with_addrs(alloc, manifest, setting, used, ties, addrs.as_slice(), keys)
}

fn keys_of(
    alloc: Global,
    setting: Setting<'_>,
    used: &[UsedGroup],
) -> Result<Seq<KeyWork>, GoalFault>
    requires sound { All IsSound (releases_of used.now) }
    requires alike { AreAlike (releases_of used.now) }
    ensures works { IfOk result (AreKeys used.now setting.entry.view.now.compiled) }
    ensures failed { IfErr result (λ fault. fault ≡ Memory) }
{
    match keys(alloc, used, setting.view.compiled.as_slice()) {
        Ok(keys) => Ok(keys),
        Err(_) => Err(GoalFault::Memory),
    }
}

fn configured(
    alloc: Global,
    manifest: &Manifest,
    setting: Setting<'_>,
    releases: &[Release],
    stemcells: &[Stemcell],
) -> Result<Goal, GoalFault>
    requires sound { All IsSound releases.now }
    requires alike { AreAlike releases.now }
    ensures { IsGoal manifest.now (Some setting.entry.config.now) releases.now stemcells.now setting.entry.view.now
        setting.entry.recreate result }
{
    let used = uses(alloc, manifest, setting.config, releases, stemcells)?;
    let keys = keys_of(alloc, setting, used.as_slice())?;
    of_used(alloc, manifest, setting, used.as_slice(), keys)
}

/// The goal of a deployment: what a manifest asks for, with the cloud config, the uploaded releases and stemcells, and what is
/// recorded. With `recreate` all its machines are made anew. The refusals come in this order: there is no cloud config; a
/// name is not known; a link is not resolved, within the deployment and then to others; an address is not to be had, for an
/// instance and then for a compile machine; an instance with a disk would leave its zone; a template is not read or not
/// rendered; the files have together more than 1,048,576 bytes.
pub fn goal(
    alloc: Global,
    manifest: &Manifest,
    config: Option<&Config>,
    releases: &[Release],
    stemcells: &[Stemcell],
    view: &View,
    recreate: bool,
) -> Result<Goal, GoalFault>
    requires sound { All IsSound releases.now }
    requires alike { AreAlike releases.now }
    ensures { IsGoal manifest.now (option_copied config.entry) releases.now stemcells.now view.now recreate result }
{
    let Some(config) = config else {
        return Err(GoalFault::NoConfig);
    };
    let setting = Setting {
        config,
        view,
        recreate,
    };
    configured(alloc, manifest, setting, releases, stemcells)
}
