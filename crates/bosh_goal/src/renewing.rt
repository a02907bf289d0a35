//! The current goal with one instance changed.
ghost use Rattle.std.specs.Prelude.{◌≡◌, IfOk, filter, map};
ghost use Rattle.std.specs.Option.{option_copied};
ghost use Rattle.bosh_goal.specs.Anew.{anew, anew_of, is_left, row_anew, with_slots};
ghost use Rattle.bosh_manifest_names.specs.Answer.{IsAnswer};

use crate::Change;
use crate::altering::rows_anew;
use crate::freeing::check_addresses;
use bosh_base::{CopyFault, Copyable, Goal, Inst, Key, KeyWork, Make, Seq, View, copy_four};
use bosh_cloudcfg::Config;
use bosh_compile::KeySet;
use bosh_manifest_names::GoalFault;
use bosh_slots::slots;
use std::alloc::Global;

fn left<'a>(
    alloc: Global,
    compiled: &KeySet<'a>,
    works: &'a [KeyWork],
) -> Result<Seq<KeyWork>, CopyFault>
    ensures { IfOk result (λ all. all ≡ filter (is_left compiled.now) works.now) }
{
    let mut all = Vec::new(alloc);
    for work in works {
        if !compiled.has(&work.key) {
            all.push(work.copy(alloc)?)?;
        }
    }
    Ok(Seq::from(all))
}

fn uncompiled(alloc: Global, compiled: &[Key], works: &[KeyWork]) -> Result<Seq<KeyWork>, CopyFault>
    ensures { IfOk result (λ all. all ≡ filter (is_left compiled.now) works.now) }
{
    let set = KeySet::of(alloc, compiled)?;
    left(alloc, &set, works)
}

fn with_parts(
    alloc: Global,
    inst: &Inst,
    change: Change,
    last_call: u64,
    goal: &Goal,
    keys: Seq<KeyWork>,
    slots: Seq<Make>,
) -> Result<Goal, CopyFault>
    ensures { IfOk result (λ it. it ≡ record {
      dep = goal.now.dep;
      rows = map (row_anew inst.now change last_call) goal.now.rows;
      groups = goal.now.groups;
      ties = goal.now.ties;
      keys = keys;
      slots = slots;
      offers = goal.now.offers;
    }) }
{
    let rows = rows_anew(alloc, inst, change, last_call, goal.rows.as_slice())?;
    let (dep, groups, ties, offers) = copy_four(
        &goal.dep,
        &goal.groups,
        &goal.ties,
        &goal.offers,
        alloc,
    )?;
    Ok(Goal {
        dep,
        rows,
        groups,
        ties,
        keys,
        slots,
        offers,
    })
}

fn with_slots(
    alloc: Global,
    inst: &Inst,
    change: Change,
    config: &Config,
    view: &View,
    goal: &Goal,
) -> Result<Goal, GoalFault>
    ensures { IsAnswer result (with_slots inst.now change config.now view.now goal.now
        (filter (is_left view.now.compiled) goal.now.keys)) }
{
    let works = uncompiled(alloc, view.compiled.as_slice(), goal.keys.as_slice())?;
    let makes = slots(alloc, config, works.len(), &[], view)?;
    Ok(with_parts(alloc, inst, change, view.last_call, goal, works, makes)?)
}

/// A goal with one instance changed: the view's current goal, for a task that works on that instance alone. What is not
/// compiled yet is compiled for it, by machines with addresses that nobody holds. The refusals come in this order: there is no
/// cloud config; a recorded instance that is not in the goal has an address that the changed one needs; no address is left for a
/// compile machine.
pub fn anew(
    alloc: Global,
    inst: &Inst,
    change: Change,
    config: Option<&Config>,
    view: &View,
    goal: &Goal,
) -> Result<Goal, GoalFault>
    ensures { IsAnswer result (anew inst.now change (option_copied config.entry) view.now goal.now) }
{
    let Some(config) = config else {
        return Err(GoalFault::NoConfig);
    };
    let recorded = view.rows.as_slice();
    check_addresses(alloc, inst, change, goal.rows.as_slice(), recorded)?;
    with_slots(alloc, inst, change, config, view, goal)
}
