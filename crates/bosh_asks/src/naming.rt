//! Tasks of one instance.
ghost use Rattle.std.specs.Prelude.{◌≡◌, ◌⊎◌, ◌∷◌, []};
ghost use Rattle.std.specs.Prelude.{IfErr, IfOk, List, None, Ok, OnOk, Option, Some, true, ℕ};
ghost use Rattle.std.specs.Option.{option_copied};
ghost use Rattle.bosh_asks.specs.Cause.{IsCause};
ghost use Rattle.bosh_asks.specs.Changed.{is_in};
ghost use Rattle.bosh_asks.specs.Faults.{answered};
ghost use Rattle.bosh_asks.specs.Goals.{Renews, recorded_config};
ghost use Rattle.bosh_asks.specs.Known.{is_wanted, lock_holder};
ghost use Rattle.bosh_asks.specs.Opened.{Alters};
ghost use Rattle.bosh_asks.specs.Over.{AltersOver, RenewsOver};
ghost use Rattle.bosh_asks.specs.Refused.{RefusesChange};
ghost use Rattle.bosh_asks.specs.declared.fault.BookFault.TheVariants.{Memory, NoDeployment, NoInstance};
ghost use Rattle.bosh_records.specs.Readers.{goal_of};

use crate::BookFault;
use crate::config::recorded_config;
use crate::fault::answered;
use crate::locks::check_free;
use crate::obsolete::is_in;
use crate::plan::Plan;
use bosh_base::{CopyFault, Copyable, Goal, Inst, Name, Seq};
use bosh_cloudcfg::Config;
use bosh_drops::{after, beside};
use bosh_goal::{Change, anew};
use bosh_records::Records;
use bosh_views::view;
use std::alloc::Global;

fn only(alloc: Global, inst: &Inst) -> Result<Seq<Inst>, CopyFault>
    ensures { IfOk result (λ all. all ≡ inst.now ∷ []) }
{
    let mut all = Vec::new(alloc);
    all.push(inst.copy(alloc)?)?;
    Ok(Seq::from(all))
}

pub(crate) fn no_deployment(alloc: Global, name: &Name) -> BookFault
    ensures { (result ≡ NoDeployment name.now) ⊎ (result ≡ Memory) }
{
    match name.copy(alloc) {
        Ok(name) => BookFault::NoDeployment { name },
        Err(_) => BookFault::Memory,
    }
}

fn no_instance(alloc: Global, inst: &Inst) -> BookFault
    ensures { (result ≡ NoInstance inst.now) ⊎ (result ≡ Memory) }
{
    match inst.copy(alloc) {
        Ok(inst) => BookFault::NoInstance { inst },
        Err(_) => BookFault::Memory,
    }
}

fn goal_anew(
    alloc: Global,
    records: &Records,
    inst: &Inst,
    change: Change,
    config: Option<&Config>,
    goal: &Goal,
) -> Result<Goal, BookFault>
    requires { is_in goal.now inst.now ≡ true }
    ensures ok { (file : Option (List ℕ)) → option_copied config.entry ≡ recorded_config file
        → IfOk result (λ it. Renews inst.now change (Ok it)) }
    ensures err { (file : Option (List ℕ)) → option_copied config.entry ≡ recorded_config file
        → IfErr result (RefusesChange inst.now change) }
    ensures over { goal_of records.now inst.now.dep ≡ Some goal.now
        → option_copied config.entry ≡ recorded_config records.now.config
        → IfOk result (λ it. RenewsOver records.now inst.now change (Ok it)) }
    ensures cause { goal_of records.now inst.now.dep ≡ Some goal.now
        → option_copied config.entry ≡ recorded_config records.now.config
        → is_wanted records.now inst.now ≡ true → lock_holder records.now (Some inst.now.dep) ≡ None
        → IfErr result (IsCause records.now (is_wanted records.now inst.now ≡ true) (Some inst.now.dep)
        (RenewsOver records.now inst.now change)) }
{
    let view = view(records, &inst.dep)?;
    let goal = anew(alloc, inst, change, config, &view, goal);
    after(view, answered(goal))
}

// A current goal with the instance changed.
fn renewed(
    alloc: Global,
    records: &Records,
    inst: &Inst,
    change: Change,
    goal: &Goal,
) -> Result<Goal, BookFault>
    requires { is_in goal.now inst.now ≡ true }
    ensures ok { IfOk result (λ it. Renews inst.now change (Ok it)) }
    ensures err { IfErr result (RefusesChange inst.now change) }
    ensures over { goal_of records.now inst.now.dep ≡ Some goal.now
        → IfOk result (λ it. RenewsOver records.now inst.now change (Ok it)) }
    ensures cause { goal_of records.now inst.now.dep ≡ Some goal.now
        → is_wanted records.now inst.now ≡ true → lock_holder records.now (Some inst.now.dep) ≡ None
        → IfErr result (IsCause records.now (is_wanted records.now inst.now ≡ true) (Some inst.now.dep)
        (RenewsOver records.now inst.now change)) }
{
    let config = recorded_config(alloc, records.config())?;
    let goal = goal_anew(alloc, records, inst, change, config.as_ref(), goal);
    after(config, goal)
}

// The goal of the deployment with the instance changed.
#[tactic(auto, using(crate::proofs::OverLemmas::is_unrecorded))]
fn changed_goal(
    alloc: Global,
    records: &Records,
    inst: &Inst,
    change: Change,
) -> Result<Goal, BookFault>
    ensures free { OnOk result (lock_holder records.now (Some inst.now.dep) ≡ None) }
    ensures named { OnOk result (is_wanted records.now inst.now ≡ true) }
    ensures over { IfOk result (λ it. RenewsOver records.now inst.now change (Ok it)) }
    ensures ok { IfOk result (λ it. Renews inst.now change (Ok it)) }
    ensures err { IfErr result (RefusesChange inst.now change) }
    ensures cause { IfErr result (IsCause records.now (is_wanted records.now inst.now ≡ true) (Some inst.now.dep)
        (RenewsOver records.now inst.now change)) }
{
    let Some(goal) = records.goal_of(&inst.dep) else {
        return Err(no_deployment(alloc, &inst.dep));
    };
    if !is_in(goal, inst) {
        return Err(no_instance(alloc, inst));
    }
    check_free(records.tasks(), Some(&inst.dep))?;
    renewed(alloc, records, inst, change, goal)
}

/// One instance is changed, and no other.
pub(crate) fn named_plan(
    alloc: Global,
    records: &Records,
    inst: &Inst,
    change: Change,
) -> Result<Plan, BookFault>
    ensures free { OnOk result (lock_holder records.now (Some inst.now.dep) ≡ None) }
    ensures named { OnOk result (is_wanted records.now inst.now ≡ true) }
    ensures over { IfOk result (AltersOver records.now inst.now change) }
    ensures ok { IfOk result (Alters inst.now change) }
    ensures err { IfErr result (RefusesChange inst.now change) }
    ensures cause { IfErr result (IsCause records.now (is_wanted records.now inst.now ≡ true) (Some inst.now.dep)
        (RenewsOver records.now inst.now change)) }
{
    let changed = only(alloc, inst)?;
    let goal = changed_goal(alloc, records, inst, change);
    let (changed, goal) = beside(changed, goal)?;
    Ok(Plan {
        goal: Some(goal),
        changed,
        obsolete: Seq::new(alloc),
        disks: Seq::new(alloc),
    })
}
