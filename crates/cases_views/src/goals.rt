//! Goals. What a case is answered under is made one thing after the other, each in a function of its own.
use crate::asked::{Asked, config, part};
use crate::told::state;
use bosh_base::{Copyable, Goal, Inst, View};
use bosh_cloudcfg::Config;
use bosh_goal::{Change, anew};
use bosh_yaml::Node;
use cases_files::outcome;
use cases_given::{CaseFault, Outcome, both, field, there, timed, word_of};
use cases_plans::GoalTold;
use std::alloc::Global;
use std::rt::Clock;
use std::time::Duration;

fn told(alloc: Global, goal: &Goal) -> Result<Vec<u8>, CaseFault> {
    Ok(format!(in alloc; "{}", GoalTold(goal))?.into_bytes())
}

// A goal that has to be there. Generic for the same reason.
fn sound<G: Drop, E: Drop>(answer: Result<G, E>) -> Result<G, CaseFault> {
    match answer {
        Ok(goal) => Ok(goal),
        Err(_) => Err(CaseFault::Form),
    }
}

// A value after another one, which is let go. Generic for the same reason.
fn after<A: Drop, B: Drop>(_before: A, value: B) -> B {
    value
}

fn recreates(alloc: Global, given: &Node) -> Result<bool, CaseFault> {
    let recreate: Option<bool> = field(alloc, given, "recreate")?;
    Ok(recreate.unwrap_or(false))
}

fn goal_in(
    alloc: Global,
    asked: &Asked,
    config: Option<&Config>,
    setting: &Node,
    given: &Node,
) -> Result<Outcome, CaseFault> {
    let recreate = recreates(alloc, given)?;
    let view = asked.view(alloc, part(setting, given, "view"))?;
    let goal = outcome(alloc, asked.goal(alloc, config, &view, recreate), told);
    after(view, goal)
}

fn goal_of(
    alloc: Global,
    asked: &Asked,
    setting: &Node,
    given: &Node,
) -> Result<Outcome, CaseFault> {
    let config = config(alloc, part(setting, given, "config"))?;
    goal_in(alloc, asked, config.as_ref(), setting, given)
}

/// The goal of a manifest.
pub(crate) fn of_manifest(
    alloc: Global,
    setting: &Node,
    given: &Node,
) -> Result<Outcome, CaseFault> {
    let asked = Asked::of(alloc, setting, given)?;
    goal_of(alloc, &asked, setting, given)
}

fn current_in(
    alloc: Global,
    asked: &Asked,
    config: Option<&Config>,
    given: &Node,
) -> Result<Goal, CaseFault> {
    let recreate = recreates(alloc, given)?;
    let view = asked.view(alloc, given.find(b"before"))?;
    let goal = sound(asked.goal(alloc, config, &view, recreate));
    after(view, goal)
}

// The current goal: that of the manifest, over what was recorded before.
fn current(alloc: Global, asked: &Asked, setting: &Node, given: &Node) -> Result<Goal, CaseFault> {
    let config = config(alloc, setting.find(b"config"))?;
    current_in(alloc, asked, config.as_ref(), given)
}

fn change(given: &Node) -> Result<Change, CaseFault> {
    match word_of(there(given, "change")?)? {
        "fresh" => Ok(Change::Fresh),
        "same" => Ok(Change::Same),
        word => Ok(Change::To(state(word)?)),
    }
}

fn copied(alloc: Global, goal: &Goal) -> Result<Goal, CaseFault> {
    Ok(goal.copy(alloc)?)
}

fn with_goal(view: View, goal: Goal) -> View {
    View {
        goal: Some(goal),
        ..view
    }
}

// What is recorded, with the current goal.
fn view_of(alloc: Global, asked: &Asked, goal: &Goal, given: &Node) -> Result<View, CaseFault> {
    let (view, goal) = both(asked.view(alloc, given.find(b"view")), copied(alloc, goal))?;
    Ok(with_goal(view, goal))
}

fn anew_told(
    alloc: Global,
    inst: &Inst,
    change: Change,
    config: Option<&Config>,
    view: &View,
    goal: &Goal,
) -> Result<Outcome, CaseFault> {
    outcome(alloc, anew(alloc, inst, change, config, view, goal), told)
}

fn changed_over(
    alloc: Global,
    config: Option<&Config>,
    view: &View,
    goal: &Goal,
    given: &Node,
) -> Result<Outcome, CaseFault> {
    let change = change(given)?;
    let inst: Inst = field(alloc, given, "inst")?;
    anew_told(alloc, &inst, change, config, view, goal)
}

fn changed_in(
    alloc: Global,
    asked: &Asked,
    config: Option<&Config>,
    goal: &Goal,
    given: &Node,
) -> Result<Outcome, CaseFault> {
    let view = view_of(alloc, asked, goal, given)?;
    let changed = changed_over(alloc, config, &view, goal, given);
    after(view, changed)
}

fn changed(
    alloc: Global,
    asked: &Asked,
    goal: &Goal,
    setting: &Node,
    given: &Node,
) -> Result<Outcome, CaseFault> {
    let config = config(alloc, part(setting, given, "config"))?;
    changed_in(alloc, asked, config.as_ref(), goal, given)
}

fn anew_of(
    alloc: Global,
    asked: &Asked,
    setting: &Node,
    given: &Node,
) -> Result<Outcome, CaseFault> {
    let goal = current(alloc, asked, setting, given)?;
    changed(alloc, asked, &goal, setting, given)
}

/// The current goal with one instance changed. That goal is the one of the manifest under the setting.
pub(crate) fn of_current(
    alloc: Global,
    setting: &Node,
    given: &Node,
) -> Result<Outcome, CaseFault> {
    let asked = Asked::of(alloc, setting, given)?;
    anew_of(alloc, &asked, setting, given)
}

fn time_in(
    clock: &impl Clock,
    alloc: Global,
    asked: &Asked,
    config: Option<&Config>,
    part: Option<&Node>,
    rounds: u32,
) -> Result<Duration, CaseFault> {
    let view = asked.view(alloc, part)?;
    let took = timed(
        clock,
        rounds,
        || asked.goal(alloc, config, &view, false).is_ok(),
    );
    after(view, took)
}

/// The time to make the goal of a manifest.
pub(crate) fn time_of_goal(
    clock: &impl Clock,
    alloc: Global,
    setting: &Node,
    given: &Node,
    rounds: u32,
) -> Result<Duration, CaseFault> {
    let (asked, config) = both(
        Asked::of(alloc, setting, given),
        config(alloc, part(setting, given, "config")),
    )?;
    let view = part(setting, given, "view");
    time_in(clock, alloc, &asked, config.as_ref(), view, rounds)
}
