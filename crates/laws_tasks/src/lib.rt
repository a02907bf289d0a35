//! Tasks at each moment of a permitted history: what they list, and how their updates go on, within the limit of their
//! group and its canaries first.
#![tactic(auto)]

ghost use Rattle.laws_facts.specs.Kept.{IsKept, OfRecords};
ghost use Rattle.laws_tasks.specs.Lists.{ListWell};
ghost use Rattle.laws_tasks.specs.Updates.{AreInTurn, AreRecovered, AreWithinLimits};

/// Of each group of an open task no more updates are in flight than its plan says.
pub fn updates_stay_within_limits()
    ensures { IsKept (OfRecords AreWithinLimits) }
{}

/// An instance whose update began is a canary of its group, or all canaries are done.
pub fn updates_stay_in_turn()
    ensures { IsKept AreInTurn }
{}

/// While a task is left that a stop interrupted, none was opened since.
pub fn no_task_opens_before_the_interrupted_ones_end()
    ensures { IsKept AreRecovered }
{}

/// A task that works lists what its kind and its goal ask for: those of the goal that change, recorded ones of the
/// deployment that are not of the goal, and no instance twice; or orphaned disks, and nothing else.
pub fn tasks_list_what_they_are_to()
    ensures { IsKept ListWell }
{}
