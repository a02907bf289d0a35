//! What instances that are through in a task have come to: they stand as their task wants them.
#![tactic(auto)]

ghost use Rattle.laws_facts.specs.Kept.{IsKept, IsKeptByAll};
ghost use Rattle.laws_standing.specs.Standing.{AreUpdatesListed, StandWhereThrough};

/// While a task works, an instance whose update began, or is done, is one of those that change.
pub fn updates_are_of_those_that_change()
    ensures { IsKept AreUpdatesListed }
{}

/// While a task works, an instance whose update is done, or that does not change, stands as the task wants it.
pub fn instances_that_are_through_stand()
    ensures { IsKeptByAll StandWhereThrough }
{}
