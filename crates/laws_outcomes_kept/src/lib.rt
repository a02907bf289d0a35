//! What tasks that work come to, at each part of a permitted move.
#![tactic(auto)]

ghost use Rattle.laws_moves.specs.Parts.{IsKeptByParts};
ghost use Rattle.laws_outcomes_kept.specs.Outcomes.{AreDisksToDelete};
ghost use Rattle.laws_standing.specs.Standing.{StandWhereThrough};

/// Each part of a move leaves each instance that is through in a task as the task wants it.
pub fn instances_that_are_through_stand_on()
    ensures { IsKeptByParts StandWhereThrough }
{}

/// Each part of a move leaves each disk that a task lists orphaned, or created and not there any more.
pub fn listed_disks_stay_to_delete()
    ensures { IsKeptByParts AreDisksToDelete }
{}
