//! What tasks have heard of machines, at each part of a permitted move.
#![tactic(auto)]

ghost use Rattle.laws_heard.specs.Heard.{AreAnswersHeardOf, AreHeardOf, HearingFacts, IsKeptInHearing};

/// Each part of a move keeps what hearing rests on beside all facts: a machine counts as lost before a task heard of it
/// only where a loss named it, and a row without a machine has no spec.
pub fn hearing_rests_on_what_is_kept()
    ensures { IsKeptInHearing HearingFacts }
{}

/// A task that works, and asks its machines, has heard of each of them, but for those that it is still to ask: none was
/// lost before that, or it has no spec yet, so that it is to be applied to.
pub fn tasks_have_heard_of_their_machines()
    ensures heard { IsKeptInHearing AreHeardOf }
    ensures answered { IsKeptInHearing AreAnswersHeardOf }
{}
