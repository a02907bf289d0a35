//! Clean deploys: nothing is wrong that they cannot find out, so none of their calls fails.
#![tactic(auto)]

ghost use Rattle.std.specs.Prelude.{◌≡◌, ℕ, List, nat_le, true};
ghost use Rattle.bosh_base.specs.declared.digest.Digest.{Digest};
ghost use Rattle.bosh_base.specs.declared.key.KeyWork.{KeyWork};
ghost use Rattle.bosh_base.specs.declared.moves.Move.{Move};
ghost use Rattle.bosh_history.specs.Fit.{IsFit};
ghost use Rattle.bosh_history.specs.Moments.{Moment, Opening};
ghost use Rattle.bosh_history.specs.Notes.{Outside};
ghost use Rattle.bosh_history.specs.Permitted.{IsPermitted, IsRun};
ghost use Rattle.bosh_history.specs.Words.{holds};
ghost use Rattle.laws_clean.specs.Few.{most_of_task};
ghost use Rattle.laws_clean.specs.Unfailed.{AreCleanTasksUnfailed, AreUnfailed};
ghost use Rattle.laws_counts.specs.Counts.{CleanFacts};
ghost use Rattle.laws_counts.specs.Courses.{Account, Course, course_later};
ghost use Rattle.laws_facts.specs.Facts.{Holds};

/// No call of a clean task fails. At each moment of a permitted history that began on a fit pair, a deploy or fix that
/// could find out what was wrong when it opened, and since which no call was answered that it failed, nothing was
/// lost and nothing stopped, has no failed call: nothing that a call of it named was gone, but for a machine that was
/// known to be lost, or that a ping found so.
pub fn no_call_of_a_clean_task_fails()
    ensures { (outside : Outside) (o : Opening) (moves : List Move) → IsFit outside o → IsRun outside o moves →
        AreCleanTasksUnfailed o moves }
{}

/// Each permitted move keeps what this rests on, of each task that is clean by what is kept of it since it opened: its
/// rows are unspoiled or still to be asked, and its open calls were answered cleanly.
pub fn each_move_keeps_clean_tasks_unfailed()
    ensures { (outside : Outside) (c : Course) (move : Move) → IsPermitted outside c.moment move → Holds c.moment →
        AreUnfailed c → AreUnfailed (course_later c move) }
{}

/// Where the facts on a clean task hold, the calls that it made are few: each of its instances has at most those that
/// the budget has for a row, its own compile machines have no more than they may have had by now, and each that an
/// earlier task left has at most those of a machine.
pub fn the_calls_of_a_clean_task_are_few()
    ensures { (built : KeyWork → List Digest → Digest) (m : Moment) (t : ℕ) (it : Account) → CleanFacts built m t it →
        holds (λ n. nat_le n (most_of_task m t (m.known.task t) it)) (m.known.task t).calls ≡ true }
{}
