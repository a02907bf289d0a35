//! Clean deploys make no more calls than their budgets have.
#![tactic(auto)]

ghost use Rattle.std.specs.Prelude.{List};
ghost use Rattle.bosh_base.specs.declared.moves.Move.{Move};
ghost use Rattle.bosh_history.specs.Fit.{IsFit};
ghost use Rattle.bosh_history.specs.Moments.{Opening};
ghost use Rattle.bosh_history.specs.Notes.{Outside};
ghost use Rattle.bosh_history.specs.Permitted.{IsPermitted, IsRun};
ghost use Rattle.bosh_lawful.specs.Clean.{AreCleanTasksBounded};
ghost use Rattle.laws_clean.specs.Unfailed.{AreUnfailed};
ghost use Rattle.laws_counted.specs.Counted.{AreCounted};
ghost use Rattle.laws_counts.specs.Courses.{Course, course_later};
ghost use Rattle.laws_held.specs.Whole.{Whole};

/// Clean tasks keep within their budgets. At each moment of a permitted history that began on a fit pair, a deploy or
/// fix that could find out what was wrong when it opened, and since which no call was answered that it failed, nothing
/// was lost and nothing stopped, has no failed call, and began no more calls than its budget has, also where it ended
/// since.
pub fn clean_tasks_keep_within_their_budgets()
    ensures { (outside : Outside) (o : Opening) (moves : List Move) → IsFit outside o → IsRun outside o moves →
        AreCleanTasksBounded o moves }
{}

/// Each permitted move keeps what this rests on, of each task that is clean by what is kept of it since it opened: each
/// call is of an owner that the budget counts, and each owner had few.
pub fn each_move_keeps_the_calls_of_clean_tasks_few()
    ensures { (outside : Outside) (c : Course) (move : Move) → IsPermitted outside c.moment move → Whole c.moment →
        AreUnfailed c → AreCounted outside.built c → AreCounted outside.built (course_later c move) }
{}
