//! All facts, those on the cloud too, hold at each moment of a permitted history: so it is safe, what is
//! recorded stays what the cloud has, and a task that is reported done is exact.
#![tactic(auto)]

ghost use Rattle.std.specs.Prelude.{List};
ghost use Rattle.bosh_base.specs.declared.moves.Move.{Move};
ghost use Rattle.bosh_history.specs.Done.{AreDoneExactly};
ghost use Rattle.bosh_history.specs.Fit.{IsFit, LeavesPair};
ghost use Rattle.bosh_history.specs.Moments.{Moment, Opening, beginning, later, moment};
ghost use Rattle.bosh_history.specs.Notes.{Outside};
ghost use Rattle.bosh_history.specs.Permitted.{IsPermitted, IsRun};
ghost use Rattle.bosh_history.specs.Safe.{IsSafe};
ghost use Rattle.bosh_history.specs.Ties.{IsTied};
ghost use Rattle.laws_facts.specs.Facts.{Holds};
ghost use Rattle.laws_held.specs.Whole.{IsWholeKept, Whole};

/// Each part of a move keeps all facts, and so does each permitted move.
pub fn each_move_keeps_all_facts()
    ensures parts { IsWholeKept }
    ensures moves { (outside : Outside) (m : Moment) (move : Move) → IsPermitted outside m move → Whole m →
        Whole (later m move) }
{}

/// Where all facts held at the last moment of a session that ends with a stop, they hold where the next session begins, on
/// the entries that it made durable, or a snapshot in their place, and on what it did to the cloud.
pub fn what_a_session_leaves_has_all_facts()
    ensures { (outside : Outside) (before next : Opening) (session : List Move) →
        LeavesPair outside before session next → Whole (moment before session) → Whole (beginning next) }
{}

/// All facts hold at each moment of a permitted history that began on a fit pair.
pub fn each_moment_has_all_facts()
    ensures { (outside : Outside) (o : Opening) (moves : List Move) → IsFit outside o → IsRun outside o moves →
        Holds (moment o moves) }
{}

/// At each moment of a permitted history that began on a fit pair, what is recorded is what the cloud has, and the cloud
/// has nothing that is not recorded.
pub fn records_stay_what_the_cloud_has()
    ensures { (outside : Outside) (o : Opening) (moves : List Move) → IsFit outside o → IsRun outside o moves →
        IsTied o moves }
{}

/// It is safe: disks are deleted as they are asked to be, no two machines share an address, groups are updated as their
/// plans say, no package is compiled twice, the contents of disks are moved and never left behind, and the phases of each
/// task follow one another.
pub fn permitted_histories_are_safe()
    ensures { (outside : Outside) (o : Opening) (moves : List Move) → IsFit outside o → IsRun outside o moves →
        IsSafe o moves }
{}

/// Each task that is reported done left exactly what it was asked for, by a note or by the entry that a stop kept.
pub fn done_tasks_are_exact()
    ensures { (outside : Outside) (o : Opening) (moves : List Move) → IsFit outside o → IsRun outside o moves →
        AreDoneExactly o moves }
{}
