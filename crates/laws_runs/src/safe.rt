//! What no permitted history does.
ghost use Rattle.std.specs.Prelude.{List};
ghost use Rattle.bosh_base.specs.declared.moves.Move.{Move};
ghost use Rattle.bosh_history.specs.CompileKeys.{compiles_once};
ghost use Rattle.bosh_history.specs.Deletions.{is_deletion_asked};
ghost use Rattle.bosh_history.specs.Each.{EachMove, durable_well, noted_well};
ghost use Rattle.bosh_history.specs.Fit.{IsFit};
ghost use Rattle.bosh_history.specs.Links.{AreLinksKept};
ghost use Rattle.bosh_history.specs.Moments.{Opening, beginning};
ghost use Rattle.bosh_history.specs.Notes.{Outside};
ghost use Rattle.bosh_history.specs.Permitted.{IsRun};
ghost use Rattle.bosh_history.specs.Phases.{in_phase};
ghost use Rattle.bosh_history.specs.Recovered.{IsRecovered};
ghost use Rattle.bosh_history.specs.Rolling.{rolls_on};

/// The tasks that a stop interrupted come to their ends before anything else is made durable, whatever the history began
/// on.
pub fn interrupted_tasks_end_first()
    ensures { (outside : Outside) (o : Opening) (moves : List Move) → IsRun outside o moves → IsRecovered o moves }
{}

/// A disk is deleted only for a task that deletes disks and lists it, and and where it was recorded orphaned when the task opened.
pub fn disks_are_deleted_as_asked()
    ensures { (outside : Outside) (o : Opening) (moves : List Move) → IsFit outside o → IsRun outside o moves
        → EachMove is_deletion_asked (beginning o) moves }
{}

/// The phases of each task follow one another.
pub fn calls_follow_their_phases()
    ensures { (outside : Outside) (o : Opening) (moves : List Move) → IsFit outside o → IsRun outside o moves
        → EachMove (noted_well in_phase) (beginning o) moves }
{}

/// Groups are updated as their plans say: canaries first, and no more at once than the limit.
pub fn updates_roll_as_planned()
    ensures { (outside : Outside) (o : Opening) (moves : List Move) → IsFit outside o → IsRun outside o moves
        → EachMove rolls_on (beginning o) moves }
{}

/// No package is compiled twice, and instances are updated only once all keys of the goal are compiled.
pub fn no_package_is_compiled_twice()
    ensures { (outside : Outside) (o : Opening) (moves : List Move) → IsFit outside o → IsRun outside o moves
        → EachMove (durable_well compiles_once) (beginning o) moves }
{}

/// A link to another deployment is always one that its last done deploy offers.
pub fn links_stay_kept()
    ensures { (outside : Outside) (o : Opening) (moves : List Move) → IsFit outside o → IsRun outside o moves
        → AreLinksKept o moves }
{}
