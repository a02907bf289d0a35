//! Permitted histories are lawful.
#![tactic(auto)]

ghost use Rattle.std.specs.Prelude.{List};
ghost use Rattle.bosh_base.specs.declared.moves.Move.{Move};
ghost use Rattle.bosh_history.specs.Fit.{IsFit, LeavesPair};
ghost use Rattle.bosh_history.specs.Moments.{Opening};
ghost use Rattle.bosh_history.specs.Notes.{Outside};
ghost use Rattle.bosh_history.specs.Permitted.{IsRun};
ghost use Rattle.bosh_lawful.specs.Lawful.{IsLawful};

/// A history that began on a fit pair and is permitted move by move is lawful.
pub fn permitted_histories_are_lawful()
    ensures { (outside : Outside) (o : Opening) (moves : List Move) → IsFit outside o → IsRun outside o moves →
        IsLawful outside o moves }
{}

/// What a permitted session leaves that ends with a stop is a fit pair again.
pub fn what_a_session_leaves_is_fit()
    ensures { (outside : Outside) (before next : Opening) (session : List Move) → IsFit outside before →
        LeavesPair outside before session next → IsFit outside next }
{}
