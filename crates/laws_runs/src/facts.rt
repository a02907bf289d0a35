//! The facts on what is known.
ghost use Rattle.std.specs.Prelude.{List};
ghost use Rattle.bosh_base.specs.declared.moves.Move.{Move};
ghost use Rattle.bosh_history.specs.Fit.{IsFit};
ghost use Rattle.bosh_history.specs.Moments.{Opening, moment};
ghost use Rattle.bosh_history.specs.Notes.{Outside};
ghost use Rattle.bosh_history.specs.Permitted.{IsRun};
ghost use Rattle.laws_facts.specs.Kept.{IsKept};
ghost use Rattle.laws_facts.specs.KnownFacts.{KnownFacts};
ghost use Rattle.laws_moves.specs.Parts.{IsKeptByPartsAlone};

/// Each permitted move keeps all facts on what is known.
pub fn each_move_keeps_the_facts()
    ensures { IsKept KnownFacts }
{}

/// So does each part of a move, also in the middle of a stop.
pub fn each_part_keeps_the_facts()
    ensures { IsKeptByPartsAlone KnownFacts }
{}

/// All facts on what is known hold at each moment of a permitted history that began on a fit pair.
pub fn each_moment_has_the_facts()
    ensures { (outside : Outside) (o : Opening) (moves : List Move) → IsFit outside o → IsRun outside o moves
        → KnownFacts (moment o moves) }
{}
