//! What came from outside: releases and cloud configs.
ghost use Rattle.std.specs.Prelude.{List};
ghost use Rattle.bosh_base.specs.declared.moves.Move.{Move};
ghost use Rattle.bosh_history.specs.Fit.{IsFit};
ghost use Rattle.bosh_history.specs.Moments.{Opening, moment};
ghost use Rattle.bosh_history.specs.Notes.{Outside};
ghost use Rattle.bosh_history.specs.Permitted.{IsRun};
ghost use Rattle.laws_outside.specs.Shipped.{shipped};
ghost use Rattle.laws_undamaged.specs.Settled.{TellsRightly};
ghost use Rattle.laws_undamaged.specs.Uploads.{AreUploadsSound};

/// At each moment of a permitted history that began on a fit pair the recorded releases are sound, alone and together, and the
/// cloud config is one, where what is settled outside is told rightly.
pub fn what_came_from_outside_is_sound()
    ensures { (outside : Outside) → TellsRightly outside → (o : Opening) (moves : List Move) → IsFit outside o
        → IsRun outside o moves → AreUploadsSound (moment o moves).known.releases (moment o moves).known.config }
{}

/// The program's own tests tell rightly.
pub fn what_the_program_finds_out_is_right()
    ensures { TellsRightly shipped }
{}
