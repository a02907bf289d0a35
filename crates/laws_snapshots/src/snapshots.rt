//! Snapshots of what is known.
ghost use Rattle.std.specs.Prelude.{◌≡◌, List, true};
ghost use Rattle.bosh_base.specs.declared.moves.Move.{Move};
ghost use Rattle.bosh_history.specs.Fit.{IsFit, plain};
ghost use Rattle.bosh_history.specs.Moments.{Opening, moment};
ghost use Rattle.bosh_history.specs.Notes.{Outside};
ghost use Rattle.bosh_history.specs.Permitted.{IsRun};
ghost use Rattle.bosh_history.specs.Snapshots.{snapshot_of};
ghost use Rattle.bosh_rows.specs.SoundSnapshot.{is_sound_snapshot};
ghost use Rattle.laws_stands_snapshots.specs.Built.{AreBuiltInOrder};

/// At each moment of a permitted history that began on a fit pair the compiled keys that are listed stand in their order, each
/// once.
pub fn compiled_keys_stand_in_order()
    ensures { (outside : Outside) (o : Opening) (moves : List Move) → IsFit outside o → IsRun outside o moves
        → AreBuiltInOrder (moment o moves).known.built }
{}

/// A snapshot of what is known then is such as a store may begin with, as it is written now and in the older format.
pub fn snapshots_of_what_is_known_are_sound()
    ensures now { (outside : Outside) (o : Opening) (moves : List Move) → IsFit outside o → IsRun outside o moves
        → is_sound_snapshot (snapshot_of (moment o moves).known) ≡ true }
    ensures older { (outside : Outside) (o : Opening) (moves : List Move) → IsFit outside o → IsRun outside o moves
        → is_sound_snapshot (plain (snapshot_of (moment o moves).known)) ≡ true }
{}
