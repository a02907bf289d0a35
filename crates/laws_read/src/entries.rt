//! Entries that are read.
ghost use Rattle.std.specs.Prelude.{List, None, ℕ, ◌<◌, ◌≡◌};
ghost use Rattle.bosh_base.specs.declared.entry.Entry.{Entry};
ghost use Rattle.bosh_base.specs.declared.moves.Move.{Move};
ghost use Rattle.bosh_book.specs.Folds.{IsRead};
ghost use Rattle.bosh_history.specs.Fit.{AreStoredAs, IsFit};
ghost use Rattle.bosh_history.specs.Learn.{known_of};
ghost use Rattle.bosh_history.specs.Moments.{Moment, Opening, durable};
ghost use Rattle.bosh_history.specs.Notes.{Outside};
ghost use Rattle.bosh_history.specs.Permitted.{IsRun};
ghost use Rattle.bosh_records.specs.Recorded.{nothing, recorded};
ghost use Rattle.bosh_records.specs.declared.records.Records.{Records};
ghost use Rattle.laws_read.specs.Allowed.{AreAllowed};
ghost use Rattle.laws_read.specs.AtRest.{IsToldAtRest, StandsAtRest};
ghost use Rattle.laws_stands.specs.Agrees.{Agrees};
ghost use Rattle.laws_stands.specs.Told.{Told};

/// Records that were read of all entries that a permitted history made durable, each as it was written or in the older format,
/// stand for what these tell, and fit it, as long as calls have numbers.
pub fn what_is_read_stands()
    ensures { (outside : Outside) (o : Opening) (moves : List Move) (stored : List Entry) (records : Records)
        → IsFit outside o → IsRun outside o moves → AreStoredAs stored (durable o moves)
        → (known_of stored).last_call < 18446744073709551615 → IsRead stored records
        → StandsAtRest (known_of stored) records }
{}

/// What is told so agrees with each moment at which that is known and nothing is under way: with the beginning of a session on
/// these entries, and with what a stop leaves.
pub fn what_is_read_agrees()
    ensures { (m : Moment) (told : Told) → told.known ≡ m.known → ((n : ℕ) → m.calls n ≡ None)
        → m.stopped ≡ m.known.tasks → IsToldAtRest told → Agrees m told }
{}

/// Each entry that a permitted history made durable, as it was written or in the older format, is allowed by records that learned
/// those before it.
pub fn what_is_read_is_allowed()
    ensures { (outside : Outside) (o : Opening) (moves : List Move) (stored : List Entry) (first : Records)
        → IsFit outside o → IsRun outside o moves → AreStoredAs stored (durable o moves)
        → (known_of stored).last_call < 18446744073709551615 → recorded first ≡ nothing → AreAllowed first stored }
{}
