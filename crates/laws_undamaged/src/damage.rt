//! Loads of what a history left.
ghost use Rattle.std.specs.Prelude.{◌<◌, List, ℕ};
ghost use Rattle.bosh_base.specs.declared.entry.Entry.{Entry};
ghost use Rattle.bosh_base.specs.declared.moves.Move.{Move};
ghost use Rattle.bosh_book.specs.Folds.{IsDamaged};
ghost use Rattle.bosh_history.specs.Fit.{AreStoredAs, IsFit};
ghost use Rattle.bosh_history.specs.Learn.{known_of};
ghost use Rattle.bosh_history.specs.Moments.{Opening, durable};
ghost use Rattle.bosh_history.specs.Notes.{Outside};
ghost use Rattle.bosh_history.specs.Permitted.{IsRun};
ghost use Rattle.laws_outside.specs.Shipped.{shipped};
ghost use Rattle.laws_undamaged.specs.Settled.{TellsRightly};

/// A load never finds an entry of a fit pair damaged. So it is wherever what is settled outside is told rightly, and then with
/// the entries that a permitted history made durable, each as it was written or in the older format, as long as calls have
/// numbers.
pub fn what_a_history_leaves_is_not_damaged()
    ensures shipped { (o : Opening) → IsFit shipped o → (place : ℕ) → IsDamaged o.entries place → ⊥ }
    ensures fit { (outside : Outside) → TellsRightly outside → (o : Opening) → IsFit outside o → (place : ℕ)
        → IsDamaged o.entries place → ⊥ }
    ensures durable { (outside : Outside) → TellsRightly outside → (o : Opening) (moves : List Move) (stored : List Entry)
        → IsFit outside o → IsRun outside o moves → AreStoredAs stored (durable o moves)
        → (known_of stored).last_call < 18446744073709551615 → (place : ℕ) → IsDamaged stored place → ⊥ }
{}
