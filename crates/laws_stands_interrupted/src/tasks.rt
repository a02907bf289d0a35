//! Tasks that failed, and tasks that a stop interrupted.
ghost use Rattle.std.specs.Prelude.{◌≡◌, true, ℕ};
ghost use Rattle.bosh_base.specs.declared.entry.Entry.TheVariants as entries;
ghost use Rattle.bosh_base.specs.declared.entry.TaskError.{TaskError};
ghost use Rattle.bosh_base.specs.declared.failure.Failure.TheVariants as failures;
ghost use Rattle.bosh_fold.specs.Learns.{Learns};
ghost use Rattle.bosh_history.specs.Moments.{Moment};
ghost use Rattle.bosh_history.specs.Notes.{FailsTask};
ghost use Rattle.bosh_history.specs.Recovered.{may_follow};
ghost use Rattle.bosh_records.specs.Recorded.{recorded};
ghost use Rattle.bosh_records.specs.declared.records.Records.{Records};
ghost use Rattle.laws_facts.specs.KnownFacts.{KnownFacts};
ghost use Rattle.laws_stands.specs.Agrees.{Agrees};
ghost use Rattle.laws_stands.specs.Stands.{Stands};
ghost use Rattle.laws_stands.specs.Told.{Told, telling};
ghost use Rattle.laws_stands_fits.specs.Fits.{Fits};
ghost use Rattle.laws_stands_fits.specs.Own.{TellsOwn};

/// What is recorded of open tasks fits what is told after a task ended by whatever cause, whether that may be noted or not.
pub fn what_is_recorded_fits_after_a_task_that_failed()
    ensures { (told : Told) (was now : Records) (e : TaskError) → Stands told was → Fits told (recorded was)
        → Learns was (entries.TaskError e) now → Fits (telling told (entries.TaskError e)) (recorded now) }
{}

/// Where what is told agrees with a moment at which the facts on what is known hold, the records stand, and fit, after a task
/// that a stop interrupted has ended, where that may be noted. Its calls may be told as open until then.
pub fn what_is_recorded_stands_after_a_task_that_was_interrupted()
    ensures { (m : Moment) (told : Told) (was now : Records) (t : ℕ) → Stands told was → Agrees m told → KnownFacts m
        → TellsOwn told → Fits told (recorded was)
        → FailsTask m (record { task = t; cause = failures.Interrupted })
        → may_follow m (entries.TaskError (record { task = t; cause = failures.Interrupted })) ≡ true
        → Learns was (entries.TaskError (record { task = t; cause = failures.Interrupted })) now
        → Stands (telling told (entries.TaskError (record { task = t; cause = failures.Interrupted }))) now
        × Fits (telling told (entries.TaskError (record { task = t; cause = failures.Interrupted }))) (recorded now) }
{}
