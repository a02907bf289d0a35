//! Tasks that failed by a call, and tasks that are done.
ghost use Rattle.std.specs.Prelude.{◌≡◌, true, ℕ};
ghost use Rattle.bosh_base.specs.declared.entry.Entry.TheVariants as entries;
ghost use Rattle.bosh_base.specs.declared.failure.Failure.TheVariants as failures;
ghost use Rattle.bosh_fold.specs.Learns.{Learns};
ghost use Rattle.bosh_history.specs.Moments.{Moment};
ghost use Rattle.bosh_history.specs.Notes.{EndsTask, FailsTask};
ghost use Rattle.bosh_history.specs.Recovered.{may_follow};
ghost use Rattle.bosh_records.specs.declared.records.Records.{Records};
ghost use Rattle.laws_facts.specs.KnownFacts.{KnownFacts};
ghost use Rattle.laws_stands.specs.Agrees.{Agrees};
ghost use Rattle.laws_stands.specs.Stands.{Stands};
ghost use Rattle.laws_stands.specs.Told.{Told, telling};
ghost use Rattle.laws_stands_noted.specs.Settling.{settles_nothing};

/// Where what is told agrees with a moment at which the facts on what is known hold, the records stand after a task ended by
/// its least failed call, where that may be noted.
pub fn what_is_recorded_stands_after_a_task_that_failed()
    ensures failed { (m : Moment) (told : Told) (was now : Records) (t n : ℕ) → Stands told was → Agrees m told
        → KnownFacts m → FailsTask m (record { task = t; cause = failures.Call n })
        → may_follow m (entries.TaskError (record { task = t; cause = failures.Call n })) ≡ true
        → Learns was (entries.TaskError (record { task = t; cause = failures.Call n })) now
        → Stands (telling told (entries.TaskError (record { task = t; cause = failures.Call n }))) now }
    ensures gone { (m : Moment) (told : Told) (was now : Records) (t n : ℕ) → Stands told was → Agrees m told
        → KnownFacts m → FailsTask m (record { task = t; cause = failures.Gone n })
        → may_follow m (entries.TaskError (record { task = t; cause = failures.Gone n })) ≡ true
        → Learns was (entries.TaskError (record { task = t; cause = failures.Gone n })) now
        → Stands (telling told (entries.TaskError (record { task = t; cause = failures.Gone n }))) now }
{}

/// .. and after a task was done that is no deploy, and deletes no deployment, where that may be noted.
pub fn what_is_recorded_stands_after_a_task_that_settles_nothing()
    ensures { (m : Moment) (told : Told) (was now : Records) (t : ℕ) → Stands told was → Agrees m told → KnownFacts m
        → EndsTask m t → may_follow m (entries.TaskDone t) ≡ true
        → settles_nothing (m.known.task t).kind ≡ true → Learns was (entries.TaskDone t) now
        → Stands (telling told (entries.TaskDone t)) now }
{}
