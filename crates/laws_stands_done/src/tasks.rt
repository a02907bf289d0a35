//! Tasks that are done.
ghost use Rattle.std.specs.Prelude.{◌≡◌, true, ℕ};
ghost use Rattle.bosh_base.specs.declared.entry.Entry.TheVariants as entries;
ghost use Rattle.bosh_fold.specs.Learns.{Learns};
ghost use Rattle.bosh_history.specs.Moments.{Moment};
ghost use Rattle.bosh_history.specs.Notes.{EndsTask};
ghost use Rattle.bosh_history.specs.Recovered.{may_follow};
ghost use Rattle.bosh_records.specs.Recorded.{recorded};
ghost use Rattle.bosh_records.specs.declared.records.Records.{Records};
ghost use Rattle.laws_facts.specs.KnownFacts.{KnownFacts};
ghost use Rattle.laws_stands.specs.Agrees.{Agrees};
ghost use Rattle.laws_stands.specs.Stands.{Stands};
ghost use Rattle.laws_stands.specs.Told.{Told, telling};
ghost use Rattle.laws_stands_fits.specs.Fits.{Fits};

/// Where what is told agrees with a moment at which the facts on what is known hold, the records stand after a task of
/// any kind is done, where that may be noted: a deploy offers what its goal does, and a deployment that is deleted is
/// recorded no more.
pub fn what_is_recorded_stands_after_a_task_that_is_done()
    ensures { (m : Moment) (told : Told) (was now : Records) (t : ℕ) → Stands told was → Agrees m told → KnownFacts m
        → EndsTask m t → may_follow m (entries.TaskDone t) ≡ true → Learns was (entries.TaskDone t) now
        → Stands (telling told (entries.TaskDone t)) now }
{}

/// .. and what is recorded of open tasks fits what is told, whether the end may be noted or not.
pub fn what_is_recorded_fits_after_a_task_that_is_done()
    ensures { (told : Told) (was now : Records) (t : ℕ) → Stands told was → Fits told (recorded was)
        → Learns was (entries.TaskDone t) now → Fits (telling told (entries.TaskDone t)) (recorded now) }
{}
