//! What is recorded once a task opens.
ghost use Rattle.std.specs.Prelude.{◌≡◌, Option, Some, eqb, false, true, ℕ};
ghost use Rattle.bosh_base.specs.declared.entry.Entry.TheVariants as entries;
ghost use Rattle.bosh_base.specs.declared.entry.TaskOpen.{TaskOpen};
ghost use Rattle.bosh_fold.specs.Learns.{Learns};
ghost use Rattle.bosh_history.specs.Moments.{Moment};
ghost use Rattle.bosh_history.specs.Openings.{MayOpen};
ghost use Rattle.bosh_history.specs.Sound.{IsSound};
ghost use Rattle.bosh_history.specs.Words.{is_among};
ghost use Rattle.bosh_plan.specs.WorkBy.{work_by};
ghost use Rattle.bosh_records.specs.Recorded.{recorded};
ghost use Rattle.bosh_records.specs.declared.records.Records.{Records};
ghost use Rattle.bosh_work.specs.declared.part.MachineName.{MachineName};
ghost use Rattle.bosh_work.specs.declared.work.Work.{Work};
ghost use Rattle.laws_facts.specs.KnownFacts.{KnownFacts};
ghost use Rattle.laws_stands.specs.Agrees.{Agrees};
ghost use Rattle.laws_stands.specs.Linked.{same_machine};
ghost use Rattle.laws_stands.specs.Stands.{IsWork, Stands};
ghost use Rattle.laws_stands.specs.Told.{Told, telling};
ghost use Rattle.laws_stands_fits.specs.Fits.{Fits, SweepsEnded};
ghost use Rattle.laws_stands_fits.specs.Own.{TellsOwn};

/// Where the records stand for what is told, and that agrees with a moment at which the facts on what is known hold, they
/// stand after a task opened that may be noted, and what is recorded of open tasks fits: where the work that is made for
/// the task stands for what it is to do, the works of the others go on to stand, and the machines that it sweeps are of
/// tasks that have ended.
pub fn what_is_recorded_stands_after_a_task_that_may_open()
    ensures { (m : Moment) (told : Told) (was now : Records) (o : TaskOpen) → Stands told was → Agrees m told
        → KnownFacts m → TellsOwn told → Fits told (recorded was) → MayOpen m.known o → IsSound m.known o
        → (learns : Learns was (entries.TaskOpen o) now)
        → IsWork (telling told (entries.TaskOpen o)) o.task (Some (work_by learns.roomy o))
        → ((t : ℕ) (work : Option Work) → eqb o.task t ≡ false → IsWork told t work
        → IsWork (telling told (entries.TaskOpen o)) t work)
        → ((name : MachineName) → is_among same_machine name (work_by learns.roomy o).sweep.items ≡ true
        → SweepsEnded (telling told (entries.TaskOpen o)) o.task name)
        → Stands (telling told (entries.TaskOpen o)) now × Fits (telling told (entries.TaskOpen o)) (recorded now) }
{}
