//! The work of a task that opens, and that of the others.
ghost use Rattle.std.specs.Prelude.{◌+◌, ◌≡◌, Option, ℕ, eqb, false};
ghost use Rattle.bosh_base.specs.declared.entry.Entry.TheVariants as entries;
ghost use Rattle.bosh_base.specs.declared.entry.TaskOpen.{TaskOpen};
ghost use Rattle.bosh_history.specs.Moments.{Moment};
ghost use Rattle.bosh_history.specs.Openings.{MayOpen};
ghost use Rattle.bosh_plan.specs.WorkBy.{work_by};
ghost use Rattle.bosh_records.specs.declared.records.Records.{Records};
ghost use Rattle.bosh_work.specs.declared.work.Work.{Work};
ghost use Rattle.laws_facts.specs.KnownFacts.{KnownFacts};
ghost use Rattle.laws_stands.specs.Agrees.{Agrees};
ghost use Rattle.laws_stands.specs.Stands.{IsWork, Stands};
ghost use Rattle.laws_stands.specs.Told.{Told, telling};
ghost use Rattle.laws_stands_fits.specs.Own.{TellsOwn};
ghost use Rattle.laws_stands_works.specs.Opens.{IsWorkOpened, swept_by};

/// Where the records stand for what is told at a moment, the work that is made for a task that may open then stands for what
/// it is to do: its lines, its keys and the groups of its changed instances. It sweeps the compile machines that are left over
/// of earlier tasks of its deployment, all of which have ended.
pub fn work_of_a_task_that_opens_stands()
    ensures { (m : Moment) (told : Told) (records : Records) (o : TaskOpen) → Stands told records → Agrees m told
        → KnownFacts m → TellsOwn told → MayOpen m.known o
        → IsWorkOpened (telling told (entries.TaskOpen o)) o.task (swept_by records o) (work_by records o) }
{}

/// What another task has left goes on to stand, and one that has no work goes on to be closed, or told by a snapshot.
pub fn works_of_others_stand_once_a_task_opens()
    ensures { (told : Told) (o : TaskOpen) (t : ℕ) (work : Option Work) → o.task ≡ told.known.tasks + 1 → eqb o.task t ≡ false
        → IsWork told t work → IsWork (telling told (entries.TaskOpen o)) t work }
{}
