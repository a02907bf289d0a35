//! Tasks that end.
ghost use Rattle.std.specs.Prelude.{ℕ};
ghost use Rattle.bosh_base.specs.declared.task.TaskEnd.{TaskEnd};
ghost use Rattle.bosh_fold.specs.Tasks.{closed_task};
ghost use Rattle.bosh_records.specs.Recorded.{Recorded};
ghost use Rattle.laws_stands.specs.Stands.{StandsIn, StandsInOrder};
ghost use Rattle.laws_stands.specs.Told.{Told};
ghost use Rattle.laws_stands_closed.specs.Closed.{AllowsClose, told_ended};

/// It stands once a task has ended of which no call is open, where no other open task has its lock.
pub fn what_is_recorded_stands_once_a_task_is_closed()
    ensures { (t : ℕ) (end : TaskEnd) (told : Told) (it : Recorded) → AllowsClose told t → StandsIn told it
        → StandsInOrder (told_ended t end told) (closed_task t end it) }
{}
