//! What a task leaves that is reported done, where all facts hold: exactly what it was asked for.
#![tactic(auto)]

ghost use Rattle.std.specs.Prelude.{◌≡◌, ℕ, true};
ghost use Rattle.bosh_base.specs.declared.entry.Entry.TheVariants.{TaskDone};
ghost use Rattle.bosh_history.specs.Exact.{is_exact};
ghost use Rattle.bosh_history.specs.Moments.{Moment, noting};
ghost use Rattle.bosh_history.specs.Notes.{EndsTask};
ghost use Rattle.bosh_history.specs.Recovered.{may_follow};
ghost use Rattle.laws_facts.specs.Facts.{Holds};

/// A task that is reported done left what it was asked for: a deploy and a deletion left their deployment exactly their
/// goal, a task of one instance left that instance as its goal wants it, and a clean-up left none of its disks.
pub fn a_task_that_is_done_is_exact()
    ensures { (m : Moment) (t : ℕ) → Holds m → may_follow m (TaskDone t) ≡ true → EndsTask m t →
        is_exact (noting m (TaskDone t)) t ≡ true }
{}
