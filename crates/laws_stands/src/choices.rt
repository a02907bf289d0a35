//! What a worker of a task chooses.
ghost use Rattle.std.specs.Prelude.{◌≡◌, ℕ, List, None};
ghost use Rattle.bosh_claim.specs.Choice.{in_phase};
ghost use Rattle.bosh_claim.specs.Phase.{present};
ghost use Rattle.bosh_history.specs.Claim.{by_items};
ghost use Rattle.bosh_history.specs.Items.{items};
ghost use Rattle.bosh_history.specs.Moments.{Moment};
ghost use Rattle.bosh_records.specs.declared.records.Records.{Records};
ghost use Rattle.bosh_work.specs.declared.part.MachineName.{MachineName};
ghost use Rattle.bosh_work.specs.declared.work.Work.{Work};
ghost use Rattle.laws_stands.specs.Agrees.{claimed_of};
ghost use Rattle.laws_stands.specs.Choosing.{CanChoose};

/// Where the work of a task stands for what is known at a moment, and the tables do, and no call of the task failed, what is
/// chosen in the present phase is what is claimed by its items.
pub fn what_is_chosen_is_what_is_claimed()
    ensures { (m : Moment) (n worker : ℕ) (records : Records) (swept : List MachineName) (work : Work)
        → CanChoose m n records swept work → (m.known.task n).failed ≡ None
        → claimed_of (in_phase records work worker (present records work)) ≡ by_items m n worker (items m.known n) }
{}
