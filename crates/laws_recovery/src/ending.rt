//! Tasks that are open where nothing is under way.
ghost use Rattle.std.specs.Prelude.{None, false, fold, map, ℕ, ◌≡◌};
ghost use Rattle.bosh_base.specs.declared.moves.Move.TheVariants as moves;
ghost use Rattle.bosh_history.specs.Moments.{Moment, later};
ghost use Rattle.bosh_history.specs.Notes.{Outside};
ghost use Rattle.bosh_history.specs.Permitted.{IsRunFrom};
ghost use Rattle.bosh_history.specs.Recovered.{is_recovering};
ghost use Rattle.laws_recovery.specs.Interrupted.{interruptions, open_at};
ghost use Rattle.laws_stands.specs.Told.{is_going};

/// Where no call is open and a stop came after each task, as at the beginning of a history, the tasks that are open may end as
/// interrupted, one after the other by number; and then no task is left that goes on, or that a stop interrupted.
pub fn tasks_that_are_open_come_to_their_ends()
    ensures run { (outside : Outside) (m : Moment) → m.halted ≡ false → m.calls ≡ (λ n. None) → m.stopped ≡ m.known.tasks
        → IsRunFrom outside m (map moves.Note (interruptions (open_at m.known))) }
    ensures none_left { (m : Moment) → m.stopped ≡ m.known.tasks
        → is_recovering (fold later m (map moves.Note (interruptions (open_at m.known)))) ≡ false }
    ensures none_goes_on { (m : Moment) (t : ℕ)
        → is_going (fold later m (map moves.Note (interruptions (open_at m.known)))).known t ≡ false }
{}
