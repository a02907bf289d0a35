//! Compile machines that are being made.
ghost use Rattle.std.specs.Prelude.{ℕ};
ghost use Rattle.bosh_fold.specs.Calls.{with_machine_of};
ghost use Rattle.bosh_history.specs.Known.{Slot};
ghost use Rattle.bosh_records.specs.Recorded.{Recorded};
ghost use Rattle.laws_stands.specs.Stands.{StandsIn, StandsInOrder};
ghost use Rattle.laws_stands.specs.Told.{Told};
ghost use Rattle.laws_stands_machines.specs.Making.{AllowsMake, machine_of_slot, told_made};

/// It stands once a compile machine is recorded that is being made for the first key that nobody works for.
pub fn what_is_recorded_stands_once_a_compile_machine_is_being_made()
    ensures { (told : Told) (it : Recorded) (t s : ℕ) (slot : Slot) → AllowsMake told it t s slot → StandsIn told it
        → StandsInOrder (told_made t s slot told) (with_machine_of (machine_of_slot told t s slot) it) }
{}
