//! Compile machines that go.
ghost use Rattle.std.specs.Prelude.{ℕ};
ghost use Rattle.bosh_fold.specs.Calls.{machine_name, machine_told};
ghost use Rattle.bosh_plan.specs.declared.ending.Told.TheVariants.{Absent};
ghost use Rattle.bosh_records.specs.Recorded.{Recorded};
ghost use Rattle.laws_stands.specs.Stands.{StandsIn, StandsInOrder};
ghost use Rattle.laws_stands.specs.Told.{Told};
ghost use Rattle.laws_stands_ends.specs.Dropping.{AllowsDrop, told_dropped};

/// It stands once an answer shows that a compile machine is gone that may go.
pub fn what_is_recorded_stands_once_a_compile_machine_is_gone()
    ensures { (told : Told) (it : Recorded) (t s : ℕ) → AllowsDrop told t s → StandsIn told it
        → StandsInOrder (told_dropped t s told) (machine_told (machine_name t s) Absent it) }
{}
