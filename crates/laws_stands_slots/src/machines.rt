//! Compile machines of which something is told.
ghost use Rattle.std.specs.Prelude.{ℕ, Option};
ghost use Rattle.std.specs.Option.{option_map};
ghost use Rattle.bosh_base.specs.declared.owner.Owner.TheVariants.{Compile};
ghost use Rattle.bosh_base.specs.declared.row.Doubt.{Doubt};
ghost use Rattle.bosh_base.specs.declared.row.Vm.{Vm};
ghost use Rattle.bosh_fold.specs.Calls.{machine_name, machine_told, with_doubt};
ghost use Rattle.bosh_plan.specs.declared.ending.Told.TheVariants.{There};
ghost use Rattle.bosh_records.specs.Recorded.{Recorded};
ghost use Rattle.laws_stands.specs.Stands.{StandsIn, StandsInOrder};
ghost use Rattle.laws_stands.specs.Told.{Told};
ghost use Rattle.laws_stands_slots.specs.Slots.{in_doubt_by, slot_there, told_slot};

/// It stands once an answer shows that a compile machine is there, and once a call leaves in doubt whether it is.
pub fn what_is_recorded_stands_once_a_compile_machine_is_told_of()
    ensures there { (told : Told) (it : Recorded) (t s : ℕ) (vm : Option Vm) → StandsIn told it
        → StandsInOrder (told_slot t s (option_map (slot_there vm) (told.known.slot t s)) told)
        (machine_told (machine_name t s) (There vm) it) }
    ensures doubt { (told : Told) (it : Recorded) (t s : ℕ) (doubt : Doubt) → StandsIn told it
        → StandsInOrder (told_slot t s (option_map (in_doubt_by doubt) (told.known.slot t s)) told)
        (with_doubt (Compile t s) doubt it) }
{}
