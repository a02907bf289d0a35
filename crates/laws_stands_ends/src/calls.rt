//! Calls of compile machines.
ghost use Rattle.std.specs.Prelude.{◌≡◌, ℕ, Some};
ghost use Rattle.bosh_base.specs.declared.answer.Answer.{Answer};
ghost use Rattle.bosh_base.specs.declared.call.Call.{Call};
ghost use Rattle.bosh_base.specs.declared.entry.Entry.TheVariants as entries;
ghost use Rattle.bosh_base.specs.declared.owner.Owner.TheVariants.{Compile};
ghost use Rattle.bosh_fold.specs.Learned.{learned};
ghost use Rattle.bosh_fold.specs.declared.change.Change.TheVariants as changes;
ghost use Rattle.bosh_plan.specs.Ended.{ended_of};
ghost use Rattle.bosh_records.specs.Recorded.{Recorded};
ghost use Rattle.bosh_records.specs.declared.records.Records.{Records};
ghost use Rattle.laws_stands.specs.Stands.{Stands, StandsIn, StandsInOrder};
ghost use Rattle.laws_stands.specs.Told.{Told, telling};
ghost use Rattle.laws_stands_ends.specs.Dropping.{AllowsGoing};
ghost use Rattle.laws_stands_slots.specs.Slots.{AllowsSlot, AreKeysApart};

/// It stands after any call of a compile machine ended, with whatever answer, as it was planned, where the machine may
/// be told to be gone and no key of the goal of an open task stands twice.
pub fn what_is_recorded_stands_after_a_call_of_a_compile_machine_ends()
    ensures { (told : Told) (was : Records) (it : Recorded) (n number worker : ℕ) (call : Call) (answer : Answer)
        (t s : ℕ)
        → told.calls number
        ≡ Some (record { n = number; task = n; worker = worker; owner = Compile t s; call = call })
        → (allows : AllowsSlot told n t s) → AreKeysApart told → AllowsGoing told t s allows.row → Stands told was
        → StandsIn told it
        → StandsInOrder (telling told (entries.End (record { n = number; answer = answer })))
        (learned (entries.End (record { n = number; answer = answer }))
        (changes.Ended (ended_of was (record { n = number; answer = answer }))) it) }
{}
