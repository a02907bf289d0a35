//! Calls of compile machines.
ghost use Rattle.std.specs.Prelude.{◌≡◌, ℕ, false};
ghost use Rattle.bosh_base.specs.declared.call.Call.{Call};
ghost use Rattle.bosh_base.specs.declared.entry.Entry.TheVariants as entries;
ghost use Rattle.bosh_base.specs.declared.owner.Owner.TheVariants.{Compile};
ghost use Rattle.bosh_fold.specs.Learned.{learned};
ghost use Rattle.bosh_fold.specs.declared.change.Change.TheVariants as changes;
ghost use Rattle.bosh_plan.specs.Begun.{subject_of};
ghost use Rattle.bosh_records.specs.Recorded.{Recorded};
ghost use Rattle.bosh_records.specs.declared.records.Records.{Records};
ghost use Rattle.laws_stands.specs.Stands.{StandsIn, StandsInOrder};
ghost use Rattle.laws_stands.specs.Told.{Told, telling};
ghost use Rattle.laws_stands_begun.specs.Beginning.{HasRoom, IsListed, makes_machine};
ghost use Rattle.laws_stands_on.specs.Allows.{AllowsNext};
ghost use Rattle.laws_stands_slots.specs.Slots.{AllowsSlot};

/// It stands after a call of a compile machine that is there began that may begin, as it was planned, where there are
/// places for the call and for the key that it compiles.
pub fn what_is_recorded_stands_after_a_call_of_a_compile_machine_begins()
    ensures { (told : Told) (was : Records) (it : Recorded) (n number worker t s : ℕ) (call : Call)
        → makes_machine call ≡ false
        → AllowsNext told (record { n = number; task = n; worker = worker; owner = Compile t s; call = call })
        → AllowsSlot told n t s → IsListed told t s → HasRoom it number call
        → StandsIn told it
        → StandsInOrder
        (telling told
        (entries.Begin (record { n = number; task = n; worker = worker; owner = Compile t s; call = call })))
        (learned (entries.Begin (record { n = number; task = n; worker = worker; owner = Compile t s; call = call }))
        (changes.Begun (record {
          begin = record { n = number; task = n; worker = worker; owner = Compile t s; call = call };
          subject = subject_of was (record { n = number; task = n; worker = worker; owner = Compile t s; call = call });
        })) it) }
{}
