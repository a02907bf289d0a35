//! Calls of compile machines.
ghost use Rattle.std.specs.Prelude.{◌≡◌, ℕ, List, Some};
ghost use Rattle.std.specs.Ordering.{nat_cmp};
ghost use Rattle.bosh_base.specs.declared.answer.Answer.{Answer};
ghost use Rattle.bosh_base.specs.declared.call.Call.{Call};
ghost use Rattle.bosh_base.specs.declared.call.Call.TheVariants.{CompilePackage};
ghost use Rattle.bosh_base.specs.declared.digest.Digest.{Digest};
ghost use Rattle.bosh_base.specs.declared.entry.Entry.TheVariants as entries;
ghost use Rattle.bosh_base.specs.declared.key.KeyWork.{KeyWork};
ghost use Rattle.bosh_base.specs.declared.owner.Owner.TheVariants.{Compile};
ghost use Rattle.bosh_fold.specs.Calls.{closed_call, failed_in, given_by, pinged_by};
ghost use Rattle.bosh_fold.specs.Learned.{learned};
ghost use Rattle.bosh_fold.specs.declared.change.Change.TheVariants as changes;
ghost use Rattle.bosh_plan.specs.Ended.{ended_of, failure_of, is_told};
ghost use Rattle.bosh_records.specs.Recorded.{Recorded};
ghost use Rattle.bosh_records.specs.Table.{without};
ghost use Rattle.bosh_records.specs.declared.records.Records.{Records};
ghost use Rattle.laws_stands.specs.Stands.{Stands, StandsIn, StandsInOrder};
ghost use Rattle.laws_stands.specs.Told.{Told, telling};
ghost use Rattle.laws_stands_slots.specs.Slots.{AllowsSlot, AreKeysApart, told_closed};

/// It stands once a call of a compile machine is open no more, and its task may have failed by it, before anything else
/// is told by its answer.
pub fn what_is_recorded_stands_once_a_call_of_a_compile_machine_is_closed()
    ensures { (told : Told) (was : Records) (it : Recorded) (n number worker : ℕ) (call : Call) (answer : Answer)
        (t s : ℕ)
        → told.calls number
        ≡ Some (record { n = number; task = n; worker = worker; owner = Compile t s; call = call })
        → AllowsSlot told n t s → StandsIn told it
        → StandsInOrder
        (told_closed (record { n = number; task = n; worker = worker; owner = Compile t s; call = call }) answer told)
        (failed_in n
        (failure_of was answer (record { n = number; task = n; worker = worker; owner = Compile t s; call = call }))
        (pinged_by (is_told answer)
        (record { n = number; task = n; worker = worker; owner = Compile t s; call = call })
        (given_by n (Compile t s)
        (closed_call (record { n = number; task = n; worker = worker; owner = Compile t s; call = call })
        (record it { calls = without nat_cmp number it.calls }))))) }
{}

/// It stands after a compilation ended, as it was planned, where no key of the goal of an open task stands twice.
pub fn what_is_recorded_stands_after_a_compilation_ends()
    ensures { (told : Told) (was : Records) (it : Recorded) (n number worker vm : ℕ) (work : KeyWork)
        (deps : List Digest) (answer : Answer) (t s : ℕ)
        → told.calls number
        ≡ Some (record {
          n = number;
          task = n;
          worker = worker;
          owner = Compile t s;
          call = CompilePackage vm work deps;
        })
        → AllowsSlot told n t s → AreKeysApart told → Stands told was → StandsIn told it
        → StandsInOrder (telling told (entries.End (record { n = number; answer = answer })))
        (learned (entries.End (record { n = number; answer = answer }))
        (changes.Ended (ended_of was (record { n = number; answer = answer }))) it) }
{}
