//! Calls of instances.
ghost use Rattle.std.specs.Prelude.{ℕ};
ghost use Rattle.std.specs.Option.{unwrap_or};
ghost use Rattle.bosh_base.specs.declared.answer.Answer.{Answer};
ghost use Rattle.bosh_base.specs.declared.call.Call.{Call};
ghost use Rattle.bosh_base.specs.declared.entry.Entry.TheVariants as entries;
ghost use Rattle.bosh_base.specs.declared.inst.Inst.{Inst};
ghost use Rattle.bosh_base.specs.declared.owner.Owner.TheVariants.{Instance};
ghost use Rattle.bosh_fold.specs.Learned.{learned};
ghost use Rattle.bosh_fold.specs.declared.change.Change.TheVariants as changes;
ghost use Rattle.bosh_plan.specs.Ended.{ended_of};
ghost use Rattle.bosh_plan.specs.declared.beginning.Subject.TheVariants as subjects;
ghost use Rattle.bosh_records.specs.Recorded.{Recorded};
ghost use Rattle.bosh_records.specs.declared.records.Records.{Records};
ghost use Rattle.bosh_rows.specs.After.{bare, begun_row};
ghost use Rattle.laws_stands.specs.Reading.{row_of};
ghost use Rattle.laws_stands.specs.Stands.{Stands, StandsIn, StandsInOrder};
ghost use Rattle.laws_stands.specs.Told.{Told, telling};
ghost use Rattle.laws_stands_on.specs.Allows.{AllowsCall, AllowsEnd, HasPlaces};

/// It stands after a call of an instance began that may begin, where there is a place for the call and one for what is said
/// of the instance.
pub fn what_is_recorded_stands_after_a_call_begins()
    ensures { (told : Told) (it : Recorded) (n number worker : ℕ) (call : Call) (i : Inst)
        → AllowsCall told n number call i → HasPlaces it number i → StandsIn told it
        → StandsInOrder
        (telling told
        (entries.Begin (record { n = number; task = n; worker = worker; owner = Instance i; call = call })))
        (learned (entries.Begin (record { n = number; task = n; worker = worker; owner = Instance i; call = call }))
        (changes.Begun (record {
          begin = record { n = number; task = n; worker = worker; owner = Instance i; call = call };
          subject = subjects.Instance (begun_row number call (unwrap_or (row_of it i) (bare i)));
        })) it) }
{}

/// .. and after it ended, as it was planned.
pub fn what_is_recorded_stands_after_a_call_ends()
    ensures { (told : Told) (was : Records) (it : Recorded) (n number worker : ℕ) (call : Call) (answer : Answer)
        (i : Inst)
        → AllowsEnd told (record { n = number; task = n; worker = worker; owner = Instance i; call = call }) answer i
        → Stands told was → StandsIn told it
        → StandsInOrder (telling told (entries.End (record { n = number; answer = answer })))
        (learned (entries.End (record { n = number; answer = answer }))
        (changes.Ended (ended_of was (record { n = number; answer = answer }))) it) }
{}
