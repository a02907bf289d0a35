//! Calls of disks that belong to no instance.
ghost use Rattle.std.specs.Prelude.{◌≡◌, ℕ, Some, is_some, true};
ghost use Rattle.std.specs.Ordering.{nat_cmp};
ghost use Rattle.bosh_base.specs.declared.answer.Answer.{Answer};
ghost use Rattle.bosh_base.specs.declared.call.Call.{Call};
ghost use Rattle.bosh_base.specs.declared.entry.Entry.TheVariants as entries;
ghost use Rattle.bosh_base.specs.declared.owner.Owner.TheVariants.{Disk};
ghost use Rattle.bosh_fold.specs.Learned.{learned};
ghost use Rattle.bosh_fold.specs.declared.change.Change.TheVariants as changes;
ghost use Rattle.bosh_plan.specs.Begun.{subject_of};
ghost use Rattle.bosh_plan.specs.Ended.{ended_of};
ghost use Rattle.bosh_records.specs.Recorded.{Recorded};
ghost use Rattle.bosh_records.specs.Table.{found};
ghost use Rattle.bosh_records.specs.declared.records.Records.{Records};
ghost use Rattle.laws_stands.specs.Stands.{Stands, StandsIn, StandsInOrder};
ghost use Rattle.laws_stands.specs.Told.{Told, telling};
ghost use Rattle.laws_stands_after.specs.Disks.{AllowsDisk};
ghost use Rattle.laws_stands_on.specs.Allows.{AllowsNext};

/// It stands after a call of a disk began that may begin, as it was planned, where there is a place for the call.
pub fn what_is_recorded_stands_after_a_call_of_a_disk_begins()
    ensures { (told : Told) (was : Records) (it : Recorded) (n number worker : ℕ) (call : Call) (d : ℕ)
        → AllowsNext told (record { n = number; task = n; worker = worker; owner = Disk d; call = call })
        → AllowsDisk told n call d
        → is_some (found nat_cmp it.calls number) ≡ true
        → StandsIn told it
        → StandsInOrder
        (telling told
        (entries.Begin (record { n = number; task = n; worker = worker; owner = Disk d; call = call })))
        (learned (entries.Begin (record { n = number; task = n; worker = worker; owner = Disk d; call = call }))
        (changes.Begun (record {
          begin = record { n = number; task = n; worker = worker; owner = Disk d; call = call };
          subject = subject_of was (record { n = number; task = n; worker = worker; owner = Disk d; call = call });
        })) it) }
{}

/// .. and after it ended, as it was planned.
pub fn what_is_recorded_stands_after_a_call_of_a_disk_ends()
    ensures { (told : Told) (was : Records) (it : Recorded) (n number worker : ℕ) (call : Call) (answer : Answer)
        (d : ℕ)
        → told.calls number ≡ Some (record { n = number; task = n; worker = worker; owner = Disk d; call = call })
        → AllowsDisk told n call d
        → Stands told was → StandsIn told it
        → StandsInOrder (telling told (entries.End (record { n = number; answer = answer })))
        (learned (entries.End (record { n = number; answer = answer }))
        (changes.Ended (ended_of was (record { n = number; answer = answer }))) it) }
{}
