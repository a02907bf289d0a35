//! Calls of instances, and of disks that belong to none.
ghost use Rattle.std.specs.Prelude.{◌≡◌, ◌<◌, Some, true, ℕ};
ghost use Rattle.bosh_base.specs.declared.answer.Answer.{Answer};
ghost use Rattle.bosh_base.specs.declared.entry.Begin.{Begin};
ghost use Rattle.bosh_base.specs.declared.entry.Entry.TheVariants as entries;
ghost use Rattle.bosh_base.specs.declared.inst.Inst.{Inst};
ghost use Rattle.bosh_base.specs.declared.owner.Owner.TheVariants.{Disk, Instance};
ghost use Rattle.bosh_fold.specs.Learns.{Learns};
ghost use Rattle.bosh_history.specs.Moments.{Moment, OpenCall};
ghost use Rattle.bosh_history.specs.Notes.{Begins};
ghost use Rattle.bosh_history.specs.Recovered.{may_follow};
ghost use Rattle.bosh_records.specs.declared.records.Records.{Records};
ghost use Rattle.laws_facts.specs.KnownFacts.{KnownFacts};
ghost use Rattle.laws_stands.specs.Agrees.{Agrees};
ghost use Rattle.laws_stands.specs.Stands.{Stands};
ghost use Rattle.laws_stands.specs.Told.{Told, telling};

/// Where the records stand for what is told, and that agrees with a moment at which the facts on what is known hold, they
/// stand after a call of an instance or of such a disk began that may be noted, as long as calls have numbers.
pub fn what_is_recorded_stands_after_a_call_that_may_begin()
    ensures instances { (m : Moment) (told : Told) (was now : Records) (b : Begin) → Stands told was → Agrees m told
        → KnownFacts m → m.known.last_call < 18446744073709551615 → Begins m b
        → may_follow m (entries.Begin b) ≡ true → Learns was (entries.Begin b) now
        → (i : Inst) → b.owner ≡ Instance i → Stands (telling told (entries.Begin b)) now }
    ensures disks { (m : Moment) (told : Told) (was now : Records) (b : Begin) → Stands told was → Agrees m told
        → KnownFacts m → m.known.last_call < 18446744073709551615 → Begins m b
        → may_follow m (entries.Begin b) ≡ true → Learns was (entries.Begin b) now
        → (d : ℕ) → b.owner ≡ Disk d → Stands (telling told (entries.Begin b)) now }
{}

/// .. and after an open one ended.
pub fn what_is_recorded_stands_after_a_call_that_may_end()
    ensures instances { (m : Moment) (told : Told) (was now : Records) (n : ℕ) (answer : Answer) (call : OpenCall)
        → m.calls n ≡ Some call → Stands told was → Agrees m told → KnownFacts m
        → Learns was (entries.End (record { n = n; answer = answer })) now
        → (i : Inst) → call.begin.owner ≡ Instance i
        → Stands (telling told (entries.End (record { n = n; answer = answer }))) now }
    ensures disks { (m : Moment) (told : Told) (was now : Records) (n : ℕ) (answer : Answer) (call : OpenCall)
        → m.calls n ≡ Some call → Stands told was → Agrees m told → KnownFacts m
        → Learns was (entries.End (record { n = n; answer = answer })) now
        → (d : ℕ) → call.begin.owner ≡ Disk d
        → Stands (telling told (entries.End (record { n = n; answer = answer }))) now }
{}
