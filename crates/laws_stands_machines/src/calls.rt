//! Calls of compile machines.
ghost use Rattle.std.specs.Prelude.{◌≡◌, ◌<◌, Some, true, ℕ};
ghost use Rattle.bosh_base.specs.declared.answer.Answer.{Answer};
ghost use Rattle.bosh_base.specs.declared.entry.Begin.{Begin};
ghost use Rattle.bosh_base.specs.declared.entry.Entry.TheVariants as entries;
ghost use Rattle.bosh_base.specs.declared.owner.Owner.TheVariants.{Compile};
ghost use Rattle.bosh_fold.specs.Learns.{Learns};
ghost use Rattle.bosh_history.specs.Moments.{Moment, OpenCall};
ghost use Rattle.bosh_history.specs.Notes.{Begins};
ghost use Rattle.bosh_history.specs.Recovered.{may_follow};
ghost use Rattle.bosh_records.specs.declared.records.Records.{Records};
ghost use Rattle.laws_facts.specs.KnownFacts.{KnownFacts};
ghost use Rattle.laws_stands.specs.Agrees.{Agrees};
ghost use Rattle.laws_stands.specs.Stands.{Stands};
ghost use Rattle.laws_stands.specs.Told.{Told, telling};
ghost use Rattle.laws_stands_fits.specs.Whole.{StandsWhole};

/// Where what is recorded stands for what is told and fits it, and that agrees with a moment at which the facts on what is
/// known hold, it stands after a call of a compile machine began that may be noted, of one that is made too, as long as
/// calls have numbers.
pub fn what_is_recorded_stands_after_a_call_of_a_compile_machine_that_may_begin()
    ensures { (m : Moment) (told : Told) (was now : Records) (b : Begin) → StandsWhole told was → Agrees m told
        → KnownFacts m → m.known.last_call < 18446744073709551615 → Begins m b
        → may_follow m (entries.Begin b) ≡ true → Learns was (entries.Begin b) now → (t s : ℕ)
        → b.owner ≡ Compile t s → Stands (telling told (entries.Begin b)) now }
{}

/// .. and after an open one ended, with any answer.
pub fn what_is_recorded_stands_after_a_call_of_a_compile_machine_that_may_end()
    ensures { (m : Moment) (told : Told) (was now : Records) (n : ℕ) (answer : Answer) (call : OpenCall)
        → m.calls n ≡ Some call → Stands told was → Agrees m told → KnownFacts m
        → Learns was (entries.End (record { n = n; answer = answer })) now → (t s : ℕ)
        → call.begin.owner ≡ Compile t s
        → Stands (telling told (entries.End (record { n = n; answer = answer }))) now }
{}
