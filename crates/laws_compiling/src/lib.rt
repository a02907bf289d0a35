//! What is compiled at each moment of a permitted history, and what can be.
#![tactic(auto)]

ghost use Rattle.std.specs.Prelude.{◌≡◌, ℕ, true};
ghost use Rattle.bosh_base.specs.declared.entry.Entry.{Entry};
ghost use Rattle.bosh_base.specs.declared.key.Key.{Key};
ghost use Rattle.bosh_history.specs.Learn.{learn};
ghost use Rattle.bosh_history.specs.Moments.{Moment};
ghost use Rattle.bosh_history.specs.Notes.{MayNote, Outside};
ghost use Rattle.bosh_history.specs.Slots.{is_compiled};
ghost use Rattle.laws_compiling.specs.Compiling.{CanBeCompiled};
ghost use Rattle.laws_facts.specs.Kept.{IsKept, OfRecords};

/// What is compiled stays so, whatever is noted.
#[tactic(auto, using(crate::proofs::GrowthLemmas::compiled_stays))]
pub fn what_is_compiled_stays_so()
    ensures { (outside : Outside) (m : Moment) (entry : Entry) (key : Key) → MayNote outside m entry →
        is_compiled m.known key ≡ true → is_compiled (learn m.known entry) key ≡ true }
{}

/// The keys of a current goal can still be compiled one after another, as more of them are compiled.
pub fn keys_can_still_be_compiled()
    ensures { IsKept (OfRecords CanBeCompiled) }
{}
