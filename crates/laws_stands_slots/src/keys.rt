//! Keys that are compiled.
ghost use Rattle.std.specs.Prelude.{◌≡◌, ℕ, List, Some, is_some, true};
ghost use Rattle.bosh_base.specs.declared.call.Call.TheVariants.{CompilePackage};
ghost use Rattle.bosh_base.specs.declared.digest.Digest.{Digest};
ghost use Rattle.bosh_base.specs.declared.key.KeyWork.{KeyWork};
ghost use Rattle.bosh_fold.specs.Calls.{built_in};
ghost use Rattle.bosh_records.specs.Recorded.{Recorded};
ghost use Rattle.laws_stands.specs.Reading.{state_of};
ghost use Rattle.laws_stands.specs.Stands.{StandsIn, StandsInOrder};
ghost use Rattle.laws_stands.specs.Told.{Told};
ghost use Rattle.laws_stands_slots.specs.Slots.{AreKeysApart, told_built};

/// It stands once a key is compiled, which has a place, where no key of the goal of an open task stands twice.
pub fn what_is_recorded_stands_once_a_key_is_compiled()
    ensures { (told : Told) (it : Recorded) (vm : ℕ) (work : KeyWork) (deps : List Digest) (digest : Digest)
        → AreKeysApart told → is_some (state_of it work.key) ≡ true → StandsIn told it
        → StandsInOrder (told_built work digest told) (built_in (CompilePackage vm work deps) (Some digest) it) }
{}
