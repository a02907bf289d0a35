//! Room for more.
ghost use Rattle.std.specs.Prelude.{◌≡◌};
ghost use Rattle.bosh_records.specs.Ordered.{AreOrdered};
ghost use Rattle.bosh_records.specs.Recorded.{Recorded, kept};
ghost use Rattle.laws_stands.specs.Stands.{StandsIn};
ghost use Rattle.laws_stands.specs.Told.{Told};

/// It stands where the same is recorded, whatever room there is for more.
pub fn what_is_recorded_stands_with_room_for_more()
    ensures { (told : Told) (was now : Recorded) → AreOrdered now → kept now ≡ kept was → StandsIn told was
        → StandsIn told now }
{}
