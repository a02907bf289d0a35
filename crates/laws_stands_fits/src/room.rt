//! Room for more.
ghost use Rattle.bosh_fold.specs.Learns.{IsAlike};
ghost use Rattle.bosh_records.specs.declared.records.Records.{Records};
ghost use Rattle.laws_stands.specs.Told.{Told};
ghost use Rattle.laws_stands_fits.specs.Whole.{StandsWhole};

/// What is recorded stands and fits also with room for more.
pub fn what_is_recorded_fits_with_room_for_more()
    ensures { (told : Told) (was now : Records) → IsAlike was now → StandsWhole told was → StandsWhole told now }
{}
