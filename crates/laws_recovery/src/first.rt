//! Before the first entry.
ghost use Rattle.std.specs.Prelude.{◌≡◌};
ghost use Rattle.bosh_history.specs.Moments as moments;
ghost use Rattle.bosh_records.specs.Recorded.{nothing, recorded};
ghost use Rattle.bosh_records.specs.declared.records.Records.{Records};
ghost use Rattle.laws_recovery.specs.First.{told_first};
ghost use Rattle.laws_stands.specs.Agrees.{Agrees};
ghost use Rattle.laws_stands_fits.specs.Whole.{StandsWhole};

/// Where nothing is recorded, that stands for what is told before the first entry and fits it; and this agrees with the
/// beginning of a history on empty stores.
pub fn what_is_recorded_at_first_stands()
    ensures stands { (records : Records) → recorded records ≡ nothing → StandsWhole told_first records }
    ensures agrees { Agrees (moments.beginning moments.nothing) told_first }
{}
