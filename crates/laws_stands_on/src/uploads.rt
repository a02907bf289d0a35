//! Uploads.
ghost use Rattle.std.specs.Prelude.{ℕ, List};
ghost use Rattle.bosh_base.specs.declared.entry.Entry.TheVariants as entries;
ghost use Rattle.bosh_base.specs.declared.release.Release.{Release};
ghost use Rattle.bosh_base.specs.declared.stemcell.Stemcell.{Stemcell};
ghost use Rattle.bosh_fold.specs.Learned.{learned};
ghost use Rattle.bosh_fold.specs.declared.change.Change.TheVariants as changes;
ghost use Rattle.bosh_records.specs.Recorded.{Recorded};
ghost use Rattle.laws_stands.specs.Stands.{StandsIn};
ghost use Rattle.laws_stands.specs.Told.{Told, telling};

/// It stands after a release, a stemcell or a cloud config was uploaded.
pub fn what_is_recorded_stands_after_uploads()
    ensures release { (told : Told) (it : Recorded) (release : Release) → StandsIn told it
        → StandsIn (telling told (entries.Release release))
        (learned (entries.Release release) (changes.Release release) it) }
    ensures stemcell { (told : Told) (it : Recorded) (stemcell : Stemcell) → StandsIn told it
        → StandsIn (telling told (entries.Stemcell stemcell))
        (learned (entries.Stemcell stemcell) (changes.Stemcell stemcell) it) }
    ensures config { (told : Told) (it : Recorded) (file : List ℕ) → StandsIn told it
        → StandsIn (telling told (entries.Config file)) (learned (entries.Config file) (changes.Config file) it) }
{}
