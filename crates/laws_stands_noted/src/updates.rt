//! Uploads, updates of instances, and instances that leave.
ghost use Rattle.std.specs.Prelude.{◌≡◌, ◌<◌, List, true, ℕ};
ghost use Rattle.bosh_base.specs.declared.entry.Entry.TheVariants as entries;
ghost use Rattle.bosh_base.specs.declared.entry.Update.{Update};
ghost use Rattle.bosh_base.specs.declared.release.Release.{Release};
ghost use Rattle.bosh_base.specs.declared.stemcell.Stemcell.{Stemcell};
ghost use Rattle.bosh_fold.specs.Learns.{Learns};
ghost use Rattle.bosh_history.specs.Moments.{Moment};
ghost use Rattle.bosh_history.specs.Notes.{BeginsUpdate, EndsUpdate, Leaves};
ghost use Rattle.bosh_history.specs.Recovered.{may_follow};
ghost use Rattle.bosh_records.specs.declared.records.Records.{Records};
ghost use Rattle.laws_facts.specs.Facts.{Holds};
ghost use Rattle.laws_facts.specs.KnownFacts.{KnownFacts};
ghost use Rattle.laws_stands.specs.Agrees.{Agrees};
ghost use Rattle.laws_stands.specs.Stands.{Stands};
ghost use Rattle.laws_stands.specs.Told.{Told, telling};

/// Where the records stand for what is told, they stand after an upload was learned.
pub fn what_is_recorded_stands_after_an_upload()
    ensures release { (told : Told) (was now : Records) → Stands told was → (release : Release)
        → Learns was (entries.Release release) now → Stands (telling told (entries.Release release)) now }
    ensures stemcell { (told : Told) (was now : Records) → Stands told was → (stemcell : Stemcell)
        → Learns was (entries.Stemcell stemcell) now → Stands (telling told (entries.Stemcell stemcell)) now }
    ensures config { (told : Told) (was now : Records) → Stands told was → (file : List ℕ)
        → Learns was (entries.Config file) now → Stands (telling told (entries.Config file)) now }
{}

/// Where what is told agrees with a moment at which all facts hold, they stand after an update of an instance that may begin
/// or be done, and after an instance that may leave.
pub fn what_is_recorded_stands_after_an_update_that_may_be_noted()
    ensures begins { (m : Moment) (told : Told) (was now : Records) (u : Update) → Stands told was → Agrees m told
        → KnownFacts m → m.known.last_call < 18446744073709551615 → BeginsUpdate m u
        → may_follow m (entries.UpdBegin u) ≡ true → Learns was (entries.UpdBegin u) now
        → Stands (telling told (entries.UpdBegin u)) now }
    ensures done { (m : Moment) (told : Told) (was now : Records) (u : Update) → Stands told was → Agrees m told
        → Holds m → EndsUpdate m u → may_follow m (entries.UpdDone u) ≡ true
        → Learns was (entries.UpdDone u) now → Stands (telling told (entries.UpdDone u)) now }
    ensures leaves { (m : Moment) (told : Told) (was now : Records) (u : Update) → Stands told was → Agrees m told
        → Holds m → Leaves m u → may_follow m (entries.Gone u) ≡ true → Learns was (entries.Gone u) now
        → Stands (telling told (entries.Gone u)) now }
{}
