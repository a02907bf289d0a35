//! Entries.
ghost use Rattle.std.specs.Prelude.{◌<◌, ◌≡◌, true};
ghost use Rattle.bosh_base.specs.declared.entry.Entry.{Entry};
ghost use Rattle.bosh_fold.specs.Learns.{Learns};
ghost use Rattle.bosh_history.specs.Moments.{Moment};
ghost use Rattle.bosh_history.specs.Notes.{MayNote, Outside};
ghost use Rattle.bosh_history.specs.Recovered.{may_follow};
ghost use Rattle.bosh_records.specs.declared.records.Records.{Records};
ghost use Rattle.laws_held.specs.Whole.{Whole};
ghost use Rattle.laws_stands.specs.Agrees.{Agrees};
ghost use Rattle.laws_stands.specs.Told.{Told, telling};
ghost use Rattle.laws_stands_fits.specs.Whole.{StandsWhole};

/// Where what is recorded stands for what is told, and that agrees with a moment at which all facts hold, it stands after
/// each entry that may be noted and follow then, once that is learned, as long as calls have numbers.
pub fn what_is_recorded_stands_after_each_permitted_entry()
    ensures { (outside : Outside) (m : Moment) (told : Told) (was now : Records) (entry : Entry) → StandsWhole told was
        → Agrees m told → Whole m → m.known.last_call < 18446744073709551615
        → may_follow m entry ≡ true → MayNote outside m entry → Learns was entry now
        → StandsWhole (telling told entry) now }
{}
