//! Entries that may be noted.
ghost use Rattle.std.specs.Prelude.{◌<◌, ◌≡◌, true};
ghost use Rattle.bosh_base.specs.declared.entry.Entry.TheVariants as entries;
ghost use Rattle.bosh_base.specs.declared.entry.Entry.{Entry};
ghost use Rattle.bosh_base.specs.declared.entry.TaskOpen.{TaskOpen};
ghost use Rattle.bosh_claim.specs.Allowed.{allowed};
ghost use Rattle.bosh_history.specs.Moments.{Moment};
ghost use Rattle.bosh_history.specs.Notes.{MayNote, Outside};
ghost use Rattle.bosh_history.specs.Openings.{MayOpen};
ghost use Rattle.bosh_history.specs.Recovered.{may_follow};
ghost use Rattle.bosh_records.specs.declared.records.Records.{Records};
ghost use Rattle.laws_allowed_openings.specs.Sources.{MayTellSource};
ghost use Rattle.laws_facts.specs.KnownFacts.{KnownFacts};
ghost use Rattle.laws_stands.specs.Agrees.{Agrees};
ghost use Rattle.laws_stands.specs.Stands.{Stands};
ghost use Rattle.laws_stands.specs.Told.{Told};

/// A task that may open is allowed to, where only a deploy tells a source.
pub fn a_task_that_may_open_is_allowed_to()
    ensures { (m : Moment) (told : Told) (records : Records) (o : TaskOpen) → Stands told records → Agrees m told
        → KnownFacts m → MayOpen m.known o → MayTellSource (entries.TaskOpen o)
        → allowed records (entries.TaskOpen o) ≡ true }
{}

/// So each entry that may be noted at a moment, and follow then, is allowed by the records that stand for what is told, as
/// long as calls have numbers.
pub fn what_may_be_noted_is_allowed()
    ensures { (outside : Outside) (m : Moment) (told : Told) (records : Records) (entry : Entry) → Stands told records
        → Agrees m told → KnownFacts m → m.known.last_call < 18446744073709551615 → MayNote outside m entry
        → may_follow m entry ≡ true → MayTellSource entry → allowed records entry ≡ true }
{}
