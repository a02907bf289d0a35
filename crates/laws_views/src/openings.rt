//! What opens by the records.
ghost use Rattle.std.specs.Prelude.{◌<◌, ◌≡◌, false, ℕ};
ghost use Rattle.bosh_asks.specs.declared.ask.Ask.{Ask};
ghost use Rattle.bosh_base.specs.declared.entry.Entry.TheVariants as entries;
ghost use Rattle.bosh_base.specs.declared.entry.TaskOpen.{TaskOpen};
ghost use Rattle.bosh_history.specs.Moments.{Moment};
ghost use Rattle.bosh_history.specs.Openings.{HasSource, MayOpen};
ghost use Rattle.bosh_history.specs.Recovered.{is_recovering};
ghost use Rattle.bosh_history.specs.Sound.{IsSound};
ghost use Rattle.bosh_records.specs.declared.records.Records.{Records};
ghost use Rattle.laws_facts.specs.KnownFacts.{KnownFacts};
ghost use Rattle.laws_stands.specs.Agrees.{Agrees};
ghost use Rattle.laws_stands.specs.Stands.{Stands};
ghost use Rattle.laws_stands.specs.Told.{Told};
ghost use Rattle.laws_views.specs.Planned.{IsChecked, IsPlanned};
ghost use Rattle.laws_views.specs.Viewed.{CanBeViewed};

/// Where the records stand for what is told at a moment, a task that is planned over them for any ask may open then, as long
/// as tasks have numbers.
pub fn openings_may_open()
    ensures { (m : Moment) (told : Told) (records : Records) (ask : Ask) (o : TaskOpen) → Stands told records
        → Agrees m told → KnownFacts m → m.known.tasks < 18446744073709551615 → IsPlanned records ask o
        → MayOpen m.known o }
{}

/// .. and where no task is left that a stop interrupted, its goal may be worked on, and a deploy tells its source, so that the
/// opening may be noted. The manifest of a deploy is a checked one.
pub fn openings_may_be_noted()
    ensures { (m : Moment) (told : Told) (records : Records) (ask : Ask) (o : TaskOpen) → Stands told records
        → Agrees m told → KnownFacts m → is_recovering m ≡ false → CanBeViewed m.known
        → m.known.tasks < 18446744073709551615 → IsChecked ask → IsPlanned records ask o
        → MayOpen m.known o × IsSound m.known o × HasSource (entries.TaskOpen o) }
{}
