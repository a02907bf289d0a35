//! Tasks that were open where a snapshot was put in the place of all entries.
ghost use Rattle.std.specs.Prelude.{List, fold, ℕ, ◌≡◌, ◌≤◌, length, false};
ghost use Rattle.bosh_base.specs.declared.entry.Entry.TheVariants as entries;
ghost use Rattle.bosh_base.specs.declared.snapshot.Snapshot.{Snapshot};
ghost use Rattle.bosh_history.specs.Moments.{Moment};
ghost use Rattle.bosh_records.specs.Recorded.{recorded};
ghost use Rattle.bosh_records.specs.declared.records.Records.{Records};
ghost use Rattle.bosh_views.specs.Snapshot.{IsSnapshot};
ghost use Rattle.laws_facts.specs.KnownFacts.{KnownFacts};
ghost use Rattle.laws_stands.specs.Agrees.{Agrees};
ghost use Rattle.laws_stands.specs.Told.{Told, is_going, telling};
ghost use Rattle.laws_stands_fits.specs.Whole.{StandsWhole};
ghost use Rattle.laws_recovery.specs.Interrupted.{interruptions};
ghost use Rattle.laws_stands_snapshots.specs.Built.{BuiltStand};

/// A snapshot is made of records that stand for what is told at a moment, and then tasks are ended as interrupted. Where the
/// records stand after that for what was told with these ends, and no task is left that goes on, they stand as well for
/// what the snapshot tells with them: a load that puts a snapshot in the place of the entries need not read it.
pub fn what_is_recorded_stands_for_a_snapshot_of_it()
    ensures { (m : Moment) (told : Told) (was now : Records) (s : Snapshot) (tasks : List ℕ) → StandsWhole told was
        → Agrees m told → KnownFacts m → BuiltStand m.known.built (recorded was) → IsSnapshot was s
        → StandsWhole (fold telling told (interruptions tasks)) now
        → ((t : ℕ) → is_going (fold telling told (interruptions tasks)).known t ≡ false)
        → StandsWhole (fold telling (telling told (entries.Snapshot s)) (interruptions tasks)) now }
{}
