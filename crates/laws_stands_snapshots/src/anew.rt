//! What is recorded once a snapshot was read.
ghost use Rattle.std.specs.Prelude.{◌≡◌, ◌≤◌, length};
ghost use Rattle.bosh_base.specs.declared.entry.Entry.TheVariants as entries;
ghost use Rattle.bosh_base.specs.declared.snapshot.Snapshot.{Snapshot};
ghost use Rattle.bosh_fold.specs.Anew.{anew};
ghost use Rattle.bosh_fold.specs.Learns.{Learns};
ghost use Rattle.bosh_records.specs.Ordered.{AreOrdered};
ghost use Rattle.bosh_records.specs.declared.records.Records.{Records};
ghost use Rattle.laws_stands.specs.Stands.{StandsIn};
ghost use Rattle.laws_stands.specs.Told.{Told, telling};
ghost use Rattle.laws_stands_fits.specs.Fits.{Fits};
ghost use Rattle.laws_stands_fits.specs.Own.{TellsOwn};
ghost use Rattle.laws_stands_fits.specs.Whole.{StandsWhole};
ghost use Rattle.laws_stands_snapshots.specs.Built.{AreBuiltInOrder, BuiltStand};
ghost use Rattle.laws_stands_snapshots.specs.Readable.{IsReadable};

/// What is recorded once a snapshot that can be read took the place of all stands for what it tells. It has no more tasks
/// than a counter can tell.
pub fn records_read_anew_stand()
    ensures { (told : Told) (s : Snapshot) → IsReadable s → length s.tasks ≤ 18446744073709551615 → AreOrdered (anew s)
        → StandsIn (telling told (entries.Snapshot s)) (anew s) }
{}

/// .. and fits it.
pub fn records_read_anew_fit()
    ensures { (told : Told) (s : Snapshot) → IsReadable s → Fits (telling told (entries.Snapshot s)) (anew s) }
{}

/// What a snapshot tells of tasks that have not ended is of their deployments.
pub fn snapshot_tells_nothing_of_others()
    ensures { (told : Told) (s : Snapshot) → IsReadable s → TellsOwn (telling told (entries.Snapshot s)) }
{}

/// The records stand whole for what a snapshot tells once it was taken in, whatever they stood for before.
pub fn snapshot_that_is_learned_stands()
    ensures { (told : Told) (was : Records) (s : Snapshot) (now : Records) → IsReadable s
        → length s.tasks ≤ 18446744073709551615 → Learns was (entries.Snapshot s) now
        → StandsWhole (telling told (entries.Snapshot s)) now }
{}

/// What is recorded of compiled keys once a snapshot was read is what the snapshot lists of them, where it lists them in their
/// order, each once.
pub fn compiled_keys_read_anew_stand()
    ensures { (s : Snapshot) → IsReadable s → AreBuiltInOrder s.built_keys → BuiltStand s.built_keys (anew s) }
{}
