//! Snapshots of what is recorded, and what is recorded once one was read.
ghost use Rattle.std.specs.Prelude.{◌≡◌, ◌≤◌, length};
ghost use Rattle.bosh_base.specs.declared.entry.Entry.TheVariants as entries;
ghost use Rattle.bosh_base.specs.declared.snapshot.Snapshot.{Snapshot};
ghost use Rattle.bosh_fold.specs.Learns.{Learns};
ghost use Rattle.bosh_history.specs.Moments.{Moment};
ghost use Rattle.bosh_history.specs.Snapshots.{snapshot_of};
ghost use Rattle.bosh_records.specs.Recorded.{recorded};
ghost use Rattle.bosh_records.specs.declared.records.Records.{Records};
ghost use Rattle.bosh_views.specs.Snapshot.{IsSnapshot};
ghost use Rattle.laws_facts.specs.KnownFacts.{KnownFacts};
ghost use Rattle.laws_stands.specs.Agrees.{Agrees};
ghost use Rattle.laws_stands.specs.Stands.{Stands};
ghost use Rattle.laws_stands.specs.Told.{TellsWell, Told, telling};
ghost use Rattle.laws_stands_fits.specs.Own.{TellsOwn};
ghost use Rattle.laws_stands_fits.specs.Whole.{StandsWhole};
ghost use Rattle.laws_stands_snapshots.specs.Built.{AreBuiltInOrder, BuiltStand};
ghost use Rattle.laws_stands_snapshots.specs.Readable.{IsReadable};

/// Where the records stand for what is told at a moment, and what they have of compiled keys for what is listed of these, a
/// snapshot of the records tells just what is known.
pub fn snapshot_of_the_records_is_that_of_what_is_known()
    ensures { (m : Moment) (told : Told) (records : Records) (s : Snapshot) → Stands told records → Agrees m told
        → KnownFacts m → BuiltStand m.known.built (recorded records) → IsSnapshot records s → s ≡ snapshot_of m.known }
{}

/// A snapshot of what is known at a moment can be read, where the compiled keys stand in their order, each once.
pub fn snapshot_of_what_is_known_can_be_read()
    ensures { (m : Moment) (told : Told) → KnownFacts m → Agrees m told → TellsWell told → TellsOwn told
        → AreBuiltInOrder m.known.built → IsReadable (snapshot_of m.known) }
{}

/// So records that read a snapshot of the records stand whole for what was known: readers of both say the same. There are no
/// more tasks than a counter can tell.
pub fn what_reads_a_snapshot_of_the_records_stands()
    ensures { (m : Moment) (told : Told) (records was now : Records) (s : Snapshot) → Stands told records → Agrees m told
        → KnownFacts m → TellsOwn told → BuiltStand m.known.built (recorded records)
        → length s.tasks ≤ 18446744073709551615 → IsSnapshot records s → Learns was (entries.Snapshot s) now
        → StandsWhole (telling told (entries.Snapshot (snapshot_of m.known))) now }
{}
