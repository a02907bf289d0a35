//! What is recorded of compiled keys.
ghost use Rattle.bosh_base.specs.declared.entry.Entry.{Entry};
ghost use Rattle.bosh_fold.specs.Learns.{Learns};
ghost use Rattle.bosh_history.specs.Known.{nothing_known};
ghost use Rattle.bosh_history.specs.Learn.{learn};
ghost use Rattle.bosh_history.specs.Moments.{Moment};
ghost use Rattle.bosh_history.specs.Notes.{MayNote, Outside};
ghost use Rattle.bosh_records.specs.Recorded.{nothing, recorded};
ghost use Rattle.bosh_records.specs.declared.records.Records.{Records};
ghost use Rattle.laws_facts.specs.KnownFacts.{KnownFacts};
ghost use Rattle.laws_stands.specs.Agrees.{Agrees};
ghost use Rattle.laws_stands.specs.Stands.{Stands};
ghost use Rattle.laws_stands.specs.Told.{Told};
ghost use Rattle.laws_stands_snapshots.specs.Built.{BuiltStand};

/// At first nothing is recorded of compiled keys, and none is listed.
pub fn compiled_keys_stand_at_first()
    ensures { BuiltStand nothing_known.built nothing }
{}

/// What is recorded of compiled keys goes on to stand for what is listed of them, in their order, after each entry that may be
/// noted at a moment: a key is compiled once, under one name.
pub fn compiled_keys_go_on_to_stand()
    ensures { (outside : Outside) (m : Moment) (told : Told) (was : Records) (e : Entry) (now : Records) → Stands told was
        → Agrees m told → KnownFacts m → MayNote outside m e → Learns was e now
        → BuiltStand told.known.built (recorded was) → BuiltStand (learn told.known e).built (recorded now) }
{}
