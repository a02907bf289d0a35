//! Updates of instances.
ghost use Rattle.bosh_base.specs.declared.entry.Entry.TheVariants as entries;
ghost use Rattle.bosh_base.specs.declared.entry.Update.{Update};
ghost use Rattle.bosh_fold.specs.Learned.{learned};
ghost use Rattle.bosh_fold.specs.declared.change.Change.TheVariants as changes;
ghost use Rattle.bosh_records.specs.Recorded.{Recorded};
ghost use Rattle.laws_stands.specs.Stands.{StandsIn, StandsInOrder};
ghost use Rattle.laws_stands.specs.Told.{Told, telling};
ghost use Rattle.laws_stands_on.specs.Allows.{AllowsUpdate};

/// It stands after the update of an instance began that may begin.
pub fn what_is_recorded_stands_after_an_update_begins()
    ensures { (told : Told) (it : Recorded) (update : Update) → AllowsUpdate told update → StandsIn told it
        → StandsInOrder (telling told (entries.UpdBegin update)) (learned (entries.UpdBegin update) changes.Nothing it) }
{}
