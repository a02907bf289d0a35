//! Updates that are done, and instances that leave.
ghost use Rattle.bosh_base.specs.declared.entry.Entry.TheVariants as entries;
ghost use Rattle.bosh_base.specs.declared.entry.Update.{Update};
ghost use Rattle.bosh_fold.specs.Learns.{Learns};
ghost use Rattle.bosh_records.specs.declared.records.Records.{Records};
ghost use Rattle.laws_stands.specs.Stands.{Stands};
ghost use Rattle.laws_stands.specs.Told.{Told, telling};
ghost use Rattle.laws_stands_updates.specs.Finished.{AllowsFinish, AllowsLeave};

/// It stands after an update that may be done was learned to be done.
pub fn what_is_recorded_stands_after_an_update_is_done()
    ensures { (update : Update) (told : Told) (was now : Records) → AllowsFinish told update
        → Learns was (entries.UpdDone update) now → Stands told was
        → Stands (telling told (entries.UpdDone update)) now }
{}

/// .. and after an instance that may leave was learned to be gone.
pub fn what_is_recorded_stands_after_an_instance_leaves()
    ensures { (update : Update) (told : Told) (was now : Records) → AllowsLeave told update
        → Learns was (entries.Gone update) now → Stands told was → Stands (telling told (entries.Gone update)) now }
{}
