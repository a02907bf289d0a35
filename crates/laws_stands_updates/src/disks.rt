//! Disks that instances leave behind.
ghost use Rattle.std.specs.Prelude.{ℕ, List};
ghost use Rattle.bosh_base.specs.declared.inst.Inst.{Inst};
ghost use Rattle.bosh_base.specs.declared.row.DiskRow.{DiskRow};
ghost use Rattle.bosh_fold.specs.Updates.{with_orphans};
ghost use Rattle.bosh_history.specs.Updates.{orphans_after};
ghost use Rattle.bosh_plan.specs.Updated.{orphans_of};
ghost use Rattle.bosh_records.specs.Recorded.{Recorded};
ghost use Rattle.laws_stands.specs.Stands.{StandsIn, StandsInOrder};
ghost use Rattle.laws_stands.specs.Told.{Told};
ghost use Rattle.laws_stands_updates.specs.Finished.{AllowsLeft, HavePlaces};

/// It stands once disks are left behind by an instance, where there are places for them.
pub fn what_is_recorded_stands_once_disks_are_left()
    ensures { (told : Told) (it : Recorded) (i : Inst) (disks : List DiskRow) (listed : List ℕ)
        → AllowsLeft told disks → HavePlaces it.orphans disks → StandsIn told it
        → StandsInOrder
        (record told { known = record told.known { orphans = listed; orphan = orphans_after i disks told.known.orphan } })
        (record it { orphans = with_orphans (orphans_of i disks) it.orphans }) }
{}
