//! Entries that neither open nor end a task.
ghost use Rattle.std.specs.Prelude.{◌≡◌, true};
ghost use Rattle.bosh_base.specs.declared.entry.Entry.{Entry};
ghost use Rattle.bosh_fold.specs.Learns.{Learns};
ghost use Rattle.bosh_history.specs.Moments.{Moment};
ghost use Rattle.bosh_history.specs.Notes.{MayNote, Outside};
ghost use Rattle.bosh_records.specs.Recorded.{recorded};
ghost use Rattle.bosh_records.specs.declared.records.Records.{Records};
ghost use Rattle.laws_stands.specs.Agrees.{Agrees};
ghost use Rattle.laws_stands.specs.Stands.{Stands};
ghost use Rattle.laws_stands.specs.Told.{Told, telling};
ghost use Rattle.laws_stands_fits.specs.Fits.{Fits};
ghost use Rattle.laws_stands_fits.specs.Within.{is_within};

/// What is recorded of open tasks fits what is told also after uploads, calls and updates that may be noted.
pub fn what_is_recorded_fits_after_entries_within_tasks()
    ensures { (outside : Outside) (m : Moment) (told : Told) (was now : Records) (entry : Entry)
        → is_within entry ≡ true → MayNote outside m entry → Agrees m told → Stands told was
        → Fits told (recorded was) → Learns was entry now → Fits (telling told entry) (recorded now) }
{}
