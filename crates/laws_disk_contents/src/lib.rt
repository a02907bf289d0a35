//! The contents of disks are moved, and never left behind, where all facts hold.
#![tactic(auto)]

ghost use Rattle.std.specs.Prelude.{◌≡◌, true};
ghost use Rattle.bosh_base.specs.declared.entry.Entry.{Entry};
ghost use Rattle.bosh_history.specs.DiskContents.{keeps_disks};
ghost use Rattle.bosh_history.specs.Moments.{Moment};
ghost use Rattle.bosh_history.specs.Notes.{MayNote, Outside};
ghost use Rattle.bosh_history.specs.Recovered.{may_follow};
ghost use Rattle.laws_facts.specs.Facts.{Holds};

/// Each entry that may be noted at a moment at which all facts hold keeps the contents of disks: a migration is from the
/// active disk of an instance to a new one of it, no other disk becomes the active one but by an answered migration to it,
/// which then has the contents, and a disk is created beside an active one only where that is not the one that is wanted.
pub fn disks_keep_their_contents()
    ensures { (outside : Outside) (m : Moment) (e : Entry) → Holds m → may_follow m e ≡ true → MayNote outside m e →
        keeps_disks m e ≡ true }
{}
