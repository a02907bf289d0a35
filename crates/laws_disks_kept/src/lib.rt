//! Disks and the cloud at each part of a permitted move: an orphaned disk is what its record says, and each disk that is
//! there is recorded once.
#![tactic(auto)]

ghost use Rattle.laws_disks_kept.specs.Disks.{AreOrphansAnswered, AreOrphansAsRecorded, AreOrphansFitting};
ghost use Rattle.laws_disks_kept.specs.Disks.{AreRecordedOnce, AreRecordedOnceAnswered};
ghost use Rattle.laws_moves.specs.Parts.{IsKeptByParts};

/// Each part of a move leaves each orphaned disk what its record says: made as it is recorded, and there unless a
/// deletion that is in doubt had its effect. So it is once its open call is answered, and an open call on it is the one
/// that was to be made for it.
pub fn orphaned_disks_stay_as_recorded()
    ensures recorded { IsKeptByParts AreOrphansAsRecorded }
    ensures answered { IsKeptByParts AreOrphansAnswered }
    ensures fitting { IsKeptByParts AreOrphansFitting }
{}

/// Each part of a move leaves each disk that is there recorded once: it was created for an instance, and stands once
/// among the disks of the row, the creation in doubt and the orphans. So it is once any open call is answered.
pub fn disks_stay_recorded_once()
    ensures once { IsKeptByParts AreRecordedOnce }
    ensures answered { IsKeptByParts AreRecordedOnceAnswered }
{}
