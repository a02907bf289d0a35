//! The contents of disks at each part of a permitted move: what a migration moved stays on both disks until it is answered.
#![tactic(auto)]

ghost use Rattle.laws_contents_kept.specs.Contents.{HaveMigrated};
ghost use Rattle.laws_moves.specs.Parts.{IsKeptByParts};

/// Each part of a move leaves both disks of a migration that was done, and is not answered yet, with the same contents:
/// no job runs on them, and no other call moves contents to one of them.
pub fn migrated_disks_stay_alike()
    ensures { IsKeptByParts HaveMigrated }
{}
