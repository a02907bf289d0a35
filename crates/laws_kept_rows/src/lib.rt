//! Rows of instances and their open calls stay what the cloud has.
#![tactic(auto)]

ghost use Rattle.laws_kept_rows.specs.Kept.{HaveRowFacts, KeepTheirInstances};
ghost use Rattle.laws_moves.specs.Parts.{IsKeptByParts};

/// Each part of a move keeps all facts on each row and the cloud.
pub fn rows_stay_what_the_cloud_has()
    ensures { IsKeptByParts HaveRowFacts }
{}

/// Each part of a move keeps of each open call of an instance that what the instance was before it is what the cloud has,
/// until the cloud performs it, and from then on what the instance will be once the call is answered.
pub fn open_calls_keep_their_instances()
    ensures { IsKeptByParts KeepTheirInstances }
{}
