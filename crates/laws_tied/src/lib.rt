//! What is recorded is what the cloud has, where all facts hold.
#![tactic(auto)]

ghost use Rattle.std.specs.Prelude.{◌≡◌, true};
ghost use Rattle.bosh_history.specs.Moments.{Moment};
ghost use Rattle.bosh_history.specs.Ties.{is_tied};
ghost use Rattle.laws_facts.specs.Facts.{Holds};

/// At a moment at which all facts hold, what is recorded is what the cloud has, and the cloud has nothing that is not
/// recorded: rows, compile machines and orphaned disks are tied, each machine that is there is of one that is recorded, and
/// each disk that is there is recorded once.
pub fn what_is_recorded_is_what_the_cloud_has()
    ensures { (m : Moment) → Holds m → is_tied m ≡ true }
{}
