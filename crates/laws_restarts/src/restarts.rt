//! Sites that start anew.
ghost use Rattle.std.specs.Prelude.{None, Ok};
ghost use Rattle.bosh_history.specs.Fit.{IsFit};
ghost use Rattle.bosh_history.specs.Moments.{Opening};
ghost use Rattle.bosh_history.specs.Notes.{Outside};
ghost use Rattle.bosh_world.specs.Restarts.{RefusesRestart, Restarts};
ghost use Rattle.bosh_world.specs.declared.fault.SiteFault.{SiteFault};
ghost use Rattle.laws_sites.specs.Good.{IsGood};

use bosh_ports::Keeper;
use bosh_world::Site;

/// A good site that starts anew is good: the stop that its moves tell is a permitted one, with the entry, the calls and the
/// write or loss that came of what was not answered, and the tasks that it interrupted come to their ends. It stays good
/// where that is refused.
pub fn a_good_site_starts_anew<K: Keeper, L: Keeper>(was: &Site<K, L>, now: &Site<K, L>)
    ensures restarted { (outside : Outside) (o : Opening) → IsFit outside o → IsGood outside K.bodies L.bodies o was.now
        → Restarts K.bodies K.faults K.is_broken L.bodies L.faults was.now (Ok tt) None now.now
        → IsGood outside K.bodies L.bodies o now.now }
    ensures refused { (outside : Outside) (o : Opening) (fault : SiteFault) → IsFit outside o
        → IsGood outside K.bodies L.bodies o was.now
        → RefusesRestart K.bodies K.faults K.is_broken L.bodies L.faults was.now fault now.now
        → IsGood outside K.bodies L.bodies o now.now }
{}
