//! Calls on the cloud that are refused, and calls that are given up.
ghost use Rattle.std.specs.Prelude.{◌≡◌, ◌≢◌};
ghost use Rattle.bosh_agent.specs.Compiled.{compiled_digest};
ghost use Rattle.bosh_book.specs.declared.granted.Granted.{Granted};
ghost use Rattle.bosh_book.specs.declared.standing.Standing.TheVariants.{Unread};
ghost use Rattle.bosh_history.specs.Fit.{IsFit};
ghost use Rattle.bosh_history.specs.Moments.{Opening};
ghost use Rattle.bosh_history.specs.Notes.{Outside};
ghost use Rattle.bosh_world.specs.Abandons.{Abandons, GivesUp};
ghost use Rattle.bosh_world.specs.Performing.{RefusesToPerform};
ghost use Rattle.bosh_world.specs.Told.{IsPerformable};
ghost use Rattle.bosh_world.specs.declared.fault.SiteFault.{SiteFault};
ghost use Rattle.laws_sites.specs.Good.{IsGood};

use bosh_ports::Keeper;
use bosh_world::Site;

/// A good site that does not perform a call that it might perform is good: a trap stopped it, its cloud's store failed, or
/// memory was short.
pub fn a_good_site_that_refuses_a_call_stays_good<K: Keeper, L: Keeper>(
    was: &Site<K, L>,
    now: &Site<K, L>,
)
    ensures { (outside : Outside) (o : Opening) (permit : Granted) (fault : SiteFault) → IsFit outside o
        → outside.built ≡ compiled_digest → IsGood outside K.bodies L.bodies o was.now → IsPerformable was.now permit
        → RefusesToPerform L.bodies L.faults was.now permit fault now.now → IsGood outside K.bodies L.bodies o now.now }
{}

/// .. and so it is once that call is given up.
pub fn a_good_site_stops_in_a_call<K: Keeper, L: Keeper>(
    was: &Site<K, L>,
    mid: &Site<K, L>,
    now: &Site<K, L>,
)
    ensures { (outside : Outside) (o : Opening) (permit : Granted) (fault : SiteFault) → IsFit outside o
        → outside.built ≡ compiled_digest → IsGood outside K.bodies L.bodies o was.now → IsPerformable was.now permit
        → RefusesToPerform L.bodies L.faults was.now permit fault mid.now → Abandons mid.now permit now.now
        → IsGood outside K.bodies L.bodies o now.now }
{}

/// A good site whose records were read gives up a call, and is good.
pub fn a_good_site_gives_up_a_call<K: Keeper, L: Keeper>(was: &Site<K, L>, now: &Site<K, L>)
    ensures { (outside : Outside) (o : Opening) → IsFit outside o → IsGood outside K.bodies L.bodies o was.now
        → was.now.book.standing ≢ Unread → GivesUp was.now now.now → IsGood outside K.bodies L.bodies o now.now }
{}
