//! Replies, traps, and refusals that change nothing.
ghost use Rattle.std.specs.Prelude.{[]};
ghost use Rattle.bosh_base.specs.declared.moves.Said.{Said};
ghost use Rattle.bosh_history.specs.Moments.{Opening};
ghost use Rattle.bosh_history.specs.Notes.{Outside};
ghost use Rattle.bosh_traps.specs.declared.trap.Trap.{Trap};
ghost use Rattle.bosh_world.specs.Arms.{Arms};
ghost use Rattle.bosh_world.specs.Steps.{Comes, IsSame, KeepsBooks, Says};
ghost use Rattle.laws_sites.specs.Good.{IsGood};

use bosh_ports::Keeper;
use bosh_world::Site;

/// A good site that notes a reply is good, and so is one that has no memory for it.
pub fn a_good_site_replies<K: Keeper, L: Keeper>(was: &Site<K, L>, now: &Site<K, L>)
    ensures said { (outside : Outside) (o : Opening) (reply : Said) → IsGood outside K.bodies L.bodies o was.now
        → Says was.now reply now.now → IsGood outside K.bodies L.bodies o now.now }
    ensures refused { (outside : Outside) (o : Opening) → IsGood outside K.bodies L.bodies o was.now
        → Comes was.now [] now.now → KeepsBooks was.now now.now → IsGood outside K.bodies L.bodies o now.now }
{}

/// A good site on which a trap is set is good, and so is one that has no memory for it.
pub fn a_good_site_is_armed<K: Keeper, L: Keeper>(was: &Site<K, L>, now: &Site<K, L>)
    ensures armed { (outside : Outside) (o : Opening) (trap : Trap) → IsGood outside K.bodies L.bodies o was.now
        → Arms was.now trap now.now → IsGood outside K.bodies L.bodies o now.now }
    ensures refused { (outside : Outside) (o : Opening) → IsGood outside K.bodies L.bodies o was.now
        → IsSame was.now now.now → IsGood outside K.bodies L.bodies o now.now }
{}
