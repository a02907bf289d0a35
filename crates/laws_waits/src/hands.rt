//! What is open as a worker takes steps.
ghost use Rattle.std.specs.Prelude.{List, Result, [], false, ◌≡◌, ℕ};
ghost use Rattle.bosh_crew.specs.Carried.{Carries, Reaches, Steps};
ghost use Rattle.bosh_crew.specs.declared.place.Place.TheVariants.{Empty};
ghost use Rattle.bosh_crew.specs.declared.place.Place.{Place};
ghost use Rattle.bosh_world.specs.declared.fault.SiteFault.{SiteFault};
ghost use Rattle.laws_waits.specs.Hands.{IsAtHand};

use bosh_ports::Keeper;
use bosh_world::Site;

/// Where all that is open is what a worker has at hand, it is so after each step of the worker, and after several.
pub fn what_is_open_is_at_hand<K: Keeper, L: Keeper>(was: &Site<K, L>, now: &Site<K, L>)
    ensures step { (tasks : List ℕ) (worker : ℕ) (place next : Place) → IsAtHand place was.now.calls.unsettled
        → Steps K.bodies K.faults L.bodies L.faults tasks worker was.now place now.now next
        → IsAtHand next now.now.calls.unsettled }
    ensures steps { (tasks : List ℕ) (worker : ℕ) (place next : Place) → IsAtHand place was.now.calls.unsettled
        → Reaches K.bodies K.faults L.bodies L.faults tasks worker was.now place now.now next
        → IsAtHand next now.now.calls.unsettled }
{}

/// No call is open between commands: where none was open before tasks were carried, none is after them, whatever `drive`
/// answers, unless the site has halted.
pub fn no_call_is_open_between_commands<K: Keeper, L: Keeper>(was: &Site<K, L>, now: &Site<K, L>)
    ensures { (tasks : List ℕ) (worker : ℕ) (result : Result (Unit {0}) SiteFault) → was.now.calls.unsettled ≡ []
        → Carries K.bodies K.faults L.bodies L.faults tasks worker was.now result now.now
        → now.now.history.is_halted ≡ false → now.now.calls.unsettled ≡ [] }
{}
