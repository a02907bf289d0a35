ghost use Rattle.std.specs.Prelude.{ℕ, IfErr, IfOk};
ghost use Rattle.bosh_crew.specs.Carried.{Advances, Ends};
ghost use Rattle.bosh_crew.specs.Driven.{Goes, IsStuck};
ghost use Rattle.bosh_crew.specs.Places.{IsAt, IsAtAfter};
ghost use Rattle.bosh_crew.specs.declared.place.Place.TheVariants.{Empty, Granted, Held};
ghost use Rattle.bosh_world.specs.Holds.{IsHeld};
ghost use Rattle.bosh_world.specs.Silent.{IsSilent};
ghost use Rattle.bosh_world.specs.Told.{IsPerformable};

use crate::Place;
use bosh_book::{Claim, Permit};
use bosh_ports::Keeper;
use bosh_world::{HeldCall, Site, SiteFault};

/// What came of a step of a worker.
pub enum Step {
    /// Something was done, and this is at hand now.
    Moved(Place),
    /// Nothing could be done: what is left of the task waits for calls that others have open.
    Waits,
}

/// Takes a worker's next step for a task. With nothing at hand it claims work, or ends a task of which nothing is left;
/// else it performs the call that it was given, or settles the one that was performed. Where a call is refused, it is given
/// up.
pub fn advance<K: Keeper, L: Keeper>(
    site: &mut Site<K, L>,
    place: Place,
    task: u64,
    worker: u8,
) -> Result<Step, SiteFault>
    requires { IsAt site.old place }
    ensures advances { Advances K.bodies K.faults L.bodies L.faults task worker site.old place result site.new }
    ensures at { IfOk result (IsAtAfter site.new) }
    ensures goes { Goes site.old site.new }
    ensures silent { IsSilent site.old site.new }
    ensures stuck { IfErr result (IsStuck site.new) }
{
    match place {
        Place::Empty => claim(site, task, worker),
        Place::Granted(permit) => perform(site, permit),
        Place::Held(call) => settle(site, call),
    }
}

// Claims work of a task, or ends it.
fn claim<K: Keeper, L: Keeper>(
    site: &mut Site<K, L>,
    task: u64,
    worker: u8,
) -> Result<Step, SiteFault>
    ensures advances { Advances K.bodies K.faults L.bodies L.faults task worker site.old Empty result site.new }
    ensures at { IfOk result (IsAtAfter site.new) }
    ensures goes { Goes site.old site.new }
    ensures silent { IsSilent site.old site.new }
    ensures stuck { IfErr result (IsStuck site.new) }
{
    match site.claim(task, worker) {
        Ok(Claim::Work(permit)) => Ok(Step::Moved(Place::Granted(permit))),
        Ok(Claim::Over) => end(site, task),
        Ok(Claim::Wait) => Ok(Step::Waits),
        Err(fault) => Err(fault),
    }
}

fn end<K: Keeper, L: Keeper>(site: &mut Site<K, L>, task: u64) -> Result<Step, SiteFault>
    ensures ends { Ends K.bodies K.faults L.bodies L.faults task site.old result site.new }
    ensures at { IfOk result (IsAtAfter site.new) }
    ensures goes { Goes site.old site.new }
    ensures silent { IsSilent site.old site.new }
    ensures stuck { IfErr result (IsStuck site.new) }
{
    match site.end_task(task) {
        Ok(_) => Ok(Step::Moved(Place::Empty)),
        Err(fault) => Err(fault),
    }
}

// Makes the call of a permit. Where that is refused, the call is given up.
fn perform<K: Keeper, L: Keeper>(site: &mut Site<K, L>, permit: Permit) -> Result<Step, SiteFault>
    requires { IsPerformable site.old permit }
    ensures advances { (task worker : ℕ) → Advances K.bodies K.faults L.bodies L.faults
        task worker site.old (Granted permit) result site.new }
    ensures at { IfOk result (IsAtAfter site.new) }
    ensures goes { Goes site.old site.new }
    ensures silent { IsSilent site.old site.new }
    ensures stuck { IfErr result (IsStuck site.new) }
{
    match site.perform(permit) {
        Ok(call) => Ok(Step::Moved(Place::Held(call))),
        Err((permit, fault)) => {
            site.abandon(permit);
            Err(fault)
        }
    }
}

// Notes the answer of a call. Where that is refused, the call is given up.
fn settle<K: Keeper, L: Keeper>(site: &mut Site<K, L>, call: HeldCall) -> Result<Step, SiteFault>
    requires { IsHeld site.old call }
    ensures advances { (task worker : ℕ) → Advances K.bodies K.faults L.bodies L.faults
        task worker site.old (Held call) result site.new }
    ensures at { IfOk result (IsAtAfter site.new) }
    ensures goes { Goes site.old site.new }
    ensures silent { IsSilent site.old site.new }
    ensures stuck { IfErr result (IsStuck site.new) }
{
    match site.settle(call) {
        Ok(()) => Ok(Step::Moved(Place::Empty)),
        Err((call, fault)) => {
            site.abandon_held(call);
            Err(fault)
        }
    }
}
