ghost use Rattle.std.specs.Prelude.{◌≡◌, ◌≢◌, ◌⊎◌, ◌↔◌, ℕ, Contains, IfErr, IfOk, IsTrue, List, OnOk};
ghost use Rattle.bosh_asks.specs.declared.fault.BookFault.TheVariants as book;
ghost use Rattle.bosh_crew.specs.Carried.{Carries, GoesRound, IsLeft};
ghost use Rattle.bosh_crew.specs.Driven.{AreEnded, Goes, IsEnded, IsStuck};
ghost use Rattle.bosh_crew.specs.Places.{IsAt};
ghost use Rattle.bosh_crew.specs.declared.driver.Round.TheVariants.{Ended, Moved};
ghost use Rattle.bosh_crew.specs.declared.place.Place.TheVariants.{Empty};
ghost use Rattle.bosh_world.specs.Silent.{IsSilent};
ghost use Rattle.bosh_world.specs.declared.fault.SiteFault.TheVariants.{Book};

use crate::{Place, Step, advance};
use bosh_book::BookFault;
use bosh_ports::Keeper;
use bosh_records::Records;
use bosh_world::{Site, SiteFault};

/// Who makes the calls.
const WORKER: u8 = 0;

/// How a round over tasks came out.
#[derive(Clone, Copy, Debug, PartialEq, Eq)]
enum Round {
    /// Each task has its end.
    Ended,
    /// A call was made, or a task ended.
    Moved,
    /// Nothing could be done, and what is left of this task waits for calls that others have open.
    Waits(u64),
}

/// Carries tasks to their ends, by one worker that goes round them in order: at each it makes one call, or ends it. It
/// never waits: where all that is left is under calls that others have open, that is refused as `Locked`, with the last
/// task that waits.
pub fn drive<K: Keeper, L: Keeper>(site: &mut Site<K, L>, tasks: &[u64]) -> Result<(), SiteFault>
    ensures ended { OnOk result (AreEnded site.new tasks.now) }
    ensures carries { Carries K.bodies K.faults L.bodies L.faults tasks.now 0 site.old result site.new }
    ensures goes { Goes site.old site.new }
    ensures silent { IsSilent site.old site.new }
    ensures stuck { IfErr result (IsStuck site.new) }
{
    for _ in 0..u64::MAX {
        match go_round(site, tasks) {
            Ok(Round::Ended) => return Ok(()),
            Ok(Round::Moved) => {}
            Ok(Round::Waits(task)) => return Err(locked(task)),
            Err(fault) => return Err(fault),
        }
    }
    Err(SiteFault::Memory)
}

fn locked(task: u64) -> SiteFault
    ensures { result ≡ Book (book.Locked task) }
{
    SiteFault::Book(BookFault::Locked { task })
}

// Takes a step of each task that has no end.
fn go_round<K: Keeper, L: Keeper>(site: &mut Site<K, L>, tasks: &[u64]) -> Result<Round, SiteFault>
    ensures ended { IfOk result (λ round. round ≡ Ended → AreEnded site.new tasks.now) }
    ensures goes_round { GoesRound K.bodies K.faults L.bodies L.faults tasks.now 0 site.old Empty result site.new }
    ensures goes { Goes site.old site.new }
    ensures silent { IsSilent site.old site.new }
    ensures stuck { IfErr result (IsStuck site.new) }
{
    let mut round = Round::Ended;
    for task in tasks {
        match attend(site, round, *task) {
            Ok(now) => round = now,
            Err(fault) => return Err(fault),
        }
    }
    Ok(round)
}

// Takes a step of a task that has no end.
fn attend<K: Keeper, L: Keeper>(
    site: &mut Site<K, L>,
    round: Round,
    task: u64,
) -> Result<Round, SiteFault>
    ensures ended { IfOk result (λ now. now ≡ Ended → (round ≡ Ended)
        × (site.new.book.records ≡ site.old.book.records) × IsEnded site.old.book.records task) }
    ensures goes_round { (tasks : List ℕ) → Contains tasks task → IsLeft K.bodies K.faults tasks 0 round site.old →
        GoesRound K.bodies K.faults L.bodies L.faults tasks 0 site.old Empty result site.new }
    ensures goes { Goes site.old site.new }
    ensures silent { IsSilent site.old site.new }
    ensures stuck { IfErr result (IsStuck site.new) }
{
    if has_ended(site.book().records(), task) {
        return Ok(round);
    }
    match take_steps(site, Place::Empty, task) {
        Ok(step) => Ok(both(round, step)),
        Err(fault) => Err(fault),
    }
}

// A round in which something was done for one task goes on, and else the last that waits is told.
fn both(round: Round, step: Round) -> Round
    requires { step ≢ Ended }
    ensures going { result ≢ Ended }
    ensures last { (result ≡ Moved) ⊎ (result ≡ step) }
{
    match (round, step) {
        (Round::Moved, _) => Round::Moved,
        (_, step) => step,
    }
}

fn has_ended(records: &Records, task: u64) -> bool
    ensures { IsTrue result ↔ IsEnded records.now task }
{
    match records.task(task) {
        Some(row) => row.end.is_some(),
        None => false,
    }
}

// Makes the next call of a task, or ends it: steps are taken until nothing is at hand.
fn take_steps<K: Keeper, L: Keeper>(
    site: &mut Site<K, L>,
    place: Place,
    task: u64,
) -> Result<Round, SiteFault>
    requires { IsAt site.old place }
    ensures moved { IfOk result (λ round. round ≢ Ended) }
    ensures goes_round { (tasks : List ℕ) → Contains tasks task →
        GoesRound K.bodies K.faults L.bodies L.faults tasks 0 site.old place result site.new }
    ensures goes { Goes site.old site.new }
    ensures silent { IsSilent site.old site.new }
    ensures stuck { IfErr result (IsStuck site.new) }
{
    match advance(site, place, task, WORKER) {
        Ok(Step::Moved(Place::Empty)) => Ok(Round::Moved),
        Ok(Step::Moved(place)) => take_steps(site, place, task),
        Ok(Step::Waits) => Ok(Round::Waits(task)),
        Err(fault) => Err(fault),
    }
}
