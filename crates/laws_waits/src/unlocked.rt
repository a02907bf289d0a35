//! That tasks are never found locked.
ghost use Rattle.std.specs.Prelude.{All, Err, List, [], ◌≡◌, ℕ};
ghost use Rattle.bosh_agent.specs.Compiled.{compiled_digest};
ghost use Rattle.bosh_asks.specs.declared.fault.BookFault.TheVariants as book;
ghost use Rattle.bosh_crew.specs.Carried.{Carries};
ghost use Rattle.bosh_history.specs.Fit.{IsFit};
ghost use Rattle.bosh_history.specs.Moments.{Opening};
ghost use Rattle.bosh_history.specs.Notes.{Outside};
ghost use Rattle.bosh_world.specs.declared.fault.SiteFault.TheVariants.{Book};
ghost use Rattle.laws_sites.specs.Good.{IsGood};
ghost use Rattle.laws_waits.specs.Opened.{IsOpened};

use bosh_ports::Keeper;
use bosh_world::Site;

/// A command never finds a task locked: where no call is open on a good site, as between commands, `drive` never answers
/// `Locked` for tasks that were opened.
pub fn a_command_never_finds_a_task_locked<K: Keeper, L: Keeper>(was: &Site<K, L>, now: &Site<K, L>)
    ensures { (outside : Outside) (o : Opening) (tasks : List ℕ) (worker task : ℕ) → IsFit outside o
        → outside.built ≡ compiled_digest → IsGood outside K.bodies L.bodies o was.now
        → was.now.calls.unsettled ≡ [] → All (IsOpened was.now.book.records) tasks
        → ¬ Carries K.bodies K.faults L.bodies L.faults tasks worker was.now (Err (Book (book.Locked task))) now.now }
{}
