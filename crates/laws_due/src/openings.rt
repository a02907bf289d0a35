//! Tasks that open.
ghost use Rattle.std.specs.Prelude.{IfErr, IfOk, Result, [], ℕ};
ghost use Rattle.bosh_asks.specs.declared.ask.Ask.{Ask};
ghost use Rattle.bosh_book.specs.Faults.{IsOpenFault};
ghost use Rattle.bosh_due.specs.UnderWay.{UnderWay};
ghost use Rattle.bosh_history.specs.Fit.{IsFit};
ghost use Rattle.bosh_history.specs.Moments.{Opening};
ghost use Rattle.bosh_history.specs.Notes.{Outside};
ghost use Rattle.bosh_world.specs.Pending.{IsOpening, Pends};
ghost use Rattle.bosh_world.specs.Refuses.{IsBooks, Refuses};
ghost use Rattle.bosh_world.specs.Steps.{OpensTask};
ghost use Rattle.bosh_world.specs.declared.fault.SiteFault.{SiteFault};
ghost use Rattle.laws_due.specs.Asked.{ComesOfAsk};
ghost use Rattle.laws_due.specs.Counted.{CountsNoted};
ghost use Rattle.laws_due.specs.Opened.{IsOpened, came_of};
ghost use Rattle.laws_sites.specs.Good.{IsGood};

use bosh_ports::Keeper;
use bosh_world::Site;

/// A good site that is to open a task for what is asked opens the one that is due, with its number, its goal and what it
/// changes and deletes; or tells the first cause in order for which none opens; or it has halted, or halts in it. Its book has
/// counted what its history tells.
pub fn an_opening_is_answered_as_it_is_due<K: Keeper, L: Keeper>(was: &Site<K, L>, now: &Site<K, L>)
    ensures { (outside : Outside) (o : Opening) (under : UnderWay) (ask : Ask) (result : Result ℕ SiteFault)
        → IsFit outside o → IsGood outside K.bodies L.bodies o was.now → CountsNoted was.now
        → IfOk result (λ task. OpensTask K.bodies K.faults was.now ask task now.now)
        → IfErr result (λ fault. Refuses K.bodies K.faults was.now [] fault now.now)
        → IfErr result (IsBooks (IsOpenFault was.now.book ask)) → Pends was.now (IsOpening was.now.book ask) now.now
        → IsOpened (λ b outcome. ComesOfAsk b ask outcome) o under was.now (came_of result) now.now }
{}
