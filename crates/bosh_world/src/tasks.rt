ghost use Rattle.std.specs.Prelude.{◌≡◌, ◌≤◌, [], false, IfErr, IfOk};
ghost use Rattle.bosh_base.specs.History.{Extends};
ghost use Rattle.bosh_book.specs.Faults.{IsClaimFault, IsEndFault, IsOpenFault};
ghost use Rattle.bosh_world.specs.Pending.{IsClaimed, IsClosing, IsOpening, Pends};
ghost use Rattle.bosh_world.specs.Refuses.{IsBooks, RefusesClaim, Refuses};
ghost use Rattle.bosh_world.specs.Steps.{Claims, EndsTask, OpensTask, calls_claimed};
ghost use Rattle.bosh_world.specs.Silent.{IsSilent, moves_of};
ghost use Rattle.bosh_world.specs.Told.{IsGiven};

use crate::halting::told;
use crate::{Site, SiteFault};
use bosh_base::TaskEnd;
use bosh_book::{Ask, BookFault, Claim};
use bosh_calls::Calls;
use bosh_ports::Keeper;

impl<K: Keeper, L: Keeper> Site<K, L> {
    /// Opens the task that does what is asked, and answers its number.
    #[tactic(auto, using(crate::proofs::PendLemmas::pends_still))]
    pub fn begin_task(&mut self, ask: &Ask) -> Result<u64, SiteFault>
        ensures opens { IfOk result (λ task. OpensTask K.bodies K.faults self.old ask.now task self.new) }
        ensures calls { self.new.calls ≡ self.old.calls }
        ensures refused { IfErr result (λ fault. Refuses K.bodies K.faults self.old [] fault self.new) }
        ensures fault { IfErr result (IsBooks (IsOpenFault self.old.book ask.now)) }
        ensures pending { Pends self.old (IsOpening self.old.book ask.now) self.new }
        ensures grows { Extends (moves_of self.old) (moves_of self.new) }
        ensures silent { IsSilent self.old self.new }
    {
        self.check_running()?;
        let task = self.book.begin_task(ask);
        told(
            &mut self.history,
            self.alloc,
            self.book.entries(),
            self.cloud.effects(),
            self.book.sprung(),
            task,
        )
    }

    /// Claims work of a task for a worker: what the rules ask for on the way is noted. A task that is not recorded is
    /// over.
    #[tactic(auto, using(crate::proofs::PendLemmas::pends_still))]
    pub fn claim(&mut self, task: u64, worker: u8) -> Result<Claim, SiteFault>
        ensures claims { IfOk result (λ claim. Claims K.bodies K.faults self.old task worker claim self.new) }
        ensures calls { self.new.calls.unsettled ≡ calls_claimed result self.old.calls.unsettled }
        ensures performable { IfOk result (IsGiven self.new) }
        ensures refused { IfErr result (λ fault. RefusesClaim K.bodies K.faults task worker self.old fault self.new) }
        ensures fault { IfErr result (IsBooks (IsClaimFault self.old.book self.new.book)) }
        ensures pending { Pends self.old (IsClaimed K.bodies K.faults task worker self.old self.new) self.new }
        ensures grows { Extends (moves_of self.old) (moves_of self.new) }
        ensures silent { IsSilent self.old self.new }
    {
        self.check_running()?;
        self.calls.reserve()?;
        self.claim_reserved(task, worker)
    }

    // The same where a place is kept for the call that may begin.
    fn claim_reserved(&mut self, task: u64, worker: u8) -> Result<Claim, SiteFault>
        requires running { self.old.history.is_halted ≡ false }
        requires free { 1 ≤ self.old.calls.free }
        ensures claims { IfOk result (λ claim. Claims K.bodies K.faults self.old task worker claim self.new) }
        ensures calls { self.new.calls.unsettled ≡ calls_claimed result self.old.calls.unsettled }
        ensures performable { IfOk result (IsGiven self.new) }
        ensures refused { IfErr result (λ fault. RefusesClaim K.bodies K.faults task worker self.old fault self.new) }
        ensures fault { IfErr result (IsBooks (IsClaimFault self.old.book self.new.book)) }
        ensures pending { Pends self.old (IsClaimed K.bodies K.faults task worker self.old self.new) self.new }
        ensures grows { Extends (moves_of self.old) (moves_of self.new) }
        ensures silent { IsSilent self.old self.new }
    {
        let claimed = self.book.claim(task, worker);
        begin_given(&mut self.calls, &claimed);
        told(
            &mut self.history,
            self.alloc,
            self.book.entries(),
            self.cloud.effects(),
            self.book.sprung(),
            claimed,
        )
    }

    /// Ends a task of which nothing is left, and answers how it ended; one that has ended is only told. A task that has
    /// something left, or that is not recorded, is left to those that work on it.
    #[tactic(auto, using(crate::proofs::PendLemmas::pends_still))]
    pub fn end_task(&mut self, task: u64) -> Result<TaskEnd, SiteFault>
        ensures ends { IfOk result (λ end. EndsTask K.bodies K.faults self.old task end self.new) }
        ensures calls { self.new.calls ≡ self.old.calls }
        ensures refused { IfErr result (λ fault. Refuses K.bodies K.faults self.old [] fault self.new) }
        ensures fault { IfErr result (IsBooks (IsEndFault self.old.book task)) }
        ensures pending { Pends self.old (IsClosing self.old.book.records task) self.new }
        ensures grows { Extends (moves_of self.old) (moves_of self.new) }
        ensures silent { IsSilent self.old self.new }
    {
        self.check_running()?;
        let end = self.book.end_task(task);
        told(
            &mut self.history,
            self.alloc,
            self.book.entries(),
            self.cloud.effects(),
            self.book.sprung(),
            end,
        )
    }
}

// The call that was given is open from now on.
fn begin_given(calls: &mut Calls, claimed: &Result<Claim, BookFault>)
    requires { 1 ≤ calls.old.free }
    ensures { calls.new.unsettled ≡ calls_claimed claimed.now calls.old.unsettled }
{
    if let Ok(Claim::Work(permit)) = claimed {
        calls.begin(permit.n());
    }
}
