ghost use Rattle.std.specs.Prelude.{◌≡◌, [], ◌∷◌, false, IfErr, None, OnOk};
ghost use Rattle.bosh_base.specs.History.{Extends};
ghost use Rattle.bosh_base.specs.declared.entry.Entry.TheVariants as entries;
ghost use Rattle.bosh_book.specs.Faults.{MayEnd};
ghost use Rattle.bosh_world.specs.Holds.{IsHeld};
ghost use Rattle.bosh_world.specs.Pending.{IsAllowed, Pends};
ghost use Rattle.bosh_world.specs.Refuses.{IsUnheld, Refuses};
ghost use Rattle.bosh_world.specs.Steps.{Notes, calls_settled};
ghost use Rattle.bosh_world.specs.Silent.{IsSilent, moves_of};

use crate::halting::refused;
use crate::performing::not_current;
use crate::{HeldCall, Site, SiteFault};
use bosh_ports::Keeper;

impl<K: Keeper, L: Keeper> Site<K, L> {
    /// Notes the answer of a call. A refusal gives the call back. One that was not performed with this answer, or is not
    /// open, is refused as `Locked`.
    #[tactic(auto, using(crate::proofs::PendLemmas::pends_still))]
    pub fn settle(&mut self, call: HeldCall) -> Result<(), (HeldCall, SiteFault)>
        ensures held { OnOk result (IsHeld self.old call) }
        ensures may_end { OnOk result (MayEnd self.old.book call.permit call.answer) }
        ensures settled { OnOk result (Notes K.bodies K.faults self.old
            (entries.End (record { n = call.permit.n; answer = call.answer }) ∷ []) None self.new) }
        ensures calls { self.new.calls.unsettled ≡ calls_settled result call.permit.n self.old.calls.unsettled }
        ensures refused { IfErr result (λ back. (back.0 ≡ call)
            × Refuses K.bodies K.faults self.old [] back.1 self.new) }
        ensures fault { IfErr result (λ back. IsUnheld self.old call back.1) }
        ensures pending { Pends self.old
            (IsAllowed (MayEnd self.old.book call.permit call.answer)
            (entries.End (record { n = call.permit.n; answer = call.answer }))) self.new }
        ensures grows { Extends (moves_of self.old) (moves_of self.new) }
        ensures silent { IsSilent self.old self.new }
    {
        match self.check_held(&call) {
            Ok(()) => self.settle_held(call),
            Err(fault) => Err((call, fault)),
        }
    }

    fn check_held(&self, call: &HeldCall) -> Result<(), SiteFault>
        ensures held { OnOk result (IsHeld self.now call.now) }
        ensures running { OnOk result (self.now.history.is_halted ≡ false) }
        ensures refused { IfErr result (λ fault. Refuses K.bodies K.faults self.now [] fault self.now) }
        ensures fault { IfErr result (λ fault. IsUnheld self.now call.now fault) }
    {
        self.check_running()?;
        if !self.is_held(call) {
            return Err(not_current(call.permit()));
        }
        Ok(())
    }

    fn settle_held(&mut self, call: HeldCall) -> Result<(), (HeldCall, SiteFault)>
        requires running { self.old.history.is_halted ≡ false }
        requires held { IsHeld self.old call }
        ensures may_end { OnOk result (MayEnd self.old.book call.permit call.answer) }
        ensures settled { OnOk result (Notes K.bodies K.faults self.old
            (entries.End (record { n = call.permit.n; answer = call.answer }) ∷ []) None self.new) }
        ensures calls { self.new.calls.unsettled ≡ calls_settled result call.permit.n self.old.calls.unsettled }
        ensures refused { IfErr result (λ back. (back.0 ≡ call)
            × Refuses K.bodies K.faults self.old [] back.1 self.new) }
        ensures fault { IfErr result (λ back. IsUnheld self.old call back.1) }
        ensures pending { Pends self.old
            (IsAllowed (MayEnd self.old.book call.permit call.answer)
            (entries.End (record { n = call.permit.n; answer = call.answer }))) self.new }
        ensures grows { Extends (moves_of self.old) (moves_of self.new) }
        ensures silent { IsSilent self.old self.new }
    {
        let HeldCall { permit, answer } = call;
        let n = permit.n();
        match self.book.settle(permit, answer) {
            Ok(()) => {
                self.calls.end(n);
                self.history.follow(self.alloc, self.book.entries(), self.cloud.effects(), None);
                Ok(())
            }
            Err((permit, answer, fault)) => {
                let fault = refused(
                    &mut self.history,
                    self.alloc,
                    self.book.entries(),
                    self.cloud.effects(),
                    self.book.sprung(),
                    fault,
                );
                Err((HeldCall { permit, answer }, fault))
            }
        }
    }
}
