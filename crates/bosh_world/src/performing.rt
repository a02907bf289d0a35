ghost use Rattle.std.specs.Prelude.{◌≡◌, [], false, IfErr, IfOk, None, OnOk};
ghost use Rattle.bosh_asks.specs.declared.fault.BookFault.TheVariants as book;
ghost use Rattle.bosh_base.specs.Call.{method_of};
ghost use Rattle.bosh_base.specs.History.{Extends};
ghost use Rattle.bosh_cloud.specs.Performs.{answer_under, fate_of};
ghost use Rattle.bosh_world.specs.Holds.{IsHeld};
ghost use Rattle.bosh_world.specs.Performing.{Holds, IsAsked, Performs, RefusesToPerform, traps_by};
ghost use Rattle.bosh_world.specs.Told.{IsPerformable};
ghost use Rattle.bosh_world.specs.Steps.{Comes, IsAllTold, KeepsBooks};
ghost use Rattle.bosh_traps.specs.Traps.{decision};
ghost use Rattle.bosh_world.specs.declared.fault.SiteFault.TheVariants.{Book};
ghost use Rattle.bosh_world.specs.Silent.{IsSilent, moves_of};

use crate::halting::refused_by_cloud;
use crate::{HeldCall, Site, SiteFault};
use bosh_base::{Answer, Did, Move};
use bosh_book::{BookFault, Permit};
use bosh_cloud::CloudFault;
use bosh_ports::Keeper;
use bosh_traps::{Armed, decided, see};

impl<K: Keeper, L: Keeper> Site<K, L> {
    /// Performs the call of a permit, unless a trap stops the director in it. A refusal gives the permit back. One that
    /// is not current, or whose call was performed, is refused as `Locked`.
    pub fn perform(&mut self, permit: Permit) -> Result<HeldCall, (Permit, SiteFault)>
        ensures performable { OnOk result (IsPerformable self.old permit) }
        ensures performed { IfOk result (λ call. (call.permit ≡ permit)
            × Performs L.bodies L.faults self.old permit call.answer self.new) }
        ensures refused { IfErr result (λ back. (back.0 ≡ permit)
            × RefusesToPerform L.bodies L.faults self.old permit back.1 self.new) }
        ensures held { IfOk result (IsHeld self.new) }
        ensures grows { Extends (moves_of self.old) (moves_of self.new) }
        ensures silent { IsSilent self.old self.new }
    {
        match self.check_performable(&permit) {
            Ok(()) => self.perform_or_stop(permit),
            Err(fault) => Err((permit, fault)),
        }
    }

    // That the call of a permit can be performed now, and there is a place for the move.
    fn check_performable(&mut self, permit: &Permit) -> Result<(), SiteFault>
        ensures ok { OnOk result (IsPerformable self.old permit.now × IsAllTold self.new) }
        ensures running { OnOk result (self.old.history.is_halted ≡ false) }
        ensures comes { OnOk result (Comes self.old [] self.new × KeepsBooks self.old self.new) }
        ensures refused { IfErr result (λ fault.
            RefusesToPerform L.bodies L.faults self.old permit.now fault self.new) }
        ensures grows { Extends (moves_of self.old) (moves_of self.new) }
        ensures silent { IsSilent self.old self.new }
    {
        self.check_running()?;
        if !self.is_current(permit) {
            return Err(not_current(permit));
        }
        self.tell()
    }

    fn perform_or_stop(&mut self, permit: Permit) -> Result<HeldCall, (Permit, SiteFault)>
        requires running { self.old.history.is_halted ≡ false }
        requires told { IsAllTold self.old }
        requires performable { IsPerformable self.old permit }
        ensures performed { IfOk result (λ call. (call.permit ≡ permit)
            × Performs L.bodies L.faults self.old permit call.answer self.new) }
        ensures refused { IfErr result (λ back. (back.0 ≡ permit)
            × RefusesToPerform L.bodies L.faults self.old permit back.1 self.new) }
        ensures held { IfOk result (IsHeld self.new) }
        ensures grows { Extends (moves_of self.old) (moves_of self.new) }
        ensures silent { IsSilent self.old self.new }
    {
        match decided(&self.traps, permit.call().method(), permit.owner()) {
            None => self.perform_now(permit),
            Some(firing) => {
                let fault = self.stop_in(&permit, firing);
                Err((permit, fault))
            }
        }
    }

    fn perform_now(&mut self, permit: Permit) -> Result<HeldCall, (Permit, SiteFault)>
        requires running { self.old.history.is_halted ≡ false }
        requires told { IsAllTold self.old }
        requires performable { IsPerformable self.old permit }
        requires unstopped { decision (method_of permit.call) permit.owner self.old.traps.items ≡ None }
        ensures performed { IfOk result (λ call. (call.permit ≡ permit)
            × Performs L.bodies L.faults self.old permit call.answer self.new) }
        ensures refused { IfErr result (λ back. (back.0 ≡ permit)
            × RefusesToPerform L.bodies L.faults self.old permit back.1 self.new) }
        ensures held { IfOk result (IsHeld self.new) }
        ensures grows { Extends (moves_of self.old) (moves_of self.new) }
        ensures silent { IsSilent self.old self.new }
    {
        match self.ask_cloud(&permit) {
            Ok((did, answer)) => {
                self.hold(&permit, did);
                Ok(HeldCall { permit, answer })
            }
            Err(fault) => Err((permit, fault)),
        }
    }

    // What the cloud answers, and how that is told: the answer is foreseen, so that there is memory for both before anything
    // is done. Where its store fails the site halts.
    fn ask_cloud(&mut self, permit: &Permit) -> Result<(Did, Answer), SiteFault>
        requires running { self.old.history.is_halted ≡ false }
        requires unstopped { decision (method_of permit.now.call) permit.now.owner self.old.traps.items ≡ None }
        ensures asked { IfOk result (λ it. IsAsked L.bodies L.faults self.old permit.now it.0 it.1 self.new) }
        ensures refused { IfErr result (λ fault.
            RefusesToPerform L.bodies L.faults self.old permit.now fault self.new) }
        ensures grows { Extends (moves_of self.old) (moves_of self.new) }
        ensures silent { IsSilent self.old self.new }
    {
        match self.cloud.foresee(permit.owner(), permit.call()) {
            Ok(answer) => self.ask_foreseen(permit, answer),
            Err(_) => Err(SiteFault::Memory),
        }
    }

    fn ask_foreseen(
        &mut self,
        permit: &Permit,
        foreseen: Answer,
    ) -> Result<(Did, Answer), SiteFault>
        requires running { self.old.history.is_halted ≡ false }
        requires unstopped { decision (method_of permit.now.call) permit.now.owner self.old.traps.items ≡ None }
        requires foreseen { foreseen
            ≡ answer_under (fate_of self.old.cloud permit.now.owner permit.now.call) self.old.cloud.effects permit.now.call }
        ensures asked { IfOk result (λ it. IsAsked L.bodies L.faults self.old permit.now it.0 it.1 self.new) }
        ensures refused { IfErr result (λ fault.
            RefusesToPerform L.bodies L.faults self.old permit.now fault self.new) }
        ensures grows { Extends (moves_of self.old) (moves_of self.new) }
        ensures silent { IsSilent self.old self.new }
    {
        let before = self.cloud.effects().len();
        match self
            .cloud
            .perform(permit.n(), permit.owner(), permit.dep(), permit.call())
        {
            Ok(answer) => {
                let effect = before < self.cloud.effects().len();
                let did = Did {
                    n: permit.n(),
                    effect,
                    answer: foreseen,
                };
                Ok((did, answer))
            }
            Err(fault) => {
                drop(foreseen);
                see_refused(&mut self.traps, permit, &fault);
                Err(refused_by_cloud(
                    &mut self.history,
                    self.alloc,
                    self.book.entries(),
                    self.cloud.effects(),
                    fault,
                ))
            }
        }
    }

    // A call was answered: the traps see it, and the answer is told as a move.
    fn hold(&mut self, permit: &Permit, did: Did)
        requires told { IsAllTold self.old }
        ensures holds { Holds self.old permit.now did self.new }
        ensures grows { Extends (moves_of self.old) (moves_of self.new) }
        ensures silent { IsSilent self.old self.new }
    {
        see(&mut self.traps, permit.call().method(), permit.owner());
        let effects = self.cloud.effects().len();
        let place = self.history.push_with(Move::Did(did), effects);
        self.calls.perform(permit.n(), place);
    }
}

// The traps see a call that the cloud refused, but for want of memory.
fn see_refused(traps: &mut Vec<Armed>, permit: &Permit, fault: &CloudFault)
    ensures { traps.new.items ≡ traps_by fault.now (method_of permit.now.call) permit.now.owner traps.old.items }
{
    match fault {
        CloudFault::Memory => {}
        _ => see(traps, permit.call().method(), permit.owner()),
    }
}

/// That the call of a permit is not open, or was performed.
pub(crate) fn not_current(permit: &Permit) -> SiteFault
    ensures { result ≡ Book (book.Locked permit.now.task) }
{
    SiteFault::Book(BookFault::Locked {
        task: permit.task(),
    })
}
