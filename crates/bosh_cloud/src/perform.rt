ghost use Rattle.std.specs.Prelude.{◌≡◌, false, IfErr, IfOk, None, Some};
ghost use Rattle.bosh_agent.specs.Compiled.{compiled_digest};
ghost use Rattle.bosh_base.specs.Call.{method_of};
ghost use Rattle.bosh_base.specs.CallStep.{CallStep};
ghost use Rattle.bosh_cloud.specs.Notes.{Does, SameFates};
ghost use Rattle.bosh_cloud.specs.Performs.{new_effects, effects_if, answer_under, fate_of, has_effect, lacked_memory, MeetsFates, Spends};
ghost use Rattle.bosh_cloud.specs.declared.fault.CloudFault.TheVariants.{Memory};

use crate::{CloudFault, SimCloud};
use bosh_base::{Answer, Call, Method, Name, Owner};
use bosh_fates::{Fate, come_nearer, decided, met};
use bosh_inventory::changes_by;
use bosh_ports::Keeper;

impl<L: Keeper> SimCloud<L> {
    /// Performs call number `n`, which the director makes for this owner and in the deployment of the task. What
    /// changes the cloud is in its store before the call is answered. A call that a fate fires on is answered `Failed`.
    /// A store that fails in the call is told as `StoreFault`, and then each call is answered `Broken` until the cloud
    /// is reloaded. For want of memory nothing changes, and no fate comes nearer.
    pub fn perform(
        &mut self,
        n: u64,
        owner: &Owner,
        dep: &Name,
        call: &Call,
    ) -> Result<Answer, CloudFault>
        ensures answer { IfOk result (λ answer.
            answer ≡ answer_under (fate_of self.old owner.now call.now) self.old.effects call.now) }
        ensures step { IfOk result (λ answer.
            CallStep compiled_digest self.old.effects call.now
            (has_effect (fate_of self.old owner.now call.now) self.old.effects call.now) answer) }
        ensures does { Does L.bodies L.faults result self.old
            (new_effects self.old (record { n = n; owner = owner.now; dep = dep.now; call = call.now })) self.new }
        ensures fates { MeetsFates result (method_of call.now) owner.now self.old self.new }
    {
        if self.is_stale {
            return Err(CloudFault::Broken);
        }
        let method = call.method();
        let fate = decided(&self.dooms, method, owner);
        let answer = self.perform_under(fate, n, owner, dep, call);
        if !lacked_memory(&answer) {
            self.spend_fates(method, owner);
        }
        answer
    }

    /// What a call would be answered now, with nothing done: `perform` answers the same.
    pub fn foresee(&self, owner: &Owner, call: &Call) -> Result<Answer, CloudFault>
        ensures answer { IfOk result (λ answer.
            answer ≡ answer_under (fate_of self.now owner.now call.now) self.now.effects call.now) }
        ensures memory { IfErr result (λ fault. fault ≡ Memory) }
    {
        match decided(&self.dooms, call.method(), owner) {
            None => Ok(self.inventory.answer(self.alloc, call)?),
            Some(_) => Ok(Answer::Failed),
        }
    }

    fn spend_fates(&mut self, method: Method, owner: &Owner)
        ensures spends { Spends method owner.now self.old self.new }
        ensures store { self.new.store ≡ self.old.store }
        ensures effects { self.new.effects ≡ self.old.effects }
        ensures whole { self.new.is_stale ≡ self.old.is_stale }
        ensures pending { self.new.pending ≡ self.old.pending }
    {
        let met = met(&self.dooms, method, owner) as u64;
        self.fired = self.fired.saturating_add(met);
        come_nearer(&mut self.dooms, method, owner);
    }

    fn perform_under(
        &mut self,
        fate: Option<Fate>,
        n: u64,
        owner: &Owner,
        dep: &Name,
        call: &Call,
    ) -> Result<Answer, CloudFault>
        requires { self.old.is_stale ≡ false }
        ensures answer { IfOk result (λ answer. answer ≡ answer_under fate self.old.effects call.now) }
        ensures does { Does L.bodies L.faults result self.old
            (effects_if (has_effect fate self.old.effects call.now)
            (record { n = n; owner = owner.now; dep = dep.now; call = call.now })) self.new }
        ensures fates { SameFates self.old self.new }
    {
        match fate {
            None => self.perform_whole(n, owner, dep, call),
            Some(Fate::Late) => self.fail_late(n, owner, dep, call),
            Some(Fate::Lose) => Ok(Answer::Failed),
        }
    }

    /// Fails after its effect.
    fn fail_late(
        &mut self,
        n: u64,
        owner: &Owner,
        dep: &Name,
        call: &Call,
    ) -> Result<Answer, CloudFault>
        requires { self.old.is_stale ≡ false }
        ensures answer { IfOk result (λ answer. answer ≡ Answer.Failed) }
        ensures does { Does L.bodies L.faults result self.old
            (effects_if (has_effect (Some Fate.Late) self.old.effects call.now)
            (record { n = n; owner = owner.now; dep = dep.now; call = call.now })) self.new }
        ensures fates { SameFates self.old self.new }
    {
        drop(self.perform_whole(n, owner, dep, call)?);
        Ok(Answer::Failed)
    }

    /// No fate fires.
    // Dear to prove: the answer is alive where the effect may not be stored.
    fn perform_whole(
        &mut self,
        n: u64,
        owner: &Owner,
        dep: &Name,
        call: &Call,
    ) -> Result<Answer, CloudFault>
        requires { self.old.is_stale ≡ false }
        ensures answer { IfOk result (λ answer. answer ≡ answer_under None self.old.effects call.now) }
        ensures does { Does L.bodies L.faults result self.old
            (effects_if (has_effect None self.old.effects call.now)
            (record { n = n; owner = owner.now; dep = dep.now; call = call.now })) self.new }
        ensures fates { SameFates self.old self.new }
    {
        let answer = self.inventory.answer(self.alloc, call)?;
        if changes_by(call, &answer) {
            self.note_effect(n, owner, dep, call)?;
        }
        Ok(answer)
    }
}

fn lacked_memory(answer: &Result<Answer, CloudFault>) -> bool
    ensures { result ≡ lacked_memory answer.now }
{
    matches!(answer, Err(CloudFault::Memory))
}
