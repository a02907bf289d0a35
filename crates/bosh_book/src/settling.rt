ghost use Rattle.std.specs.Prelude.{◌≡◌, ◌↔◌, [], ◌∷◌, Err, IfErr, IfOk, IsTrue, OnErr, OnOk, Some, true};
ghost use Rattle.std.specs.Option.{option_copied};
ghost use Rattle.bosh_asks.specs.declared.fault.BookFault.TheVariants as faults;
ghost use Rattle.bosh_base.specs.declared.entry.Entry.TheVariants as entries;
ghost use Rattle.bosh_book.specs.Adds.{Adds};
ghost use Rattle.bosh_book.specs.Appends.{LeavesAllowed};
ghost use Rattle.bosh_book.specs.Running.{is_stopped};
ghost use Rattle.bosh_book.specs.Current.{IsCurrent, IsOpenCall};
ghost use Rattle.bosh_book.specs.Faults.{FailsAs, IsSettleFault, MayEnd};
ghost use Rattle.bosh_book.specs.declared.standing.Standing.TheVariants.{Abandoned};

use crate::granted::dep_of;
use crate::standing::Standing;
use crate::{Book, Permit};
use bosh_asks::BookFault;
use bosh_base::{Answer, Copyable, End, Entry, Name, is_same};
use bosh_ports::Keeper;
use bosh_records::Records;
use std::alloc::Global;

impl<K: Keeper> Book<K> {
    /// Whether the call of a permit is open in this book. After a reload that was refused none is.
    pub fn is_current(&self, permit: &Permit) -> bool
        ensures { IsTrue result ↔ IsCurrent self.now permit.now }
    {
        self.standing.is_read() && is_open_call(&self.records, permit)
    }

    /// Notes the answer of a call. A permit that is not current, and an answer that is not of the call's kind, are handed
    /// back: no task waits for them.
    pub fn settle(
        &mut self,
        permit: Permit,
        answer: Answer,
    ) -> Result<(), (Permit, Answer, BookFault)>
        ensures ok { OnOk result (Adds K.bodies K.faults self.old
            (entries.End (record { n = permit.n; answer = answer }) ∷ []) self.new) }
        ensures may_end { OnOk result (MayEnd self.old permit answer) }
        ensures refused { OnErr result (Adds K.bodies K.faults self.old [] self.new) }
        ensures back { IfErr result (λ back. (back.0 ≡ permit) × (back.1 ≡ answer)) }
        ensures fault { IfErr result (λ back. IsSettleFault self.old permit answer back.2) }
        ensures stopped { is_stopped self.old ≡ true → IfErr result (λ back. back.2 ≡ faults.Stopped) }
        ensures whole { OnOk result (self.new.journal.is_broken ≡ self.old.journal.is_broken) }
        ensures failed { IfErr result (λ back.
            FailsAs {T = Unit {0}} K.faults (Err back.2) self.old.journal self.new.journal) }
        ensures pending { IfErr result (λ back. LeavesAllowed {T = Unit {0}} (MayEnd self.old permit answer) (Err back.2)
            (entries.End (record { n = permit.n; answer = answer })) self.new.journal) }
    {
        match self.end_call(&permit, &answer) {
            Ok(()) => {
                permit.spend();
                Ok(())
            }
            Err(fault) => Err((permit, answer, fault)),
        }
    }

    #[tactic(auto, using(crate::proofs::PendingLemmas::made_allowed, crate::proofs::PendingLemmas::quiet_allowed))]
    fn end_call(&mut self, permit: &Permit, answer: &Answer) -> Result<(), BookFault>
        ensures ok { OnOk result (Adds K.bodies K.faults self.old
            (entries.End (record { n = permit.now.n; answer = answer.now }) ∷ []) self.new) }
        ensures may_end { OnOk result (MayEnd self.old permit.now answer.now) }
        ensures refused { OnErr result (Adds K.bodies K.faults self.old [] self.new) }
        ensures fault { IfErr result (IsSettleFault self.old permit.now answer.now) }
        ensures stopped { is_stopped self.old ≡ true → IfErr result (λ fault. fault ≡ faults.Stopped) }
        ensures failed { FailsAs K.faults result self.old.journal self.new.journal }
        ensures pending { LeavesAllowed (MayEnd self.old permit.now answer.now) result
            (entries.End (record { n = permit.now.n; answer = answer.now })) self.new.journal }
    {
        self.check_running()?;
        if !self.is_current(permit) || !answer.is_kind(permit.call().method()) {
            return Err(BookFault::Locked {
                task: permit.task(),
            });
        }
        self.note_made(ended(self.alloc, permit.n(), answer))
    }

    /// Gives a call up: it stays open, and where the permit is current the book is stopped.
    pub fn abandon(&mut self, permit: Permit)
        ensures current { IsCurrent self.old permit → self.new ≡ record self.old { standing = Abandoned } }
        ensures other { (¬ IsCurrent self.old permit) → self.new ≡ self.old }
    {
        if self.is_current(&permit) {
            self.standing = Standing::Abandoned;
        }
        permit.spend();
    }
}

// Whether the call of a permit is open by the records.
fn is_open_call(records: &Records, permit: &Permit) -> bool
    ensures { IsTrue result ↔ IsOpenCall records.now permit.now }
{
    match records.call(permit.n()) {
        Some(begin) => permit.is_begun(begin) && is_of(dep_of(records, &begin.owner), permit.dep()),
        None => false,
    }
}

fn is_of(found: Option<&Name>, dep: &Name) -> bool
    ensures { IsTrue result ↔ (option_copied found.entry ≡ Some dep.now) }
{
    match found {
        Some(name) => is_same(name, dep),
        None => false,
    }
}

// The entry by which a call ends with an answer.
fn ended(alloc: Global, n: u64, answer: &Answer) -> Result<(Entry, ()), BookFault>
    ensures entry { IfOk result (λ it. it.0 ≡ entries.End (record { n = n; answer = answer.now })) }
    ensures memory { IfErr result (λ fault. fault ≡ faults.Memory) }
{
    match answer.copy(alloc) {
        Ok(answer) => Ok((Entry::End(End { n, answer }), ())),
        Err(_) => Err(BookFault::Memory),
    }
}
