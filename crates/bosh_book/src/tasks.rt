ghost use Rattle.std.specs.Prelude.{◌≡◌, [], ◌∷◌, IfErr, IfOk, None, OnErr, OnOk, Some, Err, false, is_some, option_map, true};
ghost use Rattle.std.specs.Option.{option_copied};
ghost use Rattle.bosh_asks.specs.declared.fault.BookFault.TheVariants as faults;
ghost use Rattle.bosh_base.specs.declared.entry.Entry.TheVariants as entries;
ghost use Rattle.bosh_book.specs.Adds.{Adds};
ghost use Rattle.bosh_book.specs.Claims.{Begins, Claims, ClaimsPending, RefusesClaim, TakesOn, Turn};
ghost use Rattle.bosh_book.specs.Current.{IsFor, dep_of, permit_of};
ghost use Rattle.bosh_book.specs.Faults.{FailsAs, IsClaimFault, IsNoteFault, IsOpenFault, IsQuiet, IsTurnFault};
ghost use Rattle.bosh_book.specs.Made.{Noted};
ghost use Rattle.bosh_book.specs.Opens.{IsOpeningOf, OpensTask, OpensPending};
ghost use Rattle.bosh_book.specs.Running.{is_full, is_stopped};
ghost use Rattle.bosh_book.specs.Turns.{IsUpdate, Notes, some};
ghost use Rattle.bosh_book.specs.declared.claim.Claim.TheVariants as claims;
ghost use Rattle.bosh_claim.specs.Choice.{choice_of};

use crate::granted::{Granted, dep_of};
use crate::made::Made;
use crate::{Book, Claim, Permit};
use bosh_asks::{Ask, BookFault, opening};
use bosh_base::{Begin, CopyFault, Entry, TaskOpen};
use bosh_claim::{Choice, choose};
use bosh_ports::Keeper;

impl<K: Keeper> Book<K> {
    /// Opens the task that does what is asked, and answers its number.
    #[tactic(auto, using(crate::proofs::FaultLemmas::notes_open, crate::proofs::FaultLemmas::fails_quietly, crate::proofs::PendingLemmas::opens_pending, crate::proofs::PendingLemmas::opens_nothing))]
    pub fn begin_task(&mut self, ask: &Ask) -> Result<u64, BookFault>
        ensures opens { IfOk result (λ task. OpensTask K.bodies K.faults self.old ask.now task self.new) }
        ensures refused { OnErr result (Adds K.bodies K.faults self.old [] self.new) }
        ensures failed { FailsAs K.faults result self.old.journal self.new.journal }
        ensures pending { IfErr result (OpensPending self.old ask.now self.new.journal) }
        ensures fault { IfErr result (IsOpenFault self.old ask.now) }
        ensures stopped { is_stopped self.old ≡ true → result ≡ Err faults.Stopped }
        ensures room { OnOk result (is_full self.old ≡ false) }
    {
        let opening = self.opened(ask)?;
        self.open(opening)
    }

    #[tactic(auto, using(crate::proofs::FaultLemmas::opens_full, crate::proofs::FaultLemmas::refuses_open, crate::proofs::FaultLemmas::refuses_quietly))]
    fn opened(&self, ask: &Ask) -> Result<TaskOpen, BookFault>
        ensures opens { IfOk result (IsOpeningOf self.now.records ask.now) }
        ensures quiet { IfErr result IsQuiet }
        ensures fault { IfErr result (IsOpenFault self.now ask.now) }
        ensures runs { OnOk result (is_stopped self.now ≡ false) }
        ensures room { OnOk result (is_full self.now ≡ false) }
        ensures stopped { is_stopped self.now ≡ true → result ≡ Err faults.Stopped }
    {
        self.check_running()?;
        let opening = opening(self.alloc, &self.records, ask)?;
        self.with_room(opening)
    }

    fn open(&mut self, opening: TaskOpen) -> Result<u64, BookFault>
        requires { self.old.journal.is_broken ≡ false }
        ensures { Noted K.bodies K.faults (entries.TaskOpen opening) opening.task self.old result self.new }
    {
        let task = opening.task;
        self.note_made(Ok((Entry::TaskOpen(opening), task)))
    }

    fn with_room<T: Drop>(&self, value: T) -> Result<T, BookFault>
        ensures value { IfOk result (λ it. (it ≡ value) × (is_full self.now ≡ false)) }
        ensures full { IfErr result (λ fault. (fault ≡ faults.Full) × (is_full self.now ≡ true)) }
    {
        match self.check_room() {
            Ok(()) => Ok(value),
            Err(fault) => Err(fault),
        }
    }

    /// Claims work of a task for a worker: what the rules ask for on the way is noted. A task that is not recorded is
    /// over.
    #[tactic(auto, using(crate::proofs::AddsLemmas::nothing_noted, crate::proofs::FaultLemmas::turn_refused, crate::proofs::PendingLemmas::claims_pending, crate::proofs::TurnLemmas::refused_by_turns))]
    pub fn claim(&mut self, task: u64, worker: u8) -> Result<Claim, BookFault>
        ensures claims { is_stopped self.old ≡ false → is_full self.old ≡ false
            → Claims K.bodies K.faults task worker self.old result self.new }
        ensures notes { Notes K.bodies K.faults self.old (some result) self.new }
        ensures failed { FailsAs K.faults result self.old.journal self.new.journal }
        ensures pending { IfErr result (ClaimsPending K.bodies K.faults task worker self.old self.new) }
        ensures refused { IfErr result (λ fault. RefusesClaim K.bodies K.faults task worker self.old fault self.new) }
        ensures room { OnOk result (is_full self.old ≡ false) }
        ensures fault { IfErr result (IsClaimFault self.old self.new) }
        ensures stopped { is_stopped self.old ≡ true → result ≡ Err faults.Stopped }
        ensures full { is_stopped self.old ≡ false → is_full self.old ≡ true → result ≡ Err faults.Full }
    {
        match self.check() {
            Ok(()) => self.claim_next(task, worker),
            Err(fault) => Err(fault),
        }
    }

    // The same of a book that goes on and has room. Each turn that gives no answer notes an entry, so that it ends.
    #[tactic(auto, using(crate::proofs::AddsLemmas::full_noted, crate::proofs::AddsLemmas::noted_last, crate::proofs::AddsLemmas::nothing_noted))]
    fn claim_next(&mut self, task: u64, worker: u8) -> Result<Claim, BookFault>
        requires { self.old.journal.is_broken ≡ false }
        ensures claims { Claims K.bodies K.faults task worker self.old result self.new }
        ensures notes { Notes K.bodies K.faults self.old (some result) self.new }
        ensures failed { FailsAs K.faults result self.old.journal self.new.journal }
        ensures fault { IfErr result (IsTurnFault self.new) }
    {
        while !self.is_long() {
            match self.turn(task, worker) {
                Ok(None) => {}
                Ok(Some(claim)) => return Ok(claim),
                Err(fault) => return Err(fault),
            }
        }
        Err(BookFault::Full)
    }

    // What the rules choose is noted, where there is something to note. A claim is answered, or that one goes on.
    #[tactic(auto, using(crate::proofs::AddsLemmas::nothing_noted))]
    fn turn(&mut self, task: u64, worker: u8) -> Result<Option<Claim>, BookFault>
        requires { self.old.journal.is_broken ≡ false }
        ensures turn { Turn K.bodies K.faults task worker self.old result self.new }
        ensures notes { Notes K.bodies K.faults self.old result self.new }
        ensures failed { FailsAs K.faults result self.old.journal self.new.journal }
        ensures fault { IfErr result IsNoteFault }
    {
        match self.choice(task, worker)? {
            Choice::Noted(entry) => self.take_on(entry),
            Choice::Waits => Ok(Some(Claim::Wait)),
            Choice::Over => Ok(Some(Claim::Over)),
        }
    }

    // Notes an entry that was chosen.
    // It is generic, since an entry that is let go is dear to prove.
    #[tactic(auto, using(crate::proofs::AddsLemmas::nothing_noted))]
    fn take_on<T: Made + Drop>(&mut self, chosen: T) -> Result<Option<Claim>, BookFault>
        requires { self.old.journal.is_broken ≡ false }
        ensures takes_on { TakesOn K.bodies K.faults (T.entry_of chosen) self.old result self.new }
        ensures notes { Notes K.bodies K.faults self.old result self.new }
        ensures failed { FailsAs K.faults result self.old.journal self.new.journal }
        ensures fault { IfErr result IsNoteFault }
    {
        let entry = chosen.entry();
        match entry {
            Entry::Begin(begin) => self.grant(entry, begin),
            Entry::UpdBegin(_) | Entry::UpdDone(_) | Entry::Gone(_) => self.update(entry),
            _ => Ok(Some(Claim::Wait)),
        }
    }

    fn choice(&self, task: u64, worker: u8) -> Result<Choice, BookFault>
        ensures choice { IfOk result (λ choice. choice ≡ choice_of self.now.records task worker) }
        ensures memory { IfErr result (λ fault. fault ≡ faults.Memory) }
    {
        match choose(self.alloc, &self.records, task, worker) {
            Ok(choice) => Ok(choice),
            Err(_) => Err(BookFault::Memory),
        }
    }

    // A call begins, and is permitted.
    #[tactic(auto, using(crate::proofs::AddsLemmas::nothing_noted))]
    fn grant(&mut self, entry: &Entry, begin: &Begin) -> Result<Option<Claim>, BookFault>
        requires begins { entry.now ≡ entries.Begin begin.now }
        requires whole { self.old.journal.is_broken ≡ false }
        ensures begins { Begins K.bodies K.faults begin.now (dep_of self.old.records begin.now.owner)
            self.old result self.new }
        ensures notes { Notes K.bodies K.faults self.old result self.new }
        ensures failed { FailsAs K.faults result self.old.journal self.new.journal }
        ensures fault { IfErr result IsNoteFault }
    {
        match self.granted(begin) {
            Ok(Some(granted)) => self.permit(entry, begin, granted),
            Ok(None) => Ok(Some(Claim::Wait)),
            Err(_) => Err(BookFault::Memory),
        }
    }

    #[tactic(auto, using(crate::proofs::AddsLemmas::call_noted, crate::proofs::AddsLemmas::refused_noted))]
    fn permit(
        &mut self,
        entry: &Entry,
        begin: &Begin,
        granted: Granted,
    ) -> Result<Option<Claim>, BookFault>
        requires begins { entry.now ≡ entries.Begin begin.now }
        requires for_begin { IsFor begin.now granted }
        requires of_dep { dep_of self.old.records begin.now.owner ≡ Some granted.dep }
        requires whole { self.old.journal.is_broken ≡ false }
        ensures noted { Noted K.bodies K.faults entry.now (Some (claims.Work granted)) self.old result self.new }
        ensures notes { Notes K.bodies K.faults self.old result self.new }
        ensures failed { FailsAs K.faults result self.old.journal self.new.journal }
        ensures fault { IfErr result IsNoteFault }
    {
        let granted = self.note_with(entry, granted)?;
        Ok(Some(Claim::Work(Permit::of(granted))))
    }

    // The call that begins so, where its owner is of a deployment.
    fn granted(&self, begin: &Begin) -> Result<Option<Granted>, CopyFault>
        ensures granted { IfOk result (λ granted.
            granted ≡ option_map (permit_of begin.now) (dep_of self.now.records begin.now.owner)) }
        ensures some { OnErr result (is_some (dep_of self.now.records begin.now.owner) ≡ true) }
    {
        match dep_of(&self.records, &begin.owner) {
            Some(dep) => Ok(Some(Granted::of(self.alloc, begin, dep)?)),
            None => Ok(None),
        }
    }

    // An update begins or ends, and the claim goes on.
    #[tactic(auto, using(crate::proofs::AddsLemmas::update_noted, crate::proofs::AddsLemmas::refused_noted))]
    fn update(&mut self, entry: &Entry) -> Result<Option<Claim>, BookFault>
        requires update { IsUpdate entry.now }
        requires whole { self.old.journal.is_broken ≡ false }
        ensures noted { Noted K.bodies K.faults entry.now None self.old result self.new }
        ensures notes { Notes K.bodies K.faults self.old result self.new }
        ensures failed { FailsAs K.faults result self.old.journal self.new.journal }
        ensures fault { IfErr result IsNoteFault }
    {
        self.note(entry)?;
        Ok(None)
    }
}
