ghost use Rattle.std.specs.Prelude.{◌≡◌, ◌⊎◌, [], IfErr, IfOk, None, OnErr, false, true};
ghost use Rattle.std.specs.Option.{option_copied};
ghost use Rattle.bosh_asks.specs.declared.fault.BookFault.TheVariants as faults;
ghost use Rattle.bosh_base.specs.declared.entry.Entry.TheVariants as entries;
ghost use Rattle.bosh_base.specs.declared.failure.Failure.{Failure};
ghost use Rattle.bosh_book.specs.Adds.{Adds};
ghost use Rattle.bosh_book.specs.Running.{is_stopped};
ghost use Rattle.bosh_book.specs.Ends.{EndsPending, EndsTask, IsAtWork, IsTold, closing, coming_end, end_by, end_of};
ghost use Rattle.bosh_book.specs.Faults.{FailsAs, IsEndFault, IsNoteFault};
ghost use Rattle.bosh_book.specs.Made.{Noted};

use crate::Book;
use bosh_asks::BookFault;
use bosh_base::{CopyFault, Copyable, Entry, Failure, TaskEnd, TaskError};
use bosh_claim::present;
use bosh_ports::Keeper;
use bosh_records::Records;
use bosh_work::Work;
use std::alloc::Global;

impl<K: Keeper> Book<K> {
    /// Ends a task of which nothing is left, and answers how it ended; one that has ended is only told. A task that has
    /// something left, or that is not recorded, is left to those that work on it.
    pub fn end_task(&mut self, task: u64) -> Result<TaskEnd, BookFault>
        ensures ended { IfOk result (λ end. IsTold self.old task end self.new
            ⊎ EndsTask K.bodies K.faults self.old task end self.new) }
        ensures refused { OnErr result (Adds K.bodies K.faults self.old [] self.new) }
        ensures fault { IfErr result (IsEndFault self.old task) }
        ensures stopped { is_stopped self.old ≡ true → IfErr result (λ fault. fault ≡ faults.Stopped) }
        ensures failed { FailsAs K.faults result self.old.journal self.new.journal }
        ensures pending { IfErr result (EndsPending self.old.records task self.new.journal) }
    {
        self.check_running()?;
        match end_of(&self.records, task) {
            Some(end) => Ok(end.copy(self.alloc)?),
            None => self.end_open(task),
        }
    }

    // Ends a task that has no end.
    #[tactic(auto, using(crate::proofs::PendingLemmas::ends_pending))]
    fn end_open(&mut self, task: u64) -> Result<TaskEnd, BookFault>
        requires open { end_of self.old.records task ≡ None }
        requires whole { self.old.journal.is_broken ≡ false }
        ensures ended { IfOk result (λ end. EndsTask K.bodies K.faults self.old task end self.new) }
        ensures refused { OnErr result (Adds K.bodies K.faults self.old [] self.new) }
        ensures fault { IfErr result (λ fault. IsNoteFault fault
            ⊎ (fault ≡ faults.Locked task) × IsAtWork self.old.records task) }
        ensures failed { FailsAs K.faults result self.old.journal self.new.journal }
        ensures pending { IfErr result (EndsPending self.old.records task self.new.journal) }
    {
        match coming_end(self.alloc, &self.records, task)? {
            Some(end) => self.close(task, end),
            None => Err(BookFault::Locked { task }),
        }
    }

    fn close(&mut self, task: u64, end: TaskEnd) -> Result<TaskEnd, BookFault>
        requires { self.old.journal.is_broken ≡ false }
        ensures { Noted K.bodies K.faults (closing task end) end self.old result self.new }
    {
        let entry = closing(task, &end);
        self.note_made(Ok((entry, end)))
    }
}

// How a task has ended.
fn end_of(records: &Records, task: u64) -> Option<&TaskEnd>
    ensures { option_copied result ≡ end_of records.now task }
{
    records.task(task)?.end.as_ref()
}

// How a task ends now. None does that has something left, or is not recorded.
fn coming_end(alloc: Global, records: &Records, task: u64) -> Result<Option<TaskEnd>, CopyFault>
    ensures { IfOk result (λ end. end ≡ coming_end records.now task) }
{
    match records.work(task) {
        Some(work) => end_by(alloc, records, work),
        None => Ok(None),
    }
}

// A task that has a failed call ends by the least of them once none is open, and another one is done once nothing is
// left in any phase.
fn end_by(alloc: Global, records: &Records, work: &Work) -> Result<Option<TaskEnd>, CopyFault>
    ensures { IfOk result (λ end. end ≡ end_by records.now work.now.failed work.now) }
{
    match &work.failed {
        Some(_) if work.open > 0 => Ok(None),
        Some(end) => Ok(Some(end.copy(alloc)?)),
        None if present(records, work).is_some() => Ok(None),
        None => Ok(Some(TaskEnd::Finished)),
    }
}

// The entry by which a task ends so.
fn closing(task: u64, end: &TaskEnd) -> Entry
    ensures { result ≡ closing task end.now }
{
    match end {
        TaskEnd::Finished => Entry::TaskDone(task),
        TaskEnd::Fault { n, .. } => failing(task, Failure::Call(*n)),
        TaskEnd::Gone { n, .. } => failing(task, Failure::Gone(*n)),
        TaskEnd::Interrupted => failing(task, Failure::Interrupted),
    }
}

fn failing(task: u64, cause: Failure) -> Entry
    ensures { result ≡ entries.TaskError (record { task = task; cause = cause }) }
{
    Entry::TaskError(TaskError { task, cause })
}
