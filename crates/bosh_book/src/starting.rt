ghost use Rattle.std.specs.Prelude.{◌≡◌, ◌⊎◌, IfErr, IfOk, IfSome, IsTrue, Ok, OnOk, false, is_ok, true};
ghost use Rattle.std.specs.Option.{option_copied};
ghost use Rattle.bosh_asks.specs.declared.fault.BookFault.TheVariants as faults;
ghost use Rattle.bosh_book.specs.Adds.{Adds, IsRecorded};
ghost use Rattle.bosh_book.specs.Appends.{LeavesPending, unless_refused};
ghost use Rattle.bosh_book.specs.Faults.{FailsAs, IsNoteFault, IsQuiet, IsStartFault};
ghost use Rattle.bosh_book.specs.Starts.{Compacts, ComesOut, Finishes, IsShortened, IsShortenedWhere, Interrupts, InterruptsWhere};
ghost use Rattle.bosh_book.specs.Starts.{IsNotLoaded, IsNotReloaded, Starts, StartsFrom, Takes};
ghost use Rattle.bosh_book.specs.Starts.{gives_way, interruption, is_open, open_tasks, shortened, standing_after};
ghost use Rattle.bosh_book.specs.declared.standing.Standing.TheVariants.{Unread};
ghost use Rattle.bosh_journal.specs.Director.{is_snapshot};
ghost use Rattle.bosh_journal.specs.Kept.{IsKept};

use crate::Book;
use crate::faults::of_journal;
use crate::folding::folded;
use crate::made::Made;
use crate::standing::Standing;
use bosh_asks::BookFault;
use bosh_base::{Entry, Failure, TaskError, TaskRow};
use bosh_drops::put;
use bosh_journal::Journal;
use bosh_ports::Keeper;
use bosh_records::Records;
use bosh_views::snapshot;
use std::alloc::Global;

/// With more entries than these, a load puts a snapshot in their place.
const MOST_LOADED: usize = 4_096;

impl<K: Keeper> Book<K> {
    /// The book of a store, which is reloaded first. Tasks that were open end as interrupted. A refusal gives the store
    /// back.
    pub fn load(alloc: Global, store: K) -> Result<Book<K>, (K, BookFault)>
        ensures loaded { IfOk result (λ book.
            StartsFrom {T = Unit {0}} K.bodies K.faults K.is_broken true store (Ok tt) book) }
        ensures kept { IfOk result (λ book. IfSome (K.bodies store) (λ _. IsKept K.bodies book.journal)) }
        ensures refused { IfErr result (λ back. IsNotLoaded K.bodies K.faults K.is_broken store back.0 back.1) }
    {
        let journal = match Journal::load(alloc, store) {
            Ok(journal) => journal,
            Err((store, fault)) => return Err((store, of_journal(fault))),
        };
        let mut book = unread(alloc, journal);
        match book.start(true) {
            Ok(()) => Ok(book),
            Err(fault) => Err((book.into_store(), fault)),
        }
    }

    /// Reads the entries of the store again, once it is mended, and ends open tasks as interrupted. Where that is
    /// refused, the book is stopped.
    pub fn reload(&mut self) -> Result<(), BookFault>
        ensures starts { IsNotReloaded K.bodies K.faults K.is_broken self.old result self.new
            ⊎ StartsFrom K.bodies K.faults K.is_broken false self.old.journal.store result self.new }
        ensures kept { IsKept K.bodies self.old.journal → IsKept K.bodies self.new.journal }
    {
        self.standing = Standing::Unread;
        self.mended = None;
        match self.journal.reload() {
            Ok(()) => self.start(false),
            Err(fault) => Err(of_journal(fault)),
        }
    }

    // Takes in the entries that were read, in shorter form where there are many and that is asked for, and ends the
    // tasks that are open.
    #[tactic(auto, using(crate::proofs::StartLemmas::started, crate::proofs::FaultLemmas::fails_later))]
    fn start(&mut self, compacts: bool) -> Result<(), BookFault>
        requires whole { self.old.journal.is_broken ≡ false }
        requires unread { self.old.standing ≡ Unread }
        ensures starts { Starts K.bodies K.faults compacts self.old result self.new }
        ensures recorded { OnOk result (IsRecorded self.old.journal.entries self.new.records) }
        ensures failed { FailsAs K.faults result self.old.journal self.new.journal }
        ensures fault { IfErr result (IsStartFault self.old.journal.entries) }
        ensures standing { self.new.standing ≡ standing_after result }
    {
        let taken = self.take_in(compacts);
        let started = self.finish(taken);
        if started.is_ok() {
            self.standing = Standing::Running;
        }
        started
    }

    // Ends the tasks that are open, where the entries were taken in, and keeps what is told of the start.
    #[tactic(auto, using(crate::proofs::StartLemmas::told_start))]
    fn finish(&mut self, taken: Result<(), BookFault>) -> Result<(), BookFault>
        requires { OnOk taken (self.old.journal.is_broken ≡ false) }
        ensures finishes { Finishes K.bodies K.faults self.old taken result self.new }
        ensures standing { self.new.standing ≡ self.old.standing }
        ensures taken { OnOk result (is_ok taken ≡ true) }
        ensures comes_out { ComesOut K.faults taken self.old result self.new }
    {
        let before = self.entries().len();
        let ended = self.interrupt_after(taken);
        self.read = self.entries().len();
        self.mended = Some(self.read.saturating_sub(before));
        ended
    }

    #[tactic(auto, using(crate::proofs::StartLemmas::none_ended, crate::proofs::StartLemmas::all_ended))]
    fn interrupt_after(&mut self, taken: Result<(), BookFault>) -> Result<(), BookFault>
        requires { OnOk taken (self.old.journal.is_broken ≡ false) }
        ensures interrupts { InterruptsWhere K.bodies K.faults taken self.old result self.new }
        ensures standing { self.new.standing ≡ self.old.standing }
        ensures taken { OnOk result (is_ok taken ≡ true) }
        ensures comes_out { ComesOut K.faults taken self.old result self.new }
    {
        match taken {
            Ok(()) => self.interrupt(),
            Err(fault) => Err(fault),
        }
    }

    // Folds the entries that were read, and puts a snapshot in their place where there are many and that is asked for.
    #[tactic(auto, using(crate::proofs::FaultLemmas::fails_quietly, crate::proofs::StartLemmas::is_note))]
    fn take_in(&mut self, compacts: bool) -> Result<(), BookFault>
        requires { self.old.journal.is_broken ≡ false }
        ensures takes { Takes K.bodies K.faults compacts self.old result self.new }
        ensures recorded { OnOk result (IsRecorded self.old.journal.entries self.new.records) }
        ensures failed { FailsAs K.faults result self.old.journal self.new.journal }
        ensures fault { IfErr result (IsStartFault self.old.journal.entries) }
    {
        let records = folded(self.alloc, self.entries())?;
        put(&mut self.records, records);
        self.shorten(compacts)
    }

    // Puts a snapshot in the place of many entries, where that is asked for.
    fn shorten(&mut self, compacts: bool) -> Result<(), BookFault>
        requires { self.old.journal.is_broken ≡ false }
        ensures shortens { IsShortenedWhere (gives_way compacts self.old.journal.entries) result self.old.records
            self.old.journal.entries self.new.journal.entries }
        ensures compacts { Compacts K.bodies K.faults self.old self.new }
        ensures quiet { gives_way compacts self.old.journal.entries ≡ false → IfErr result IsQuiet }
        ensures failed { FailsAs K.faults result self.old.journal self.new.journal }
        ensures fault { IfErr result IsNoteFault }
    {
        if compacts && self.entries().len() > MOST_LOADED {
            return self.compact();
        }
        Ok(())
    }

    // Puts a snapshot in the place of all entries.
    fn compact(&mut self) -> Result<(), BookFault>
        requires { self.old.journal.is_broken ≡ false }
        ensures shortens { IsShortened result self.old.records self.old.journal.entries self.new.journal.entries }
        ensures compacts { Compacts K.bodies K.faults self.old self.new }
        ensures failed { FailsAs K.faults result self.old.journal self.new.journal }
        ensures fault { IfErr result IsNoteFault }
    {
        let snapshot = snapshot(&self.records)?;
        self.compact_to(Entry::Snapshot(snapshot))
    }

    // It is generic, since an entry that is let go is dear to prove.
    fn compact_to<T: Made + Drop>(&mut self, snapshot: T) -> Result<(), BookFault>
        requires snapshot { IsTrue (is_snapshot (T.entry_of snapshot)) }
        requires whole { self.old.journal.is_broken ≡ false }
        ensures entries { self.new.journal.entries ≡
            shortened result (T.entry_of snapshot) self.old.journal.entries }
        ensures compacts { Compacts K.bodies K.faults self.old self.new }
        ensures failed { FailsAs K.faults result self.old.journal self.new.journal }
        ensures fault { IfErr result IsNoteFault }
    {
        match self.journal.compact(snapshot.entry()) {
            Ok(()) => Ok(()),
            Err(fault) => Err(of_journal(fault)),
        }
    }

    // Ends each task that is open.
    #[tactic(auto, using(crate::proofs::StartLemmas::none_ended))]
    fn interrupt(&mut self) -> Result<(), BookFault>
        requires { self.old.journal.is_broken ≡ false }
        ensures interrupts { Interrupts K.bodies K.faults (open_tasks self.old.records) self.old result self.new }
        ensures standing { self.new.standing ≡ self.old.standing }
        ensures failed { FailsAs K.faults result self.old.journal self.new.journal }
        ensures fault { IfErr result IsNoteFault }
    {
        match open_tasks(self.alloc, &self.records) {
            Ok(tasks) => self.interrupt_all(&tasks),
            Err(fault) => Err(fault),
        }
    }

    // Ends each of some tasks, in their order.
    fn interrupt_all(&mut self, tasks: &[u64]) -> Result<(), BookFault>
        requires { self.old.journal.is_broken ≡ false }
        ensures interrupts { Interrupts K.bodies K.faults tasks.now self.old result self.new }
        ensures standing { self.new.standing ≡ self.old.standing }
        ensures failed { FailsAs K.faults result self.old.journal self.new.journal }
        ensures fault { IfErr result IsNoteFault }
    {
        for task in tasks {
            match self.interrupt_one(*task) {
                Ok(()) => {}
                Err(fault) => return Err(fault),
            }
        }
        Ok(())
    }

    fn interrupt_one(&mut self, task: u64) -> Result<(), BookFault>
        requires { self.old.journal.is_broken ≡ false }
        ensures adds { Adds K.bodies K.faults self.old (unless_refused result (interruption task)) self.new }
        ensures pending { LeavesPending result (interruption task) self.new.journal }
        ensures failed { FailsAs K.faults result self.old.journal self.new.journal }
        ensures fault { IfErr result IsNoteFault }
    {
        self.note_made(Ok((interrupted(task), ())))
    }
}

// The tasks that are open, by number.
fn open_tasks(alloc: Global, records: &Records) -> Result<Vec<u64>, BookFault>
    ensures tasks { IfOk result (λ tasks. tasks.items ≡ open_tasks records.now) }
    ensures memory { IfErr result (λ fault. fault ≡ faults.Memory) }
{
    let mut tasks = Vec::new(alloc);
    for (task, row) in records.tasks.iter() {
        if is_open(row.as_ref()) {
            tasks.push(*task)?;
        }
    }
    Ok(tasks)
}

fn is_open(row: Option<&TaskRow>) -> bool
    ensures { result ≡ is_open (option_copied row.entry) }
{
    match row {
        Some(row) => row.end.is_none(),
        None => false,
    }
}

fn unread<K: Keeper>(alloc: Global, journal: Journal<K>) -> Book<K>
    ensures journal { result.journal ≡ journal }
    ensures standing { result.standing ≡ Unread }
{
    Book {
        alloc,
        journal,
        records: Records::empty(alloc),
        standing: Standing::Unread,
        read: 0,
        mended: None,
    }
}

// The entry by which a task ends because the director stopped.
fn interrupted(task: u64) -> Entry
    ensures { result ≡ interruption task }
{
    Entry::TaskError(TaskError {
        task,
        cause: Failure::Interrupted,
    })
}
