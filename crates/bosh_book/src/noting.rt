ghost use Rattle.std.specs.Prelude.{◌≡◌, ◌⊎◌, [], ◌∷◌, IfErr, IfOk, IsTrue, Ok, OnErr, OnOk, false, true};
ghost use Rattle.bosh_asks.specs.declared.fault.BookFault.TheVariants as faults;
ghost use Rattle.bosh_book.specs.Adds.{Adds};
ghost use Rattle.bosh_book.specs.Appends.{LeavesPending, unless_refused};
ghost use Rattle.bosh_book.specs.Running.{is_full, is_long, is_stopped};
ghost use Rattle.bosh_book.specs.Faults.{FailsAs, IsNoteFault};
ghost use Rattle.bosh_book.specs.Made.{NotesMade};
ghost use Rattle.bosh_fold.specs.Learns.{Learns};
ghost use Rattle.bosh_journal.specs.Director.{is_directors};

use crate::Book;
use crate::kept::kept_with;
use crate::made::Made;
use bosh_asks::BookFault;
use bosh_base::Entry;
use bosh_fold::{learn, plan};
use bosh_ports::Keeper;

/// So many entries are noted at most before the director starts anew.
const MOST_ENTRIES: usize = 1_000_000;
/// No call and no task has a greater number than this.
const LAST_NUMBER: u64 = 1 << 62;

impl<K: Keeper> Book<K> {
    /// Makes an entry durable, and takes it into the records. The one place where an entry is added.
    pub(crate) fn note(&mut self, entry: &Entry) -> Result<(), BookFault>
        requires directors { IsTrue (is_directors entry.now) }
        requires whole { self.old.journal.is_broken ≡ false }
        ensures adds { Adds K.bodies K.faults self.old (unless_refused result entry.now) self.new }
        ensures learned { OnOk result (Learns self.old.records entry.now self.new.records) }
        ensures failed { FailsAs K.faults result self.old.journal self.new.journal }
        ensures fault { IfErr result IsNoteFault }
        ensures pending { LeavesPending result entry.now self.new.journal }
    {
        let change = plan(&mut self.records, entry)?;
        let change = kept_with(&mut self.journal, entry, change)?;
        learn(&mut self.records, entry, change);
        Ok(())
    }

    /// Notes an entry that was made, where it was, and hands the value on that stands beside it.
    // It is generic, since an entry that is let go is dear to prove.
    pub(crate) fn note_made<T: Made + Drop, V: Drop>(
        &mut self,
        made: Result<(T, V), BookFault>,
    ) -> Result<V, BookFault>
        requires memory { IfErr made (λ fault. fault ≡ faults.Memory) }
        requires directors { IfOk made (λ it. IsTrue (is_directors (T.entry_of it.0))) }
        requires whole { self.old.journal.is_broken ≡ false }
        ensures noted { NotesMade K.bodies K.faults T.entry_of made self.old result self.new }
    {
        match made {
            Ok((entry, value)) => self.note_with(entry.entry(), value),
            Err(fault) => Err(fault),
        }
    }

    /// Notes an entry, and hands a value on once it is noted.
    pub(crate) fn note_with<V: Drop>(&mut self, entry: &Entry, value: V) -> Result<V, BookFault>
        requires directors { IsTrue (is_directors entry.now) }
        requires whole { self.old.journal.is_broken ≡ false }
        ensures value { IfOk result (λ it. it ≡ value) }
        ensures adds { Adds K.bodies K.faults self.old (unless_refused result entry.now) self.new }
        ensures learned { OnOk result (Learns self.old.records entry.now self.new.records) }
        ensures failed { FailsAs K.faults result self.old.journal self.new.journal }
        ensures fault { IfErr result IsNoteFault }
        ensures pending { LeavesPending result entry.now self.new.journal }
    {
        match self.note(entry) {
            Ok(()) => Ok(value),
            Err(fault) => Err(fault),
        }
    }

    /// That the book goes on.
    pub(crate) fn check_running(&self) -> Result<(), BookFault>
        ensures runs { OnOk result (is_stopped self.now ≡ false) }
        ensures stopped { IfErr result (λ fault. (fault ≡ faults.Stopped) × (is_stopped self.now ≡ true)) }
    {
        if self.is_stopped() {
            return Err(BookFault::Stopped);
        }
        Ok(())
    }

    /// That it goes on, and more entries may be noted, more calls made and more tasks opened.
    pub(crate) fn check(&self) -> Result<(), BookFault>
        ensures runs { OnOk result (is_stopped self.now ≡ false) }
        ensures room { OnOk result (is_full self.now ≡ false) }
        ensures fault { IfErr result (λ fault. (fault ≡ faults.Stopped) × (is_stopped self.now ≡ true)
            ⊎ (fault ≡ faults.Full) × (is_stopped self.now ≡ false) × (is_full self.now ≡ true)) }
    {
        self.check_running()?;
        self.check_room()
    }

    /// That more entries may be noted, more calls made and more tasks opened.
    pub(crate) fn check_room(&self) -> Result<(), BookFault>
        ensures room { OnOk result (is_full self.now ≡ false) }
        ensures full { IfErr result (λ fault. (fault ≡ faults.Full) × (is_full self.now ≡ true)) }
    {
        if self.is_full() {
            return Err(BookFault::Full);
        }
        Ok(())
    }

    fn is_full(&self) -> bool
        ensures { result ≡ is_full self.now }
    {
        self.is_long()
            || self.records.last_call() >= LAST_NUMBER
            || self.records.tasks_opened() >= LAST_NUMBER
    }

    pub(crate) fn is_long(&self) -> bool
        ensures { result ≡ is_long self.now }
    {
        self.entries().len().saturating_sub(self.read) >= MOST_ENTRIES
    }
}
