ghost use Rattle.std.specs.Prelude.{◌≡◌};
ghost use Rattle.bosh_book.specs.Running.{is_stopped};

use crate::standing::Standing;
use bosh_base::Entry;
use bosh_journal::Journal;
use bosh_ports::Keeper;
use bosh_records::Records;
use std::alloc::Global;

/// What the director knows, over the store that keeps it.
#[derive(Drop)]
pub struct Book<K: Keeper> {
    pub(crate) alloc: Global,
    pub(crate) journal: Journal<K>,
    pub(crate) records: Records,
    pub(crate) standing: Standing,
    /// How many entries there were once it had started.
    pub(crate) read: usize,
    /// How many tasks it ended in starting.
    pub(crate) mended: Option<usize>,
}

impl<K: Keeper> Book<K> {
    /// What the entries stand for.
    pub fn records(&self) -> &Records
        ensures { result.now ≡ self.now.records }
    {
        &self.records
    }

    /// The entries of the store as they were last read, with those that were noted since, in order.
    pub fn entries(&self) -> &[Entry]
        ensures { result.now ≡ self.now.journal.entries }
    {
        self.journal.entries()
    }

    /// Whether nothing is done before the book is reloaded: its store failed, a call was given up, or the last reload
    /// was refused.
    pub fn is_stopped(&self) -> bool
        ensures { result ≡ is_stopped self.now }
    {
        self.journal.broken() || !self.standing.is_running()
    }

    /// How many tasks the last load or reload ended; none where a reload was refused before the entries were read.
    pub fn mended(&self) -> Option<u64>
        ensures { result ≡ self.now.mended }
    {
        match self.mended {
            Some(count) => Some(count as u64),
            None => None,
        }
    }

    /// How often its store has failed, up to the last number of 64 bits.
    pub fn faults(&self) -> u64
        ensures { result ≡ K.faults self.now.journal.store }
    {
        self.journal.faults()
    }

    /// Gives the store back.
    pub fn into_store(self) -> K
        ensures { result ≡ self.journal.store }
    {
        let Book { journal, .. } = self;
        journal.into_store()
    }
}
