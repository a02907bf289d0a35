ghost use Rattle.std.specs.Prelude.{◌≡◌};

use bosh_base::Entry;
use bosh_ports::Keeper;
use std::alloc::Global;
use std::marker::Model;

/// The entries of a director over the store that keeps them.
#[derive(Drop)]
pub struct Journal<K: Keeper> {
    pub(crate) alloc: Global,
    pub(crate) store: K,
    pub(crate) entries: Vec<Entry>,
    pub(crate) is_broken: bool,
    /// What its store failed at last, which it may have all the same.
    pub(crate) pending: Option<Entry>,
    /// Whether that was to stand in the place of all entries.
    pub(crate) is_alone: bool,
}

impl<K: Keeper> Model for Journal<K> {
    ghost use Rattle.std.specs.Prelude.{◌≡◌, false};
    ghost use Rattle.std.specs.Prelude.{option_map};
    ghost use Rattle.bosh_journal.specs.JournalView.{JournalView};

    ghost Value = { JournalView K };

    ghost view = { λ journal. record {
      store = journal.store;
      entries = journal.entries.items;
      is_broken = journal.is_broken;
      pending = option_map (λ entry. record { entry = entry; is_alone = journal.is_alone }) journal.pending;
    } };

    ghost invariant = { λ journal. journal.is_broken ≡ false → K.is_broken journal.store ≡ false };
}

impl<K: Keeper> Journal<K> {
    /// The entries of the store as it was last read, with those that were appended since, in order.
    pub fn entries(&self) -> &[Entry]
        ensures { result.now ≡ self.now.entries }
    {
        self.entries.as_slice()
    }

    /// Whether the journal has to be reloaded before anything is appended: its store failed, or a reload was refused.
    pub fn broken(&self) -> bool
        ensures { result ≡ self.now.is_broken }
    {
        self.is_broken
    }

    /// How often its store has failed, up to the last number of 64 bits.
    pub fn faults(&self) -> u64
        ensures { result ≡ K.faults self.now.store }
    {
        self.store.faults()
    }

    /// Gives the store back.
    pub fn into_store(self) -> K
        ensures { result ≡ self.store }
    {
        let Journal { store, .. } = self;
        store
    }
}
