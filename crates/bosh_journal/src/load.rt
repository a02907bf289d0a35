ghost use Rattle.std.specs.Prelude.{◌≡◌, [], false, Ok, Err, IfErr, IfOk, IfSome};
ghost use Rattle.bosh_journal.specs.Kept.{Hold, IsKept};
ghost use Rattle.bosh_journal.specs.Reads.{is_broken_after, pending_after, Reads, with_entries};

use crate::format::Format;
use crate::read::{format_in, read_bodies};
use crate::translate::write_all;
use crate::{Journal, JournalFault};
use bosh_base::Entry;
use bosh_drops::put;
use bosh_ports::Keeper;
use std::alloc::Global;

impl<K: Keeper> Journal<K> {
    /// The journal of a store, which is reloaded first. A list of the older format gives way to its entries in the
    /// present one. A refusal gives the store back.
    pub fn load(alloc: Global, store: K) -> Result<Journal<K>, (K, JournalFault)>
        ensures loaded { IfOk result (λ journal.
            Reads K.bodies K.faults K.is_broken store (Ok journal.entries) journal.store) }
        ensures whole { IfOk result (λ journal. journal.is_broken ≡ false) }
        ensures refused { IfErr result (λ refused.
            Reads K.bodies K.faults K.is_broken store (Err refused.1) refused.0) }
        ensures kept { IfOk result (λ journal. IfSome (K.bodies store) (λ _. IsKept K.bodies journal)) }
    {
        let mut store = store;
        let mut entries = Vec::new(alloc);
        match restore(alloc, &mut store, &mut entries) {
            Ok(()) => Ok(Journal {
                alloc,
                store,
                entries,
                is_broken: false,
                pending: None,
                is_alone: false,
            }),
            Err(fault) => Err((store, fault)),
        }
    }

    /// The journal as its store has it now. The store is reloaded first. Where that is refused the entries stay as they
    /// were, and, but for want of memory, the journal has to be reloaded.
    pub fn reload(&mut self) -> Result<(), JournalFault>
        ensures reads { Reads K.bodies K.faults K.is_broken self.old.store
            (with_entries result self.new.entries) self.new.store }
        ensures refused { IfErr result (λ _. self.new.entries ≡ self.old.entries) }
        ensures broken { self.new.is_broken ≡ is_broken_after result self.old.is_broken }
        ensures pending { self.new.pending ≡ pending_after result self.old.pending }
        ensures kept { IsKept K.bodies self.old → IsKept K.bodies self.new }
    {
        let mut entries = Vec::new(self.alloc);
        let restored = restore(self.alloc, &mut self.store, &mut entries);
        match restored {
            Ok(()) => {
                self.entries = entries;
                self.is_broken = false;
                put(&mut self.pending, None);
            }
            Err(fault) => self.is_broken = self.is_broken || fault != JournalFault::Memory,
        }
        restored
    }
}

/// The entries of a store, once it is mended. They stand in it in the present format.
fn restore<K: Keeper>(
    alloc: Global,
    store: &mut K,
    entries: &mut Vec<Entry>,
) -> Result<(), JournalFault>
    requires { entries.old.items ≡ [] }
    ensures reads { Reads K.bodies K.faults K.is_broken store.old (with_entries result entries.new.items) store.new }
    ensures held { IfOk result (λ _. IfSome (K.bodies store.old) (λ _.
        IfSome (K.bodies store.new) (λ list. Hold list entries.new.items))) }
{
    store.reload()?;
    let format = format_in(alloc, store)?;
    read_bodies(alloc, store, format, entries)?;
    match format {
        Format::Older => write_all(alloc, store, entries),
        Format::Present => Ok(()),
    }
}
