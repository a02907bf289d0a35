ghost use Rattle.std.specs.Prelude.{◌≡◌, ◌⊎◌, [], IfErr, IsFalse};
ghost use Rattle.bosh_journal.specs.Reads.{Finds, SaysAt, SaysFormat, SaysIn, SaysNext, with_entries};
ghost use Rattle.bosh_journal.specs.declared.fault.JournalFault.TheVariants.{Memory};

use crate::JournalFault;
use crate::format::Format;
use crate::spelled::entry_in;
use bosh_base::Entry;
use bosh_entry::EntryFault;
use bosh_ports::Keeper;
use std::alloc::Global;

/// The format of a store's list.
pub(crate) fn format_in<K: Keeper>(alloc: Global, store: &mut K) -> Result<Format, JournalFault>
    requires { IsFalse (K.is_broken store.old) }
    ensures { Finds K.bodies K.faults K.is_broken SaysFormat store.old result store.new }
{
    if store.len() == 0 {
        return Ok(Format::Present);
    }
    let body = store.read(alloc, 0)?;
    Ok(Format::of_body(&body))
}

/// Adds the entries of a store, read in a format.
pub(crate) fn read_bodies<K: Keeper>(
    alloc: Global,
    store: &mut K,
    format: Format,
    entries: &mut Vec<Entry>,
) -> Result<(), JournalFault>
    requires whole { IsFalse (K.is_broken store.old) }
    requires new { entries.old.items ≡ [] }
    ensures reads { Finds K.bodies K.faults K.is_broken (SaysIn format) store.old
        (with_entries result entries.new.items) store.new }
{
    for place in 0..store.len() {
        read_body(alloc, store, format, entries, place)?;
    }
    Ok(())
}

/// Adds the entry of the body at a place. A store that did not tell its bodies may have fewer by now.
fn read_body<K: Keeper>(
    alloc: Global,
    store: &mut K,
    format: Format,
    entries: &mut Vec<Entry>,
    place: u64,
) -> Result<(), JournalFault>
    requires { IsFalse (K.is_broken store.old) }
    ensures reads { Finds K.bodies K.faults K.is_broken (SaysAt format entries.old.items place) store.old
        (with_entries result entries.new.items) store.new }
{
    if store.len() <= place {
        return Ok(());
    }
    let body = store.read(alloc, place)?;
    take(alloc, format, entries, &body, place)
}

/// Adds the entry of a body.
fn take(
    alloc: Global,
    format: Format,
    entries: &mut Vec<Entry>,
    body: &[u8],
    place: u64,
) -> Result<(), JournalFault>
    ensures says { SaysNext format entries.old.items place (with_entries result entries.new.items) body.now }
    ensures failed { IfErr result (λ fault. (fault ≡ Memory) ⊎ (fault ≡ JournalFault.Damaged place)) }
{
    match entry_in(alloc, format, body) {
        Ok(entry) => Ok(entries.push(entry)?),
        Err(EntryFault::NotAnEntry) => Err(JournalFault::Damaged { position: place }),
        Err(EntryFault::Memory) => Err(JournalFault::Memory),
    }
}
