//! The stores of a book and a cloud: in memory, and the book's can be made to fail.
use bosh_base::{Entry, Snapshot};
use bosh_cases::CaseFault;
use bosh_drops::after;
use bosh_entry::write;
use bosh_ports::{Keeper, MemKeeper, Rigged};
use bosh_records::{Records, RecordsFault};
use bosh_views::snapshot;
use std::alloc::Global;

pub(crate) type Store = Rigged<MemKeeper>;

pub(crate) fn new_store(alloc: Global) -> Store {
    Rigged::new(alloc, MemKeeper::new(alloc))
}

/// The store with a body of no entry at a place, and without rigs.
pub(crate) fn spoiled(alloc: Global, store: Store, place: u64) -> Result<Store, CaseFault> {
    let mut inner = store.into_inner();
    if place >= inner.len() {
        return Err(CaseFault::Form);
    }
    match inner.spoil(place, b"junk") {
        Ok(()) => Ok(Rigged::new(alloc, inner)),
        Err(_) => Err(CaseFault::Memory),
    }
}

fn numbered(snapshot: Result<Snapshot, RecordsFault>, last_call: u64) -> Result<Entry, CaseFault> {
    match snapshot {
        Ok(snapshot) => Ok(Entry::Snapshot(Snapshot {
            last_call,
            ..snapshot
        })),
        Err(_) => Err(CaseFault::Memory),
    }
}

// A snapshot of nothing but the number of the last call.
fn snapshot_at(alloc: Global, last_call: u64) -> Result<Entry, CaseFault> {
    let records = Records::empty(alloc);
    let entry = numbered(snapshot(&records), last_call);
    after(records, entry)
}

/// The body of an entry.
pub(crate) fn body_of(alloc: Global, entry: &Entry) -> Result<Vec<u8>, CaseFault> {
    match write(alloc, entry) {
        Ok(body) => Ok(body),
        Err(_) => Err(CaseFault::Memory),
    }
}

fn body_at(alloc: Global, last_call: u64) -> Result<Vec<u8>, CaseFault> {
    let snapshot = snapshot_at(alloc, last_call)?;
    let body = body_of(alloc, &snapshot);
    after(snapshot, body)
}

fn holding(alloc: Global, body: &[u8]) -> Result<Store, CaseFault> {
    let mut inner = MemKeeper::new(alloc);
    match inner.append(body) {
        Ok(()) => Ok(Rigged::new(alloc, inner)),
        Err(_) => Err(CaseFault::Memory),
    }
}

/// A new store, in which nothing is recorded but the number of the last call.
pub(crate) fn store_at(alloc: Global, last_call: u64) -> Result<Store, CaseFault> {
    let body = body_at(alloc, last_call)?;
    holding(alloc, body.as_slice())
}
