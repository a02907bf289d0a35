//! The stores of a site, which can be damaged and made to fail. That the director's fails in an append is up to the site.
use crate::stubborn::Stubborn;
use bosh_cases::CaseFault;
use bosh_ports::{KeepFault, Rig, Rigged};
use bosh_world::{Site, SiteFault, Unloaded};
use std::alloc::Global;

/// The cloud's store.
pub type CloudStore = Rigged<Stubborn>;

/// A site over two such stores.
pub type MemSite = Site<Stubborn, CloudStore>;

/// The site of two keepers.
pub fn load(alloc: Global, store: Stubborn, cloud: CloudStore) -> Result<MemSite, SiteFault> {
    match Site::load(alloc, store, cloud) {
        Ok(site) => Ok(site),
        Err(back) => Err(fault_of(back)),
    }
}

// The keepers are let go.
fn fault_of(back: Unloaded<Stubborn, CloudStore>) -> SiteFault {
    let Unloaded { fault, .. } = back;
    fault
}

/// The site of new keepers.
pub fn new_site(alloc: Global) -> Option<MemSite> {
    let cloud = Rigged::new(alloc, Stubborn::new(alloc));
    load(alloc, Stubborn::new(alloc), cloud).ok()
}

fn where_memory(answer: Result<(), KeepFault>) -> Result<(), CaseFault> {
    match answer {
        Ok(()) => Ok(()),
        Err(_) => Err(CaseFault::Memory),
    }
}

/// Makes the k-th append from now on fail.
pub fn rig(store: &mut CloudStore, k: u64, how: Rig) -> Result<(), CaseFault> {
    if k == 0 {
        return Err(CaseFault::Form);
    }
    where_memory(store.rig(k, how))
}

// Puts a body of no entry at a place.
fn spoil(store: &mut Stubborn, place: u64) -> Result<(), CaseFault> {
    match store.spoil(place) {
        Ok(true) => Ok(()),
        Ok(false) => Err(CaseFault::Form),
        Err(_) => Err(CaseFault::Memory),
    }
}

/// What is done to one of the stores.
#[derive(Clone, Copy, Debug, PartialEq, Eq)]
pub enum Harm {
    /// A body of no entry is put at a place.
    Spoil(u64),
    /// The reload after the next one fails.
    Refuse,
}

/// Does harm to a store.
pub fn do_harm(store: &mut Stubborn, harm: Harm) -> Result<(), CaseFault> {
    match harm {
        Harm::Spoil(place) => spoil(store, place),
        Harm::Refuse => Ok(store.refuse()),
    }
}

/// The store of a cloud with harm done to it, and without rigs.
pub fn harmed(alloc: Global, store: CloudStore, done: Harm) -> Result<CloudStore, CaseFault> {
    let mut inner = store.into_inner();
    do_harm(&mut inner, done)?;
    Ok(Rigged::new(alloc, inner))
}
