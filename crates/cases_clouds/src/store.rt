//! The store of a cloud: one in memory, that can be made to fail and be damaged.
use crate::rotting::{Damage, Rotting};
use bosh_ports::{KeepFault, Keeper, Rig, Rigged};
use cases_given::CaseFault;
use std::alloc::Global;

pub(crate) type Store = Rigged<Rotting>;

pub(crate) fn new_store(alloc: Global) -> Store {
    Rigged::new(alloc, Rotting::new(alloc))
}

fn where_memory(answer: Result<(), KeepFault>) -> Result<(), CaseFault> {
    match answer {
        Ok(()) => Ok(()),
        Err(_) => Err(CaseFault::Memory),
    }
}

/// Makes the k-th append from now on fail, of a store that is not broken.
pub(crate) fn rig(store: &mut Store, k: u64, how: Rig) -> Result<(), CaseFault> {
    if k == 0 {
        return Err(CaseFault::Form);
    }
    where_memory(store.rig(k, how))
}

/// The store with damage, and without rigs.
pub(crate) fn spoiled(alloc: Global, store: Store, damage: &Damage) -> Result<Store, CaseFault> {
    let mut inner = store.into_inner();
    if damage.place >= inner.len() {
        return Err(CaseFault::Form);
    }
    where_memory(inner.suffer(damage))?;
    Ok(Rigged::new(alloc, inner))
}

/// The store that is damaged as soon as a body is put at its end, and without rigs.
pub(crate) fn rotting(alloc: Global, store: Store, damage: Damage) -> Store {
    let mut inner = store.into_inner();
    inner.rot(damage);
    Rigged::new(alloc, inner)
}
