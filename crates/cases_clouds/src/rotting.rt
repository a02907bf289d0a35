//! A store in memory that is damaged while a cloud stands on it.
ghost use Rattle.std.specs.Prelude.{None, false};
ghost use Rattle.bosh_ports.specs.Keeper.{FailsByCount, TellsBroken};

use bosh_ports::{Bodies, KeepFault, Keeper, MemKeeper};
use std::alloc::Global;

/// Another body in the place of one.
#[derive(Drop)]
pub(crate) struct Damage {
    pub(crate) place: u64,
    pub(crate) body: Vec<u8>,
}

/// A keeper in memory that does not tell its bodies, since one of them may become another one by itself.
#[derive(Drop)]
pub(crate) struct Rotting {
    inner: MemKeeper,
    /// What happens to it as soon as a body is put at its end.
    next: Option<Damage>,
}

impl Rotting {
    pub(crate) fn new(alloc: Global) -> Rotting {
        Rotting {
            inner: MemKeeper::new(alloc),
            next: None,
        }
    }

    pub(crate) fn rot(&mut self, damage: Damage) {
        self.next = Some(damage);
    }

    /// It is damaged now, where it has that place.
    pub(crate) fn suffer(&mut self, damage: &Damage) -> Result<(), KeepFault>
        ensures broken { TellsBroken result false false }
        ensures failed { FailsByCount result 0 0 }
    {
        if damage.place >= self.inner.len() {
            return Ok(());
        }
        self.inner.spoil(damage.place, damage.body.as_slice())
    }
}

impl Keeper for Rotting {
    ghost bodies = { λ _. None };

    ghost faults = { λ _. 0 };

    ghost is_broken = { λ _. false };

    fn faults(&self) -> u64 {
        0
    }

    fn broken(&self) -> bool {
        false
    }

    fn len(&self) -> u64 {
        self.inner.len()
    }

    fn read(&mut self, alloc: Global, k: u64) -> Result<Vec<u8>, KeepFault> {
        if k >= self.inner.len() {
            return Err(KeepFault::Memory);
        }
        self.inner.read(alloc, k)
    }

    fn append(&mut self, body: &[u8]) -> Result<(), KeepFault> {
        self.inner.append(body)?;
        match self.next.take() {
            Some(damage) => self.suffer(&damage),
            None => Ok(()),
        }
    }

    fn replace(&mut self, list: &Bodies) -> Result<(), KeepFault> {
        self.inner.replace(list)
    }

    fn reload(&mut self) -> Result<(), KeepFault> {
        Ok(())
    }
}
