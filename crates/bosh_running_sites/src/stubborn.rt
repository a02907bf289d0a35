//! A store in memory one of whose reloads can be made to fail.
ghost use Rattle.std.specs.Prelude.{◌≡◌, None, true};
ghost use Rattle.bosh_ports.specs.Faults.{NeverFalls, Rose};

use bosh_ports::{Bodies, KeepFault, Keeper, MemKeeper};
use std::alloc::Global;

/// A keeper in memory that does not tell its bodies, and fails where a reload does.
#[derive(Drop)]
pub struct Stubborn {
    inner: MemKeeper,
    /// How many reloads go well before the one that fails.
    calm: Option<u64>,
    faults: u64,
    broken: bool,
}

impl Stubborn {
    pub fn new(alloc: Global) -> Stubborn {
        Stubborn {
            inner: MemKeeper::new(alloc),
            calm: None,
            faults: 0,
            broken: false,
        }
    }

    /// The reload after the next one is to fail.
    pub fn refuse(&mut self) {
        self.calm = Some(1);
    }

    /// Puts a body of no entry at a place, where it has that place.
    pub fn spoil(&mut self, place: u64) -> Result<bool, KeepFault> {
        if place >= self.inner.len() {
            return Ok(false);
        }
        self.inner.spoil(place, b"junk")?;
        Ok(true)
    }

    fn fail(&mut self)
        ensures broken { self.new.broken ≡ true }
        ensures rose { Rose self.old.faults self.new.faults }
        ensures never_falls { NeverFalls self.old.faults self.new.faults }
    {
        self.calm = None;
        self.faults = self.faults.saturating_add(1);
        self.broken = true;
    }
}

impl Keeper for Stubborn {
    ghost bodies = { λ _. None };

    ghost faults = { λ keeper. keeper.faults };

    ghost is_broken = { λ keeper. keeper.broken };

    fn faults(&self) -> u64 {
        self.faults
    }

    fn broken(&self) -> bool {
        self.broken
    }

    fn len(&self) -> u64 {
        self.inner.len()
    }

    fn read(&mut self, alloc: Global, k: u64) -> Result<Vec<u8>, KeepFault> {
        if self.broken {
            return Err(KeepFault::Broken);
        }
        if k >= self.inner.len() {
            return Err(KeepFault::Memory);
        }
        self.inner.read(alloc, k)
    }

    fn append(&mut self, body: &[u8]) -> Result<(), KeepFault> {
        if self.broken {
            return Err(KeepFault::Broken);
        }
        self.inner.append(body)
    }

    fn replace(&mut self, list: &Bodies) -> Result<(), KeepFault> {
        if self.broken {
            return Err(KeepFault::Broken);
        }
        self.inner.replace(list)
    }

    fn reload(&mut self) -> Result<(), KeepFault> {
        match self.calm {
            Some(0) => {
                self.fail();
                Err(KeepFault::Failed)
            }
            Some(calm) => {
                self.calm = Some(calm - 1);
                self.broken = false;
                Ok(())
            }
            None => {
                self.broken = false;
                Ok(())
            }
        }
    }
}
