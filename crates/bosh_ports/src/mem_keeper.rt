// A keeper in memory, which never fails.
ghost use Rattle.std.specs.Prelude.{◌≡◌, ◌<◌, [], length, set, false, Some, IfErr, OnOk};
ghost use Rattle.bosh_ports.specs.declared.keeper.KeepFault.TheVariants.{Memory};

use crate::{Bodies, KeepFault, Keeper};
use std::alloc::Global;
use std::marker::Model;

/// A keeper in memory, seen as its list of bodies. It never fails and is never broken.
#[derive(Drop)]
pub struct MemKeeper {
    alloc: Global,
    bodies: Bodies,
}

impl Model for MemKeeper {
    ghost use Rattle.std.specs.Prelude.{List, ℕ};

    ghost Value = { List (List ℕ) };

    ghost view = { λ keeper. keeper.bodies };
}

impl MemKeeper {
    pub fn new(alloc: Global) -> MemKeeper
        ensures { result ≡ [] }
    {
        MemKeeper {
            alloc,
            bodies: Bodies::new(alloc),
        }
    }

    /// Puts another body in the place of one, as damage to the store would.
    pub fn spoil(&mut self, k: u64, body: &[u8]) -> Result<(), KeepFault>
        requires { k < length self.old }
        ensures ok { OnOk result (self.new ≡ set self.old k body.now) }
        ensures memory { IfErr result (λ fault. (fault ≡ KeepFault.Memory) × (self.new ≡ self.old)) }
    {
        let copy = body.to_vec(self.alloc)?;
        self.bodies.put(k as usize, copy);
        Ok(())
    }
}

impl Keeper for MemKeeper {
    ghost bodies = { λ keeper. Some keeper };

    ghost faults = { λ keeper. 0 };

    ghost is_broken = { λ keeper. false };

    fn faults(&self) -> u64 {
        0
    }

    fn broken(&self) -> bool {
        false
    }

    fn len(&self) -> u64 {
        self.bodies.len() as u64
    }

    fn read(&mut self, alloc: Global, k: u64) -> Result<Vec<u8>, KeepFault> {
        match self.bodies.get(k as usize) {
            Some(body) => Ok(body.to_vec(alloc)?),
            None => unreachable!(),
        }
    }

    fn append(&mut self, body: &[u8]) -> Result<(), KeepFault> {
        let copy = body.to_vec(self.alloc)?;
        match self.bodies.push(copy) {
            Ok(()) => Ok(()),
            Err(_) => Err(KeepFault::Memory),
        }
    }

    fn replace(&mut self, list: &Bodies) -> Result<(), KeepFault> {
        self.bodies = list.copy(self.alloc)?;
        Ok(())
    }

    fn reload(&mut self) -> Result<(), KeepFault> {
        Ok(())
    }
}
