// A list of bodies that outlives the program.
ghost use Rattle.std.specs.Prelude.{◌≡◌, ℕ, ◌<◌, ◌++◌, [], ◌∷◌, Bool, List, length, Option, Some, IfSome, IsFalse};
ghost use Rattle.std.specs.Option.{ForSome};
ghost use Rattle.bosh_ports.specs.Faults.{NeverFalls};
ghost use Rattle.bosh_ports.specs.Keeper.{FailsByCount, IsBodyAt, Leaves, TellsBroken, TellsMended};
ghost use Rattle.bosh_ports.specs.declared.keeper.KeepFault.TheVariants.{Memory};

use crate::Bodies;
use std::alloc::{AllocError, AllocFailed, Global};

/// Why a keeper did not do what it was asked.
#[derive(Clone, Copy, Debug, PartialEq, Eq)]
pub enum KeepFault {
    /// The store failed. The list is the old one or the new one, and the keeper is broken.
    Failed,
    /// The keeper was broken already: `reload` mends it.
    Broken,
    Memory,
}

impl From<AllocError> for KeepFault {
    ghost from_gives = { λ _ e. e ≡ Memory };

    fn from(_: AllocError) -> Self {
        KeepFault::Memory
    }
}

impl<T: Drop> From<AllocFailed<T>> for KeepFault {
    ghost from_gives = { λ _ e. e ≡ Memory };

    fn from(_: AllocFailed<T>) -> Self {
        KeepFault::Memory
    }
}

/// A list of bodies that outlives the program. A failure breaks it, and it is not used again before it is reloaded.
pub trait Keeper {
    /// The bodies in their order, where it tells them.
    ghost bodies: { Self → Option (List (List ℕ)) };

    /// How often it has failed.
    ghost faults: { Self → ℕ };

    /// Whether a failure has broken it since the last reload.
    ghost is_broken: { Self → Bool };

    /// How often it has failed, up to the last number of 64 bits.
    fn faults(&self) -> u64
        ensures { result ≡ faults self.now };

    fn broken(&self) -> bool
        ensures { result ≡ is_broken self.now };

    /// How many bodies there are.
    fn len(&self) -> u64
        requires { IsFalse (is_broken self.now) }
        ensures { IfSome (bodies self.now) (λ list. result ≡ length list) };

    /// The body at a place, counted from 0. The list stays as it is, whatever the answer.
    fn read(&mut self, alloc: Global, k: u64) -> Result<Vec<u8>, KeepFault>
        requires { ForSome (bodies self.old) (λ list. k < length list) }
        ensures body { IfSome (bodies self.old) (λ list. IsBodyAt result list k) }
        ensures list { IfSome (bodies self.old) (λ list. bodies self.new ≡ Some list) }
        ensures broken { TellsBroken result (is_broken self.old) (is_broken self.new) }
        ensures count { NeverFalls (faults self.old) (faults self.new) }
        ensures failed { FailsByCount result (faults self.old) (faults self.new) };

    /// Puts a body at the end of the list. After `Ok` it is there whatever happens next.
    fn append(&mut self, body: &[u8]) -> Result<(), KeepFault>
        ensures list { IfSome (bodies self.old) (λ list. Leaves result list (list ++ body.now ∷ []) (bodies self.new)) }
        ensures broken { TellsBroken result (is_broken self.old) (is_broken self.new) }
        ensures count { NeverFalls (faults self.old) (faults self.new) }
        ensures failed { FailsByCount result (faults self.old) (faults self.new) };

    /// Puts another list in the place of the whole list.
    fn replace(&mut self, list: &Bodies) -> Result<(), KeepFault>
        ensures list { IfSome (bodies self.old) (λ before. Leaves result before list.now (bodies self.new)) }
        ensures broken { TellsBroken result (is_broken self.old) (is_broken self.new) }
        ensures count { NeverFalls (faults self.old) (faults self.new) }
        ensures failed { FailsByCount result (faults self.old) (faults self.new) };

    /// Mends a broken keeper, and is harmless on a whole one. The list stays as it is, whatever the answer.
    fn reload(&mut self) -> Result<(), KeepFault>
        ensures list { IfSome (bodies self.old) (λ list. bodies self.new ≡ Some list) }
        ensures mended { TellsMended result (is_broken self.old) (is_broken self.new) }
        ensures count { NeverFalls (faults self.old) (faults self.new) }
        ensures failed { FailsByCount result (faults self.old) (faults self.new) };
}
