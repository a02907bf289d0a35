// A program that is started anew for each question.
ghost use Rattle.std.specs.Prelude.{◌≡◌, ℕ, List, Option, IfSome};
ghost use Rattle.bosh_ports.specs.Faults.{NeverFalls};
ghost use Rattle.bosh_spawner.specs.Spawner.{Asks, FailsByCount, FitsOutput, Tells};
ghost use Rattle.bosh_spawner.specs.declared.spawner.SpawnFault.TheVariants.{Memory};

use std::alloc::{AllocError, AllocFailed, Global};

/// How many bytes of output a child may write: 8 MiB.
pub const MOST_BYTES: usize = 8_388_608;

/// Why a child gave no output.
#[derive(Clone, Copy, Debug, PartialEq, Eq)]
pub enum SpawnFault {
    /// It was not started, did not take its input, or did not end with status 0. It may have done its work.
    Failed,
    /// It wrote more than `MOST_BYTES`.
    TooLong,
    /// It was not started, for want of memory.
    Memory,
}

impl From<AllocError> for SpawnFault {
    ghost from_gives = { λ _ fault. fault ≡ Memory };

    fn from(_: AllocError) -> Self {
        SpawnFault::Memory
    }
}

impl<T: Drop> From<AllocFailed<T>> for SpawnFault {
    ghost from_gives = { λ _ fault. fault ≡ Memory };

    fn from(_: AllocFailed<T>) -> Self {
        SpawnFault::Memory
    }
}

/// A program that is started anew for each question, gets it as its input, and answers by its output.
pub trait Spawner {
    /// The inputs that were asked so far, where it tells them.
    ghost asked: { Self → Option (List (List ℕ)) };

    /// What came of each, where it tells that: the whole output, or none.
    ghost outcomes: { Self → Option (List (Option (List ℕ))) };

    /// How often it has failed.
    ghost faults: { Self → ℕ };

    /// How often it has failed, up to the last number of 64 bits. An output that is too long is no failure.
    fn faults(&self) -> u64
        ensures { result ≡ faults self.now };

    /// Starts a child, and gives its whole output once it took the input and ended with status 0.
    fn ask(&mut self, alloc: Global, input: &[u8]) -> Result<Vec<u8>, SpawnFault>
        ensures asked { IfSome (asked self.old) (λ before. Asks result before input.now (asked self.new)) }
        ensures told { IfSome (outcomes self.old) (λ before. Tells result before (outcomes self.new)) }
        ensures fits { FitsOutput result }
        ensures count { NeverFalls (faults self.old) (faults self.new) }
        ensures failed { FailsByCount result (faults self.old) (faults self.new) };
}
