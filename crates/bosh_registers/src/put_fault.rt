ghost use Rattle.std.specs.Prelude.{◌≡◌};
ghost use Rattle.bosh_registers.specs.declared.put_fault.PutFault.TheVariants.{Memory};

use bosh_agent::AgentFault;
use std::alloc::AllocError;

/// Why what is done was not added to an inventory.
#[derive(Clone, Copy, Debug, PartialEq, Eq)]
pub enum PutFault {
    /// The store failed, and is broken. Its last body may be the one that was to be added.
    StoreFailed,
    Memory,
}

impl From<AllocError> for PutFault {
    ghost from_gives = { λ _ fault. fault ≡ Memory };

    fn from(_: AllocError) -> Self {
        PutFault::Memory
    }
}

impl From<AgentFault> for PutFault {
    ghost from_gives = { λ _ fault. fault ≡ Memory };

    fn from(_: AgentFault) -> Self {
        PutFault::Memory
    }
}
