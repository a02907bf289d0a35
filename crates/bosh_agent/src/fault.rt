ghost use Rattle.std.specs.Prelude.{◌≡◌};
ghost use Rattle.bosh_agent.specs.declared.fault.AgentFault.TheVariants.{Memory};

use bosh_base::CopyFault;
use std::alloc::{AllocError, AllocFailed};

/// Why an agent did not answer.
#[derive(Clone, Copy, Debug, PartialEq, Eq)]
pub enum AgentFault {
    Memory,
}

impl From<AllocError> for AgentFault {
    ghost from_gives = { λ _ fault. fault ≡ Memory };

    fn from(_: AllocError) -> Self {
        AgentFault::Memory
    }
}

impl<T: Drop> From<AllocFailed<T>> for AgentFault {
    ghost from_gives = { λ _ fault. fault ≡ Memory };

    fn from(_: AllocFailed<T>) -> Self {
        AgentFault::Memory
    }
}

impl From<CopyFault> for AgentFault {
    ghost from_gives = { λ _ fault. fault ≡ Memory };

    fn from(_: CopyFault) -> Self {
        AgentFault::Memory
    }
}
