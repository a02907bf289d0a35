ghost use Rattle.std.specs.Prelude.{◌≡◌};
ghost use Rattle.bosh_registers.specs.declared.fault.InventoryFault.TheVariants.{Memory};

use bosh_agent::AgentFault;
use bosh_base::CopyFault;
use std::alloc::AllocError;

/// Why an inventory gave no answer, or did not say what changes.
#[derive(Clone, Copy, Debug, PartialEq, Eq)]
pub enum InventoryFault {
    Memory,
}

impl From<AllocError> for InventoryFault {
    ghost from_gives = { λ _ fault. fault ≡ Memory };

    fn from(_: AllocError) -> Self {
        InventoryFault::Memory
    }
}

impl From<CopyFault> for InventoryFault {
    ghost from_gives = { λ _ fault. fault ≡ Memory };

    fn from(_: CopyFault) -> Self {
        InventoryFault::Memory
    }
}

impl From<AgentFault> for InventoryFault {
    ghost from_gives = { λ _ fault. fault ≡ Memory };

    fn from(_: AgentFault) -> Self {
        InventoryFault::Memory
    }
}
