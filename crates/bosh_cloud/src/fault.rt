ghost use Rattle.std.specs.Prelude.{◌≡◌};
ghost use Rattle.bosh_cloud.specs.Faults.{of_keeper};
ghost use Rattle.bosh_cloud.specs.declared.fault.CloudFault.TheVariants.{Memory};

use bosh_ports::KeepFault;
use bosh_registers::InventoryFault;
use std::alloc::AllocFailed;

/// Why the cloud did not do what it was asked.
#[derive(Clone, Copy, Debug, PartialEq, Eq)]
pub enum CloudFault {
    /// Its store failed, and the cloud has to be reloaded.
    StoreFault,
    /// The body at this place of the store, counted from 0, is none that the cloud keeps there.
    Damaged { position: u64 },
    /// Its store failed before, and the cloud was not reloaded since.
    Broken,
    Memory,
}

impl<T: Drop> From<AllocFailed<T>> for CloudFault {
    ghost from_gives = { λ _ fault. fault ≡ Memory };

    fn from(_: AllocFailed<T>) -> Self {
        CloudFault::Memory
    }
}

impl From<InventoryFault> for CloudFault {
    ghost from_gives = { λ _ fault. fault ≡ Memory };

    fn from(_: InventoryFault) -> Self {
        CloudFault::Memory
    }
}

impl From<KeepFault> for CloudFault {
    ghost from_gives = { λ keep fault. fault ≡ of_keeper keep };

    fn from(fault: KeepFault) -> Self {
        match fault {
            KeepFault::Failed => CloudFault::StoreFault,
            KeepFault::Broken => CloudFault::Broken,
            KeepFault::Memory => CloudFault::Memory,
        }
    }
}
