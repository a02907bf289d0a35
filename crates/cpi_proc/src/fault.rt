ghost use Rattle.std.specs.Prelude.{◌≡◌};
ghost use Rattle.cpi_proc.specs.declared.fault.PortFault.TheVariants.{Memory};
ghost use Rattle.cpi_proc.specs.Fault.{port_fault};

use bosh_base::Text;
use cpi_wire::WireFault;
use std::alloc::{AllocError, AllocFailed};

/// Why a call was not answered, or a text not written or read.
#[derive(Debug, Drop)]
pub enum PortFault {
    /// The text is no reply, or no request.
    NotAReply,
    /// The program gave no output.
    SpawnFault,
    /// The program refused the call, with an error of this type.
    Refused { kind: Text },
    /// The program wrote too much.
    TooLong,
    Memory,
}

impl From<AllocError> for PortFault {
    ghost from_gives = { λ _ fault. fault ≡ Memory };

    fn from(_: AllocError) -> Self {
        PortFault::Memory
    }
}

impl<T: Drop> From<AllocFailed<T>> for PortFault {
    ghost from_gives = { λ _ fault. fault ≡ Memory };

    fn from(_: AllocFailed<T>) -> Self {
        PortFault::Memory
    }
}

impl From<WireFault> for PortFault {
    ghost from_gives = { λ fault given. given ≡ port_fault fault };

    fn from(fault: WireFault) -> Self {
        match fault {
            WireFault::NotAValue => PortFault::NotAReply,
            WireFault::Memory => PortFault::Memory,
        }
    }
}
