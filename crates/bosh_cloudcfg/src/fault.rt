ghost use Rattle.std.specs.Prelude.{◌≡◌};
ghost use Rattle.bosh_cloudcfg.specs.Answer.{fault_of};
ghost use Rattle.bosh_cloudcfg.specs.declared.fault.ConfigFault.TheVariants.{Memory};

use bosh_base::{Addr, CopyFault, Text};
use bosh_fields::FieldFault;
use std::alloc::{AllocError, AllocFailed};

/// Why a node is no cloud config. A key is that of the field at fault.
#[derive(Drop)]
pub enum ConfigFault {
    /// A required key is absent.
    Missing { key: Text },
    /// A value, or an item of a list, is of another kind than its key takes.
    WrongKind { key: Text },
    /// A name stands twice in one list.
    Repeated { name: Text },
    /// A name is none that the config has.
    Unknown { name: Text },
    /// A text is no address, network or range, as its key takes.
    Address { key: Text },
    /// The gateway, or an end of a reserved or static range, is outside the range of its subnet.
    OutsideRange { addr: Addr },
    /// A static address is reserved; this is the least such of its subnet.
    StaticReserved { addr: Addr },
    /// Two subnets have an address in common.
    Overlap,
    /// A network is of a type that is not offered.
    Unsupported { key: Text },
    /// A number is outside its bounds, or a list is too long.
    Limit { key: Text },
    /// There is no memory for the answer.
    Memory,
}

impl From<AllocError> for ConfigFault {
    ghost from_gives = { λ _ fault. fault ≡ Memory };

    fn from(_: AllocError) -> Self {
        ConfigFault::Memory
    }
}

impl<T: Drop> From<AllocFailed<T>> for ConfigFault {
    ghost from_gives = { λ _ fault. fault ≡ Memory };

    fn from(_: AllocFailed<T>) -> Self {
        ConfigFault::Memory
    }
}

impl From<CopyFault> for ConfigFault {
    ghost from_gives = { λ _ fault. fault ≡ Memory };

    fn from(_: CopyFault) -> Self {
        ConfigFault::Memory
    }
}

impl From<FieldFault> for ConfigFault {
    ghost from_gives = { λ given fault. fault ≡ fault_of given };

    fn from(fault: FieldFault) -> Self {
        match fault {
            FieldFault::Missing { key } => ConfigFault::Missing { key },
            FieldFault::WrongKind { key } => ConfigFault::WrongKind { key },
            FieldFault::Repeated { name } => ConfigFault::Repeated { name },
            FieldFault::Malformed { key } => ConfigFault::Address { key },
            FieldFault::Unsupported { key } => ConfigFault::Unsupported { key },
            FieldFault::Limit { key } => ConfigFault::Limit { key },
            FieldFault::Memory => ConfigFault::Memory,
        }
    }
}
