ghost use Rattle.std.specs.Prelude.{◌≡◌};
ghost use Rattle.bosh_links.specs.declared.fault.LinkFault.TheVariants.{Memory};

use bosh_base::{CopyFault, Joint, Text};
use std::alloc::{AllocError, AllocFailed};

/// Why the links of a deployment are not resolved.
#[derive(PartialEq, Eq, Drop)]
pub enum LinkFault {
    /// There is no provider of the consumer's type, or the consumer is blocked, and the consumer is
    /// not optional.
    NoProvider { consumer: Joint },
    /// There are several providers. These are the first two, as the manifest has them.
    Ambiguous { first: Joint, second: Joint },
    /// No provider has the public name that `from` gives.
    UnknownFrom { name: Text },
    /// The provider under the public name that `from` gives is of another type.
    TypeDiffers { name: Text },
    /// There is no memory for the answer.
    Memory,
}

impl From<AllocError> for LinkFault {
    ghost from_gives = { λ _ fault. fault ≡ Memory };

    fn from(_: AllocError) -> Self {
        LinkFault::Memory
    }
}

impl<T: Drop> From<AllocFailed<T>> for LinkFault {
    ghost from_gives = { λ _ fault. fault ≡ Memory };

    fn from(_: AllocFailed<T>) -> Self {
        LinkFault::Memory
    }
}

impl From<CopyFault> for LinkFault {
    ghost from_gives = { λ _ fault. fault ≡ Memory };

    fn from(_: CopyFault) -> Self {
        LinkFault::Memory
    }
}
