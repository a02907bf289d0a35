ghost use Rattle.std.specs.Prelude.{◌≡◌};
ghost use Rattle.bosh_share.specs.Shared.{fault_of};
ghost use Rattle.bosh_share.specs.declared.fault.ShareFault.TheVariants.{Memory};

use bosh_base::{CopyFault, Joint, Name, Text};
use bosh_links::LinkFault;
use std::alloc::{AllocError, AllocFailed};

/// Why links across deployments are not resolved.
#[derive(Drop)]
pub enum ShareFault {
    /// The deployment that is to provide the link is not there.
    NoDeployment { name: Name },
    /// It shares no link under the public name that `from` gives.
    NotShared { name: Text },
    /// It shares no link of the consumer's type, and the consumer is not optional.
    NoProvider { consumer: Joint },
    /// It shares several. These are the first two, as its manifest has them.
    Ambiguous { first: Joint, second: Joint },
    /// What it shares under the public name that `from` gives is of another type.
    TypeDiffers { name: Text },
    /// There is no memory for the answer.
    Memory,
}

impl From<AllocError> for ShareFault {
    ghost from_gives = { λ _ fault. fault ≡ Memory };

    fn from(_: AllocError) -> Self {
        ShareFault::Memory
    }
}

impl<T: Drop> From<AllocFailed<T>> for ShareFault {
    ghost from_gives = { λ _ fault. fault ≡ Memory };

    fn from(_: AllocFailed<T>) -> Self {
        ShareFault::Memory
    }
}

impl From<CopyFault> for ShareFault {
    ghost from_gives = { λ _ fault. fault ≡ Memory };

    fn from(_: CopyFault) -> Self {
        ShareFault::Memory
    }
}

/// What refuses a link within a deployment refuses it across deployments; an unknown name is one that is not shared.
impl From<LinkFault> for ShareFault {
    ghost from_gives = { λ link fault. fault ≡ fault_of link };

    fn from(fault: LinkFault) -> Self {
        match fault {
            LinkFault::NoProvider { consumer } => ShareFault::NoProvider { consumer },
            LinkFault::Ambiguous { first, second } => ShareFault::Ambiguous { first, second },
            LinkFault::UnknownFrom { name } => ShareFault::NotShared { name },
            LinkFault::TypeDiffers { name } => ShareFault::TypeDiffers { name },
            LinkFault::Memory => ShareFault::Memory,
        }
    }
}
