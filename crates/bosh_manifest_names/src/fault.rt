ghost use Rattle.std.specs.Prelude.{◌≡◌};
ghost use Rattle.bosh_manifest_names.specs.declared.fault.GoalFault.TheVariants.{Memory};

use bosh_base::{CopyFault, Inst, Name};
use bosh_links::LinkFault;
use bosh_pool::PoolFault;
use bosh_share::ShareFault;
use bosh_template::TemplateFault;
use std::alloc::{AllocError, AllocFailed};

/// What a name is to be the name of.
#[derive(Clone, Copy, PartialEq, Eq)]
pub enum Kind {
    Release,
    Stemcell,
    Az,
    VmType,
    Network,
    DiskType,
    Job,
}

/// Why a deployment has no goal.
#[derive(Drop)]
pub enum GoalFault {
    /// There is no cloud config.
    NoConfig,
    /// The manifest names what is not there.
    Unknown { kind: Kind, name: Name },
    /// A link within the deployment is not resolved.
    Link(LinkFault),
    /// A link to another deployment is not.
    Share(ShareFault),
    /// An instance or a compile machine has no address.
    Pool(PoolFault),
    /// An instance with a disk would have to move to another availability zone.
    DiskInAz { inst: Inst },
    /// A template is not read or not rendered.
    Template(TemplateFault),
    /// The files of all instances have together more than 1,048,576 bytes.
    Limit,
    /// There is no memory for the answer.
    Memory,
}

impl From<AllocError> for GoalFault {
    ghost from_gives = { λ _ fault. fault ≡ Memory };

    fn from(_: AllocError) -> Self {
        GoalFault::Memory
    }
}

impl<T: Drop> From<AllocFailed<T>> for GoalFault {
    ghost from_gives = { λ _ fault. fault ≡ Memory };

    fn from(_: AllocFailed<T>) -> Self {
        GoalFault::Memory
    }
}

impl From<CopyFault> for GoalFault {
    ghost from_gives = { λ _ fault. fault ≡ Memory };

    fn from(_: CopyFault) -> Self {
        GoalFault::Memory
    }
}
