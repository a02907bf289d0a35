ghost use Rattle.std.specs.Prelude.{◌≡◌};
ghost use Rattle.bosh_base.specs.Answer.{is_kind};

use crate::{CopyFault, Copyable, Digest, Method, Seq, Spec};
use std::alloc::Global;

/// What a call answers.
#[derive(PartialEq, Eq, Drop)]
pub enum Answer {
    Done,
    /// The number of what was created.
    Cid(u64),
    Found(Option<u64>),
    Yes,
    No,
    /// By number.
    Disks(Seq<u64>),
    Facts {
        spec: Option<Spec>,
        running: bool,
        drained: bool,
    },
    /// Of the compiled package.
    Built(Digest),
    /// What the call names is not there.
    Gone,
    /// It is not known whether the call had its effect.
    Failed,
}

impl Copyable for Answer {
    fn copy(&self, alloc: Global) -> Result<Self, CopyFault> {
        match self {
            Answer::Done => Ok(Answer::Done),
            Answer::Cid(number) => Ok(Answer::Cid(*number)),
            Answer::Found(number) => Ok(Answer::Found(*number)),
            Answer::Yes => Ok(Answer::Yes),
            Answer::No => Ok(Answer::No),
            Answer::Disks(disks) => Ok(Answer::Disks(disks.copy(alloc)?)),
            Answer::Facts {
                spec,
                running,
                drained,
            } => Ok(Answer::Facts {
                spec: spec.copy(alloc)?,
                running: *running,
                drained: *drained,
            }),
            Answer::Built(digest) => Ok(Answer::Built(*digest)),
            Answer::Gone => Ok(Answer::Gone),
            Answer::Failed => Ok(Answer::Failed),
        }
    }
}

impl Answer {
    /// Whether a call of this method can answer so. `Gone` and `Failed` are of every method's kind.
    pub fn is_kind(&self, method: Method) -> bool
        ensures { result ≡ is_kind method self.now }
    {
        match self {
            Answer::Failed | Answer::Gone => true,
            Answer::Cid(_) => matches!(method, Method::CreateVm | Method::CreateDisk),
            Answer::Yes | Answer::No => matches!(method, Method::HasVm | Method::HasDisk),
            Answer::Found(_) => matches!(method, Method::FindVm | Method::FindDisk),
            Answer::Disks(_) => matches!(method, Method::GetDisks | Method::ListDisk),
            Answer::Facts { .. } => matches!(method, Method::GetState),
            Answer::Built(_) => matches!(method, Method::CompilePackage),
            Answer::Done => is_done_kind(method),
        }
    }
}

fn is_done_kind(method: Method) -> bool
    ensures { result ≡ is_kind method Answer.Done }
{
    method == Method::Ping || (method.is_changing() && !is_creation(method))
}

fn is_creation(method: Method) -> bool
    ensures { result ≡ is_kind method (Answer.Cid 1) }
{
    matches!(method, Method::CreateVm | Method::CreateDisk)
}
