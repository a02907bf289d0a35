ghost use Rattle.std.specs.Prelude.{◌≡◌};
ghost use Rattle.bosh_asks.specs.Faults.{answered, of_goal};
ghost use Rattle.bosh_asks.specs.declared.fault.BookFault.TheVariants.{Memory};

use bosh_base::{CopyFault, Goal, Inst, Joint, Name, Text};
use bosh_manifest_names::GoalFault;
use bosh_records::RecordsFault;
use std::alloc::{AllocError, AllocFailed};

/// Why the director's book did not do what it was asked.
#[derive(Drop)]
pub enum BookFault {
    /// Nothing is done before the director starts anew: its store failed, a call was given up, or the last start anew
    /// was refused.
    Stopped,
    /// The store failed.
    StoreFault,
    /// The entry at this place of the store, counted from 0, is the first that cannot stand there.
    Damaged { position: u64 },
    /// This task is at work on what was named.
    Locked { task: u64 },
    /// What is recorded under this name and version is another one, or does not go with it.
    Differs { name: Text },
    NoDeployment { name: Name },
    NoInstance { inst: Inst },
    NoDisk { disk: u64 },
    /// An instance has the disk.
    NotOrphaned { disk: u64 },
    /// There is no goal.
    Goal(GoalFault),
    /// There would be more deployments than there may be.
    Limit,
    /// So many entries were noted, or so many calls made, that no more are.
    Full,
    /// This consumer, of another deployment, uses a link that would be withdrawn.
    Consumed { by: Joint },
    Memory,
}

impl From<AllocError> for BookFault {
    ghost from_gives = { λ _ fault. fault ≡ Memory };

    fn from(_: AllocError) -> Self {
        BookFault::Memory
    }
}

impl<T: Drop> From<AllocFailed<T>> for BookFault {
    ghost from_gives = { λ _ fault. fault ≡ Memory };

    fn from(_: AllocFailed<T>) -> Self {
        BookFault::Memory
    }
}

impl From<CopyFault> for BookFault {
    ghost from_gives = { λ _ fault. fault ≡ Memory };

    fn from(_: CopyFault) -> Self {
        BookFault::Memory
    }
}

impl From<RecordsFault> for BookFault {
    ghost from_gives = { λ _ fault. fault ≡ Memory };

    fn from(_: RecordsFault) -> Self {
        BookFault::Memory
    }
}

/// Want of memory for a goal is want of memory.
impl From<GoalFault> for BookFault {
    ghost from_gives = { λ goal fault. fault ≡ of_goal goal };

    fn from(fault: GoalFault) -> Self {
        match fault {
            GoalFault::Memory => BookFault::Memory,
            fault => BookFault::Goal(fault),
        }
    }
}

/// A goal, or why there is none.
pub(crate) fn answered(answer: Result<Goal, GoalFault>) -> Result<Goal, BookFault>
    ensures { result ≡ answered answer }
{
    match answer {
        Ok(goal) => Ok(goal),
        Err(fault) => Err(BookFault::from(fault)),
    }
}
