ghost use Rattle.std.specs.Prelude.{◌≡◌, [], None};
ghost use Rattle.bosh_asks.specs.Opened.{disks_alone};

use bosh_base::{Goal, Inst, Seq};
use std::alloc::Global;

/// What a task is to do.
#[derive(Drop)]
pub(crate) struct Plan {
    pub goal: Option<Goal>,
    /// Which instances are to be brought to the goal.
    pub changed: Seq<Inst>,
    /// Which instances are to go.
    pub obsolete: Seq<Inst>,
    /// Which disks are to be deleted.
    pub disks: Seq<u64>,
}

/// Disks are deleted, and nothing else is done.
pub(crate) fn disks_alone(alloc: Global, disks: Seq<u64>) -> Plan
    ensures { result ≡ disks_alone disks }
{
    Plan {
        goal: None,
        changed: Seq::new(alloc),
        obsolete: Seq::new(alloc),
        disks,
    }
}
