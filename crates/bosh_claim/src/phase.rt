ghost use Rattle.std.specs.Prelude.{◌≡◌};
ghost use Rattle.bosh_claim.specs.Phase.{least_stage, lesser, present};

use bosh_records::Records;
use bosh_work::{GroupWork, Work};

/// The phases of a task, in their order (bosh.io, "Deploying", for the order of compilation and updates).
#[derive(Clone, Copy, Debug, PartialEq, Eq, PartialOrd, Ord)]
pub enum Phase {
    /// Machines are asked whether they answer.
    Ask,
    /// Orphaned disks are deleted; a task that does this has no other phase.
    DeleteDisks,
    /// The compile machines that an earlier task left are deleted.
    Sweep,
    /// Packages are compiled.
    Compile,
    /// Obsolete instances are deleted.
    Leave,
    /// The groups of a stage are updated.
    Update(u32),
}

/// The first phase in which something is left to do.
pub fn present(records: &Records, work: &Work) -> Option<Phase>
    ensures { result ≡ present records.now work.now }
{
    if !work.pings.queue.is_over() {
        return Some(Phase::Ask);
    }
    if !work.disks.queue.is_over() {
        return Some(Phase::DeleteDisks);
    }
    if !work.sweep.queue.is_over() {
        return Some(Phase::Sweep);
    }
    if work.machines > 0 || (work.slots > 0 && records.next_key(work).is_some()) {
        return Some(Phase::Compile);
    }
    if !work.obsolete.queue.is_over() {
        return Some(Phase::Leave);
    }
    stage(work.groups.as_slice()).map(Phase::Update)
}

// The least stage of the groups that are left.
fn stage(groups: &[GroupWork]) -> Option<u32>
    ensures { result ≡ least_stage groups.now }
{
    let mut least: Option<u32> = None;
    for group in groups {
        if !group.roll.is_over() {
            least = Some(lesser(least, group.stage));
        }
    }
    least
}

fn lesser(least: Option<u32>, stage: u32) -> u32
    ensures { result ≡ lesser least stage }
{
    match least {
        Some(other) => other.min(stage),
        None => stage,
    }
}
