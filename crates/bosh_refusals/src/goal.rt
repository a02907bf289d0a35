ghost use Rattle.std.specs.Prelude.{◌≡◌};
ghost use Rattle.bosh_refusals.specs.Told.{goal_told, kind_word};

use crate::Refuses;
use crate::refusal::{refused, refused_both, refused_with};
use bosh_base::Refusal;
use bosh_manifest_names::{GoalFault, Kind};
use bosh_report::{ReportFault, Word};
use std::alloc::Global;

fn word_of(kind: Kind) -> &'static [u8]
    ensures { result.now ≡ kind_word kind }
{
    match kind {
        Kind::Release => b"release",
        Kind::Stemcell => b"stemcell",
        Kind::Az => b"az",
        Kind::VmType => b"vm_type",
        Kind::Network => b"network",
        Kind::DiskType => b"disk_type",
        Kind::Job => b"job",
    }
}

impl Refuses for GoalFault {
    ghost told = { goal_told };

    fn refusal(&self, alloc: Global) -> Result<Refusal, ReportFault> {
        match self {
            GoalFault::NoConfig => refused(alloc, b"goal", b"NoConfig"),
            GoalFault::Unknown { kind, name } => {
                refused_both(alloc, b"goal", b"Unknown", &Word(word_of(*kind)), name)
            }
            GoalFault::Link(fault) => fault.refusal(alloc),
            GoalFault::Share(fault) => fault.refusal(alloc),
            GoalFault::Pool(fault) => fault.refusal(alloc),
            GoalFault::DiskInAz { inst } => refused_with(alloc, b"goal", b"DiskInAz", inst),
            GoalFault::Template(fault) => fault.refusal(alloc),
            GoalFault::Limit => refused(alloc, b"goal", b"Limit"),
            GoalFault::Memory => Err(ReportFault::Memory),
        }
    }
}
