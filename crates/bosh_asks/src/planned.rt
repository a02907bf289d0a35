ghost use Rattle.std.specs.Prelude.{◌≡◌, IfErr, IfOk, None, OnOk};
ghost use Rattle.bosh_asks.specs.Asked.{dep_of, halting};
ghost use Rattle.bosh_asks.specs.Cause.{IsCause};
ghost use Rattle.bosh_asks.specs.Known.{lock_holder};
ghost use Rattle.bosh_asks.specs.Opened.{Does};
ghost use Rattle.bosh_asks.specs.Over.{DoesOver, GoalOver, IsNamed};
ghost use Rattle.bosh_asks.specs.Refused.{MayRefuse};

use crate::deletion::deletion_plan;
use crate::deploying::deploy_plan;
use crate::disks::{clean_up_plan, disk_plan};
use crate::naming::named_plan;
use crate::plan::Plan;
use crate::{Ask, BookFault};
use bosh_base::State;
use bosh_goal::Change;
use bosh_records::Records;
use std::alloc::Global;

fn halting(hard: bool) -> Change
    ensures { result ≡ halting hard }
{
    if hard {
        Change::To(State::Detached)
    } else {
        Change::To(State::Stopped)
    }
}

/// What the task is to do that does what is asked.
pub(crate) fn planned(alloc: Global, records: &Records, ask: &Ask) -> Result<Plan, BookFault>
    ensures free { OnOk result (lock_holder records.now (dep_of ask.now) ≡ None) }
    ensures named { OnOk result (IsNamed records.now ask.now) }
    ensures over { IfOk result (DoesOver records.now ask.now) }
    ensures ok { IfOk result (Does ask.now) }
    ensures err { IfErr result (MayRefuse ask.now) }
    ensures cause { IfErr result (IsCause records.now (IsNamed records.now ask.now) (dep_of ask.now)
        (GoalOver records.now ask.now)) }
{
    match ask {
        Ask::Deploy(it) => deploy_plan(alloc, records, it),
        Ask::Recreate(inst) => named_plan(alloc, records, inst, Change::Fresh),
        Ask::Start(inst) => named_plan(alloc, records, inst, Change::To(State::Running)),
        Ask::Halt { inst, hard } => named_plan(alloc, records, inst, halting(*hard)),
        Ask::DeleteDeployment(dep) => deletion_plan(alloc, records, dep),
        Ask::DeleteDisk(disk) => disk_plan(alloc, records, *disk),
        Ask::CleanUp => clean_up_plan(alloc, records),
        Ask::Resolve(inst) => named_plan(alloc, records, inst, Change::Same),
    }
}
