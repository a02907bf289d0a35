ghost use Rattle.std.specs.Prelude.{◌≡◌, IfErr, IfOk, None, OnOk, Some, true};
ghost use Rattle.bosh_asks.specs.Cause.{IsCause};
ghost use Rattle.bosh_asks.specs.Changed.{AreObsolete, obsolete_of};
ghost use Rattle.bosh_asks.specs.Goals.{nothing};
ghost use Rattle.bosh_asks.specs.Known.{is_recorded, lock_holder};
ghost use Rattle.bosh_asks.specs.Opened.{Deletes};
ghost use Rattle.bosh_asks.specs.Over.{DeletesOver, Is};
ghost use Rattle.bosh_asks.specs.Recorded.{first_consumer};
ghost use Rattle.bosh_asks.specs.Refused.{RefusesDeletion};

use crate::BookFault;
use crate::consumers::check_consumers;
use crate::locks::check_free;
use crate::naming::no_deployment;
use crate::obsolete::obsolete_of;
use crate::plan::Plan;
use bosh_base::{Copyable, Goal, Inst, Name, Seq};
use bosh_drops::beside;
use bosh_records::Records;
use std::alloc::Global;

// A goal without instances.
fn nothing(alloc: Global, dep: Name) -> Goal
    ensures { result ≡ nothing dep }
{
    Goal {
        dep,
        rows: Seq::new(alloc),
        groups: Seq::new(alloc),
        ties: Seq::new(alloc),
        keys: Seq::new(alloc),
        slots: Seq::new(alloc),
        offers: Seq::new(alloc),
    }
}

// That the deployment is recorded, and no open task has its lock.
fn check(alloc: Global, records: &Records, dep: &Name) -> Result<(), BookFault>
    ensures free { OnOk result (lock_holder records.now (Some dep.now) ≡ None) }
    ensures named { OnOk result (is_recorded records.now dep.now ≡ true) }
    ensures err { IfErr result (RefusesDeletion dep.now) }
    ensures cause { IfErr result (IsCause records.now (is_recorded records.now dep.now ≡ true) (Some dep.now)
        (Is (nothing dep.now))) }
{
    match records.deployment(dep) {
        Some(_) => check_free(records.tasks(), Some(dep)),
        None => Err(no_deployment(alloc, dep)),
    }
}

// The recorded instances that go, where nobody uses a link of the deployment.
fn leaving(alloc: Global, records: &Records, goal: &Goal) -> Result<Seq<Inst>, BookFault>
    ensures kept { OnOk result (first_consumer goal.now records.now.deployments.places.entries ≡ None) }
    ensures over { IfOk result (λ obsolete. obsolete ≡ obsolete_of goal.now records.now.instances.by_inst.entries) }
    ensures ok { IfOk result (AreObsolete goal.now) }
    ensures err { IfErr result (RefusesDeletion goal.now.dep) }
    ensures cause { is_recorded records.now goal.now.dep ≡ true → lock_holder records.now (Some goal.now.dep) ≡ None
        → IfErr result (IsCause records.now (is_recorded records.now goal.now.dep ≡ true) (Some goal.now.dep)
        (Is goal.now)) }
{
    check_consumers(alloc, records.deployments(), goal)?;
    Ok(obsolete_of(alloc, records.instances(), goal)?)
}

/// A deployment is deleted: its goal becomes empty.
pub(crate) fn deletion_plan(alloc: Global, records: &Records, dep: &Name) -> Result<Plan, BookFault>
    ensures free { OnOk result (lock_holder records.now (Some dep.now) ≡ None) }
    ensures named { OnOk result (is_recorded records.now dep.now ≡ true) }
    ensures over { IfOk result (DeletesOver records.now dep.now) }
    ensures ok { IfOk result (Deletes dep.now) }
    ensures err { IfErr result (RefusesDeletion dep.now) }
    ensures cause { IfErr result (IsCause records.now (is_recorded records.now dep.now ≡ true) (Some dep.now)
        (Is (nothing dep.now))) }
{
    check(alloc, records, dep)?;
    let goal = nothing(alloc, dep.copy(alloc)?);
    let obsolete = leaving(alloc, records, &goal);
    let (goal, obsolete) = beside(goal, obsolete)?;
    Ok(Plan {
        goal: Some(goal),
        changed: Seq::new(alloc),
        obsolete,
        disks: Seq::new(alloc),
    })
}
