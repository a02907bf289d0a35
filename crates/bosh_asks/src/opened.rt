ghost use Rattle.std.specs.Prelude.{◌≡◌, IfErr, IfOk, None, OnOk};
ghost use Rattle.std.specs.Option.{option_copied};
ghost use Rattle.bosh_asks.specs.Asked.{dep_of, kind_of, source_of};
ghost use Rattle.bosh_asks.specs.Cause.{IsCause};
ghost use Rattle.bosh_asks.specs.Known.{lock_holder, next_task};
ghost use Rattle.bosh_asks.specs.Opened.{Opens, plan_of};
ghost use Rattle.bosh_asks.specs.Over.{DoesOver, GoalOver, IsNamed};
ghost use Rattle.bosh_asks.specs.Refused.{MayRefuse};

use crate::planned::planned;
use crate::{Ask, BookFault};
use bosh_base::{CopyFault, Copyable, Digest, Name, TaskKind, TaskOpen};
use bosh_drops::beside;
use bosh_records::Records;
use std::alloc::Global;

fn dep_of(ask: &Ask) -> Option<&Name>
    ensures { option_copied result ≡ dep_of ask.now }
{
    match ask {
        Ask::Deploy(it) => Some(&it.manifest.contents().name),
        Ask::Recreate(inst) | Ask::Start(inst) | Ask::Resolve(inst) => Some(&inst.dep),
        Ask::Halt { inst, .. } => Some(&inst.dep),
        Ask::DeleteDeployment(dep) => Some(dep),
        Ask::DeleteDisk(_) | Ask::CleanUp => None,
    }
}

fn copied(alloc: Global, name: Option<&Name>) -> Result<Option<Name>, CopyFault>
    ensures { IfOk result (λ copied. copied ≡ option_copied name.entry) }
{
    match name {
        Some(name) => Ok(Some(name.copy(alloc)?)),
        None => Ok(None),
    }
}

fn source_of(ask: &Ask) -> Option<Digest>
    ensures { result ≡ source_of ask.now }
{
    match ask {
        Ask::Deploy(it) => Some(it.source),
        _ => None,
    }
}

fn kind_of(alloc: Global, ask: &Ask) -> Result<TaskKind, CopyFault>
    ensures { IfOk result (λ kind. kind ≡ kind_of ask.now) }
{
    match ask {
        Ask::Deploy(it) if it.fix => Ok(TaskKind::Fix),
        Ask::Deploy(_) => Ok(TaskKind::Deploy),
        Ask::Recreate(inst) => Ok(TaskKind::Recreate(inst.copy(alloc)?)),
        Ask::Start(inst) => Ok(TaskKind::Start(inst.copy(alloc)?)),
        Ask::Halt { inst, .. } => Ok(TaskKind::Stop(inst.copy(alloc)?)),
        Ask::DeleteDeployment(_) => Ok(TaskKind::DeleteDeployment),
        Ask::DeleteDisk(disk) => Ok(TaskKind::DeleteDisk(*disk)),
        Ask::CleanUp => Ok(TaskKind::CleanUp),
        Ask::Resolve(inst) => Ok(TaskKind::Resolve(inst.copy(alloc)?)),
    }
}

fn kind_and_dep(alloc: Global, ask: &Ask) -> Result<(TaskKind, Option<Name>), CopyFault>
    ensures { IfOk result (λ both. (both.0 ≡ kind_of ask.now) × (both.1 ≡ dep_of ask.now)) }
{
    let dep = copied(alloc, dep_of(ask))?;
    Ok((kind_of(alloc, ask)?, dep))
}

/// How the task opens that does what is asked, over what is recorded. The refusals come in this order: what is named is
/// not there; an open task has its lock; there is no goal; a link would be withdrawn that others use; there would be
/// too many deployments.
pub fn opening(alloc: Global, records: &Records, ask: &Ask) -> Result<TaskOpen, BookFault>
    ensures number { IfOk result (λ it. it.task ≡ next_task records.now) }
    ensures free { OnOk result (lock_holder records.now (dep_of ask.now) ≡ None) }
    ensures named { OnOk result (IsNamed records.now ask.now) }
    ensures over { IfOk result (λ it. DoesOver records.now ask.now (plan_of it)) }
    ensures cause { IfErr result (IsCause records.now (IsNamed records.now ask.now) (dep_of ask.now)
        (GoalOver records.now ask.now)) }
    ensures ok { IfOk result (Opens ask.now) }
    ensures err { IfErr result (MayRefuse ask.now) }
{
    let named = kind_and_dep(alloc, ask)?;
    let plan = planned(alloc, records, ask);
    let ((kind, dep), plan) = beside(named, plan)?;
    Ok(TaskOpen {
        task: records.tasks_opened().saturating_add(1),
        kind,
        dep,
        goal: plan.goal,
        changed: plan.changed,
        obsolete: plan.obsolete,
        disks: plan.disks,
        source: source_of(ask),
    })
}
