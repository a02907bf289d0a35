ghost use Rattle.std.specs.Prelude.{◌≡◌, IfOk, IfErr, IsTrue};
ghost use Rattle.bosh_agent.specs.Agent.{machine_by_call, agent_answer, can_act, contents_in, disks_by_call, disks_after, has_disks, machine_after, answer_by_call, vm_of, HasDisks, IsFor};
ghost use Rattle.bosh_agent.specs.Change.{disks_changed, machine_changed, IsIn};
ghost use Rattle.bosh_agent.specs.Compiled.{compiled_digest};
ghost use Rattle.bosh_agent.specs.Numbers.{with_number, without_number};

use crate::{AgentFault, Change, Disks, has, with_number, without_number};
use bosh_base::{Answer, Call, Copyable, Machine, Seq, Spec, Text};
use bosh_compile::built;
use std::alloc::Global;

/// Carries out a call to the agent of a machine: ping, get_state, apply, start, drain, stop, mount_disk, unmount_disk,
/// list_disk, migrate_disk or compile_package. Where the agent is silent, or a disk is not where the call needs it, the
/// answer is `Gone` and nothing changes. Nothing changes for want of memory either
/// (bosh.io, "Agent API", in this project's profile).
pub fn act(
    alloc: Global,
    machine: &mut Machine,
    disks: &mut Disks,
    call: &Call,
) -> Result<Answer, AgentFault>
    requires call { IsFor machine.old call.now }
    requires disks { HasDisks machine.old disks.old }
    ensures answer { IfOk result (λ answer. answer ≡ agent_answer compiled_digest machine.old call.now) }
    ensures machine { IfOk result (λ _. machine.new ≡ machine_after machine.old call.now) }
    ensures disks { IfOk result (λ _. disks.new ≡ disks_after machine.old disks.old call.now) }
    ensures refused { IfErr result (λ fault. (machine.new ≡ machine.old) × (disks.new ≡ disks.old)) }
{
    if !can_act(machine, call) {
        return Ok(Answer::Gone);
    }
    let answer = told(alloc, machine, call)?;
    let change = change_of(alloc, machine, disks, call)?;
    change.carry(machine, disks);
    Ok(answer)
}

/// The machine whose agent a call is to.
pub fn vm_of(call: &Call) -> Option<u64>
    ensures { result ≡ vm_of call.now }
{
    match call {
        Call::Ping { vm }
        | Call::GetState { vm }
        | Call::Apply { vm, .. }
        | Call::Start { vm }
        | Call::Drain { vm }
        | Call::Stop { vm }
        | Call::MountDisk { vm, .. }
        | Call::UnmountDisk { vm, .. }
        | Call::ListDisk { vm }
        | Call::MigrateDisk { vm, .. }
        | Call::CompilePackage { vm, .. } => Some(*vm),
        _ => None,
    }
}

/// Whether the agent can do the call: it is not silent, and the disks are where the call needs them.
pub fn can_act(machine: &Machine, call: &Call) -> bool
    ensures { result ≡ can_act machine.now call.now }
{
    !machine.silent && has_disks(machine, call)
}

fn has_disks(machine: &Machine, call: &Call) -> bool
    ensures { result ≡ has_disks machine.now call.now }
{
    match call {
        Call::MountDisk { disk, .. } | Call::UnmountDisk { disk, .. } => {
            has(&machine.attached, *disk)
        }
        Call::MigrateDisk { from, to, .. } => {
            has(&machine.mounted, *from) && has(&machine.mounted, *to)
        }
        _ => true,
    }
}

/// What a call that the agent can do answers.
pub fn told(alloc: Global, machine: &Machine, call: &Call) -> Result<Answer, AgentFault>
    ensures { IfOk result (λ answer. answer ≡ answer_by_call compiled_digest machine.now call.now) }
{
    match call {
        Call::GetState { .. } => facts(alloc, machine),
        Call::ListDisk { .. } => mounted(alloc, machine),
        Call::CompilePackage { work, deps, .. } => Ok(Answer::Built(built(work, deps.as_slice()))),
        _ => Ok(Answer::Done),
    }
}

fn facts(alloc: Global, machine: &Machine) -> Result<Answer, AgentFault>
    ensures { IfOk result (λ answer. answer ≡ Answer.Facts machine.now.spec machine.now.running machine.now.drained) }
{
    Ok(Answer::Facts {
        spec: machine.spec.copy(alloc)?,
        running: machine.running,
        drained: machine.drained,
    })
}

fn mounted(alloc: Global, machine: &Machine) -> Result<Answer, AgentFault>
    ensures { IfOk result (λ answer. answer ≡ Answer.Disks machine.now.mounted) }
{
    Ok(Answer::Disks(machine.mounted.copy(alloc)?))
}

/// What a call that the agent can do changes. All memory for it is taken here.
pub fn change_of(
    alloc: Global,
    machine: &Machine,
    disks: &Disks,
    call: &Call,
) -> Result<Change, AgentFault>
    requires can { IsTrue (can_act machine.now call.now) }
    requires disks { HasDisks machine.now disks.now }
    ensures machine { IfOk result (λ change. machine_changed machine.now change ≡ machine_by_call machine.now call.now) }
    ensures disks { IfOk result (λ change. disks_changed disks.now change ≡ disks_by_call disks.now call.now) }
    ensures made { IfOk result (λ change. IsIn change disks.now) }
{
    match call {
        Call::Apply { spec, .. } => applied(alloc, spec),
        Call::Start { .. } => Ok(Change::Started),
        Call::Drain { .. } => Ok(Change::Drained),
        Call::Stop { .. } => Ok(Change::Stopped),
        Call::MountDisk { disk, .. } => with_mounted(alloc, machine, *disk),
        Call::UnmountDisk { disk, .. } => without_mounted(alloc, machine, *disk),
        Call::MigrateDisk { from, to, .. } => migrated(alloc, disks, *from, *to),
        _ => Ok(Change::Nothing),
    }
}

fn applied(alloc: Global, spec: &Spec) -> Result<Change, AgentFault>
    ensures { IfOk result (λ change. change ≡ Change.Spec spec.now) }
{
    Ok(Change::Spec(spec.copy(alloc)?))
}

fn with_mounted(alloc: Global, machine: &Machine, disk: u64) -> Result<Change, AgentFault>
    ensures { IfOk result (λ change. change ≡ Change.Mounted (with_number disk machine.now.mounted)) }
{
    Ok(Change::Mounted(with_number(alloc, &machine.mounted, disk)?))
}

fn without_mounted(alloc: Global, machine: &Machine, disk: u64) -> Result<Change, AgentFault>
    ensures { IfOk result (λ change. change ≡ Change.Mounted (without_number disk machine.now.mounted)) }
{
    Ok(Change::Mounted(without_number(alloc, &machine.mounted, disk)?))
}

fn migrated(alloc: Global, disks: &Disks, from: u64, to: u64) -> Result<Change, AgentFault>
    ensures { IfOk result (λ change. change ≡ Change.Contents to (contents_in disks.now from)) }
{
    Ok(Change::Contents {
        disk: to,
        text: contents(alloc, disks, from)?,
    })
}

fn contents(alloc: Global, disks: &Disks, number: u64) -> Result<Text, AgentFault>
    ensures { IfOk result (λ text. text ≡ contents_in disks.now number) }
{
    match disks.get(number) {
        Some(disk) => Ok(disk.contents.copy(alloc)?),
        None => Ok(Seq::new(alloc)),
    }
}
